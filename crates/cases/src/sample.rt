// The sample order file.
use order::Figures;

// Pieces, breadth, gutter and ceiling; the settings of each piece; their widths, piece by piece; the marks and the depth of each.
pub(crate) const SAMPLE: [u8; 43] = *b"\x03\x04\x00\x28\x00\
    \x02\x02\x03\
    \x01\x02\x01\x02\x01\x02\x03\
    \x00\x00\x02\x00\x00\x00\x01\x00\
    \x00\x00\x02\x00\x00\x00\x01\x00\
    \x00\x00\x03\x00\x00\x00\x02\x00\x00\x00\x01\x00";

// The figures at its head.
pub(crate) const HEAD: Figures = Figures {
    pieces: 3,
    breadth: 4,
    gutter: 0,
    ceiling: 40,
};
