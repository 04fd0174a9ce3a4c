// The lines that say what stands on a page and what was refused.
use crate::pages::settings_of;
use fault::{Fault, Refusal, refusal_line};
use measure::Depth;
use order::heading_line;
use page::{Page, Tables};
use std::process::Abort;
use std::test::Fail;

// A buffer that was all `#` now begins with the text, and is the same behind it.
pub(crate) fn begins_with(rt: &impl Abort, line: &[u8], text: &[u8]) {
    for (i, byte) in line.iter().enumerate() {
        let due = text.get(i).copied().unwrap_or(b'#');
        assert_eq!(rt; char::from(*byte), char::from(due), "byte {i}");
    }
}

// Of a buffer that was all `#` the call answered that this text is written to its front, or that it is refused; the rest of it is the same.
pub(crate) fn told(
    rt: &impl Abort,
    answer: Result<usize, Fault>,
    line: &[u8],
    text: Result<&[u8], Refusal>,
) {
    let due = text.map(|text| text.len()).map_err(Fault::from);
    assert_eq!(rt; answer, due);
    begins_with(rt, line, text.unwrap_or(b""));
}

// A page's line takes a buffer of 80 bytes, however short it is.
#[test]
fn a_heading_counts_pieces(rt: HostRuntime) -> Result<(), Fail> {
    let cases: [(u8, u8, &[u8]); 4] = [
        (0, 1, b"pieces 0 breadth 1"),
        (3, 4, b"pieces 3 breadth 4"),
        (9, 10, b"pieces 9 breadth 10"),
        (12, 24, b"pieces 12 breadth 24"),
    ];
    for (pieces, breadth, text) in cases {
        let mut page = Page::new();
        let tables = &mut Tables {
            widths: &mut [0; 96],
            amounts: &mut [0; 96],
        };
        page.open(breadth)?;
        for _ in 0..pieces {
            page.put(&Depth, settings_of(&[1], &[1]), tables)?;
        }
        let mut short = [b'#'; 79];
        let answer = heading_line(&page, &mut short);
        told(&rt, answer, &short, Err(Refusal::Memory));
        let mut line = [b'#'; 80];
        let answer = heading_line(&page, &mut line);
        told(&rt, answer, &line, Ok(text));
    }
    Ok(())
}

// So does a refusal's, for each refusal and with the largest place and piece. A fault shown is the same text.
#[test]
fn a_refusal_has_a_line(rt: HostRuntime) -> Result<(), Fail> {
    let cases: [(Fault, &str); 26] = [
        (Refusal::Breadth.into(), "refused 1 page 0"),
        (Refusal::SettingCount.into(), "refused 2 page 0"),
        (Refusal::Memory.into(), "refused 3 page 0"),
        (Refusal::Width.into(), "refused 4 page 0"),
        (Refusal::Amount.into(), "refused 5 page 0"),
        (Refusal::PageFull.into(), "refused 6 page 0"),
        (Refusal::NoSuchPiece.into(), "refused 7 page 0"),
        (Refusal::NoPieces.into(), "refused 8 page 0"),
        (Refusal::WidthAsked.into(), "refused 9 page 0"),
        (Refusal::Unfinished.into(), "refused 10 page 0"),
        (Refusal::NoLayout.into(), "refused 11 page 0"),
        (Refusal::SpoiledCode.into(), "refused 12 page 0"),
        (Fault::at(Refusal::WrongSign, 9), "refused 13 text 9"),
        (Fault::at(Refusal::TextEndsEarly, 10), "refused 14 text 10"),
        (Fault::at(Refusal::TextGoesOn, 99), "refused 15 text 99"),
        (Fault::at(Refusal::WrongLetter, 0), "refused 16 text 0"),
        (Fault::at(Refusal::PieceMissing, 1), "refused 17 text 1"),
        (Fault::at(Refusal::FileEndsEarly, 42), "refused 18 order 42"),
        (
            Fault::at(Refusal::FigureOutOfRange, 0),
            "refused 19 order 0",
        ),
        (Fault::at(Refusal::FileGoesOn, 497), "refused 20 order 497"),
        // with a piece
        (
            Fault::at(Refusal::Width, 1).of_piece(2),
            "refused 4 page 1 piece 2",
        ),
        (
            Fault::from(Refusal::Memory).of_piece(0),
            "refused 3 page 0 piece 0",
        ),
        (
            Fault::from(Refusal::PieceMissing).of_piece(11),
            "refused 17 text 0 piece 11",
        ),
        // the largest place and piece
        (
            Fault::at(Refusal::SpoiledCode, usize::MAX).of_piece(255),
            "refused 12 page 18446744073709551615 piece 255",
        ),
        (
            Fault::at(Refusal::PieceMissing, usize::MAX).of_piece(255),
            "refused 17 text 18446744073709551615 piece 255",
        ),
        (
            Fault::at(Refusal::FileGoesOn, usize::MAX).of_piece(255),
            "refused 20 order 18446744073709551615 piece 255",
        ),
    ];
    for (fault, text) in cases {
        let mut short = [b'#'; 79];
        let answer = refusal_line(fault, &mut short);
        told(&rt, answer, &short, Err(Refusal::Memory));
        let mut line = [b'#'; 80];
        let answer = refusal_line(fault, &mut line);
        told(&rt, answer, &line, Ok(text.as_bytes()));
        let shown = format!(in rt.alloc(); "{fault}")?;
        assert_eq!(rt; shown.as_str(), text);
    }
    Ok(())
}
