// What a place of a table holds.

// A cut goes by its first part: the left set, and beside the right part the left width too.
#[derive(Clone, Copy, PartialEq, Eq, Debug)]
pub enum Code {
    // no layout
    Nothing,
    // a piece alone, in one of its settings
    Cell { setting: u8 },
    // a cut into two parts, one above the other
    Above { left: u16 },
    // a cut into two parts, one beside the other
    Beside { left: u16, width: u8 },
}

// Which of these a code is.
#[derive(Clone, Copy, PartialEq, Eq, Debug)]
pub enum CodeKind {
    Nothing,
    Cell,
    Above,
    Beside,
}
