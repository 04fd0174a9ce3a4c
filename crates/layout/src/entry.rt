// The entries of a layout.

// How two parts stand to each other.
#[derive(Clone, Copy, PartialEq, Eq, Debug)]
pub enum Cut {
    // the first on top
    Above,
    // the first on the left
    Beside,
}

// What an entry is: a cell, or a cut.
#[derive(Clone, Copy, PartialEq, Eq, Debug)]
pub enum Kind {
    Cell,
    Cut(Cut),
}

// A cell or a cut of a layout. The entries of a cut are those of its left or upper part, those of the other part, and then its own.
// That each entry has a kind, a piece and a setting is a rule: callers may hand in a cut with a piece, and are told that it is none.
#[derive(Clone, Copy, PartialEq, Eq, Debug)]
pub struct Entry {
    pub kind: Kind,
    // the piece and the setting of a cell, both 0 for a cut
    pub piece: u8,
    pub setting: u8,
}
