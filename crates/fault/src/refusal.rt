// Why a call refuses, and the fault that carries it to the caller.

// The refusals of all calls, in the order of their numbers.
#[derive(Clone, Copy, PartialEq, Eq, Debug)]
pub enum Refusal {
    // the breadth is 0 or over 24
    Breadth = 1,
    // no settings, over 8, or widths and amounts differ in number
    SettingCount,
    // memory is shorter than stated
    Memory,
    // a width is 0, over 24 or not above the last
    Width,
    // an amount is not better than the last
    Amount,
    // twelve pieces are on the page
    PageFull,
    // there is no such piece
    NoSuchPiece,
    // there are no pieces
    NoPieces,
    // the width asked is 0 or above the breadth
    WidthAsked,
    // not all rows stand
    Unfinished,
    // no layout fits and has an amount
    NoLayout,
    // a place holds a code that no rule makes, a part of a code does not fit, or entries are those of no layout
    SpoiledCode,
    // the text so far begins no item
    WrongSign,
    // the text ends early
    TextEndsEarly,
    // the text goes on behind the item
    TextGoesOn,
    // a letter is not on the page, or stands there a second time
    WrongLetter,
    // the text lacks a piece of the page
    PieceMissing,
    // the file ends early
    FileEndsEarly,
    // a figure is out of range
    FigureOutOfRange,
    // the file goes on
    FileGoesOn,
}

// What a refusal is about.
#[derive(Clone, Copy, PartialEq, Eq, Debug)]
pub enum Layer {
    Page,
    Text,
    Order,
}

// A refusal, the place where it arose (0 where it has none), and the piece where there is one.
#[derive(Clone, Copy, PartialEq, Eq, Debug)]
pub struct Fault {
    pub refusal: Refusal,
    pub place: usize,
    pub piece: Option<u8>,
}
