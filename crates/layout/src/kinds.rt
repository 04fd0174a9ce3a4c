// What kinds and cuts say of themselves.
ghost use Rattle.std.specs.Prelude.{◌≡◌};
ghost use Rattle.layout.specs.Entries.{kind_number, cut_of};
ghost use Rattle.layout.specs.Texts.{opening, closing};

use crate::entry::{Cut, Kind};

// The number by which users know a kind: 0 cell, 1 above, 2 beside.
impl From<Kind> for u8 {
    ghost from_gives = { λ kind n. n ≡ kind_number kind };

    fn from(kind: Kind) -> u8 {
        match kind {
            Kind::Cell => 0,
            Kind::Cut(Cut::Above) => 1,
            Kind::Cut(Cut::Beside) => 2,
        }
    }
}

impl Kind {
    // The cut that it is, if it is one.
    pub fn cut(self) -> Option<Cut>
        ensures { result ≡ cut_of self }
    {
        match self {
            Kind::Cell => None,
            Kind::Cut(cut) => Some(cut),
        }
    }
}

impl Cut {
    // The sign before the two parts.
    pub fn opening(self) -> u8
        ensures { result ≡ opening self }
    {
        match self {
            Cut::Above => b'[',
            Cut::Beside => b'(',
        }
    }

    // The sign behind them.
    pub fn closing(self) -> u8
        ensures { result ≡ closing self }
    {
        match self {
            Cut::Above => b']',
            Cut::Beside => b')',
        }
    }
}
