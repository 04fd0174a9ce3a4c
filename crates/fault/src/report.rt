// What a refusal and a fault say of themselves.
ghost use Rattle.std.specs.Prelude.{◌≡◌, Some};
ghost use Rattle.fault.specs.Faults.{number, layer, fault, fault_at, of_piece};
ghost use Rattle.fault.specs.Lines.{refusal_text, spaced};

use crate::refusal::{Fault, Layer, Refusal};
use std::error::Error;
use std::fmt;

// The number by which users know a refusal, 1 to 20.
impl From<Refusal> for u8 {
    ghost from_gives = { λ r n. n ≡ number r };

    fn from(refusal: Refusal) -> u8 {
        refusal as u8
    }
}

// A fault at no place and of no piece.
impl From<Refusal> for Fault {
    ghost from_gives = { λ r f. f ≡ fault r };

    fn from(refusal: Refusal) -> Fault {
        Fault::at(refusal, 0)
    }
}

impl Refusal {
    // What the refusal is about.
    pub fn layer(self) -> Layer
        ensures { result ≡ layer self }
    {
        match self {
            Refusal::WrongSign
            | Refusal::TextEndsEarly
            | Refusal::TextGoesOn
            | Refusal::WrongLetter
            | Refusal::PieceMissing => Layer::Text,
            Refusal::FileEndsEarly | Refusal::FigureOutOfRange | Refusal::FileGoesOn => {
                Layer::Order
            }
            _ => Layer::Page,
        }
    }
}

impl Fault {
    // A fault at a place, of no piece.
    pub fn at(refusal: Refusal, place: usize) -> Fault
        ensures { result ≡ fault_at refusal place }
    {
        Fault {
            refusal,
            place,
            piece: None,
        }
    }

    // The same fault, said of a piece.
    pub fn of_piece(self, piece: u8) -> Fault
        ensures { result ≡ of_piece piece self }
    {
        Fault {
            piece: Some(piece),
            ..self
        }
    }
}

// The layer's word between spaces.
pub(crate) fn spaced_word(layer: Layer) -> &'static str
    ensures { result.now ≡ spaced layer }
{
    match layer {
        Layer::Page => " page ",
        Layer::Text => " text ",
        Layer::Order => " order ",
    }
}

// `refused NUMBER LAYER PLACE`, with ` piece K` behind it where there is a piece.
impl fmt::Display for Fault {
    ghost output = { λ f. Some (refusal_text f) };

    fn fmt<W: fmt::Write>(&self, f: &mut fmt::Formatter<W>) -> fmt::Result {
        let number = u8::from(self.refusal);
        let layer = spaced_word(self.refusal.layer());
        let place = self.place;
        write!(f, "refused {number}{layer}{place}")?;
        match self.piece {
            Some(piece) => write!(f, " piece {piece}"),
            None => Ok(()),
        }
    }
}

impl Error for Fault {}
