// Measures whose amounts are filed in an order and written in decimal.
ghost use Rattle.std.specs.Prelude.{◌≡◌};
ghost use Rattle.fault.specs.WrittenBy.{WrittenBy};
ghost use Rattle.measure.specs.Filing.{Filing, depth_filing, marked_filing};

use crate::layers::Layered;
use crate::ranking::Measure;
use crate::simple::{Depth, Marked, MarkedDepth};
use fault::{Fault, Writer};

// The most bytes that a written amount takes.
pub const AMOUNT_ROOM: usize = 16;

// A measure whose amounts can be filed and written.
pub trait Filed: Measure {
    // the amount of a filed pair, and the text of an amount
    ghost filing: { Self → Filing Self.Amount };

    // The amount of a filed pair.
    fn amount(&self, marks: u16, depth: u16) -> Self::Amount
        ensures { result ≡ (filing self.now).amount marks depth };

    // Writes the amount in decimal. Where fewer than 16 bytes lie from the writer's place on, it is refused for want of memory, and
    // nothing is written.
    fn write(&self, a: Self::Amount, out: &mut Writer<'_>) -> Result<(), Fault>
        ensures { WrittenBy 16 ((filing self.now).text a) out.old out.new result };
}

// Layers hand both down.
impl<L: Layered> Filed for L
where
    L::Lower: Filed,
{
    ghost filing = { λ l. L.Lower.filing (L.Layered.lower l) };

    fn amount(&self, marks: u16, depth: u16) -> L::Amount {
        self.lower().amount(marks, depth)
    }

    fn write(&self, a: L::Amount, out: &mut Writer<'_>) -> Result<(), Fault> {
        self.lower().write(a, out)
    }
}

impl Filed for Depth {
    ghost filing = { λ _. depth_filing };

    fn amount(&self, _marks: u16, depth: u16) -> u16 {
        depth
    }

    // not by `write!`, which never promises that it succeeds
    fn write(&self, a: u16, out: &mut Writer<'_>) -> Result<(), Fault> {
        out.wants(AMOUNT_ROOM)?;
        out.labelled("", u64::from(a))
    }
}

impl Filed for Marked {
    ghost filing = { λ _. marked_filing };

    fn amount(&self, marks: u16, depth: u16) -> MarkedDepth {
        MarkedDepth { marks, depth }
    }

    // nor is this
    fn write(&self, a: MarkedDepth, out: &mut Writer<'_>) -> Result<(), Fault> {
        out.wants(AMOUNT_ROOM)?;
        out.labelled("", u64::from(a.marks))?;
        out.labelled("+", u64::from(a.depth))
    }
}
