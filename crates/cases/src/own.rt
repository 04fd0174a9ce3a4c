// A measure and a layer as a user would bring them, both filed.
ghost use Rattle.std.specs.Prelude.{min, max, nat_le, Some};
ghost use Rattle.std.proofs.Common.{rules};
ghost use Rattle.measure.specs.Filing.{depth_filing};

use fault::{Fault, Writer};
use measure::{Depth, Filed, Layered, Measure};

// Parts above each other count as the lesser of them. Its amounts are filed and written as lines are.
#[derive(Clone, Copy)]
pub(crate) struct Least;

impl Measure for Least {
    type Amount = u16;

    ghost functions = { λ _. record { no_worse = nat_le; cell = λ a. Some a; beside = λ a b. Some (max a b); above = λ a b. Some (min a b) } };

    ghost lawful = { Prim.search rules };

    fn no_worse(&self, a: u16, b: u16) -> bool {
        a <= b
    }

    fn cell(&self, a: u16) -> Option<u16> {
        Some(a)
    }

    fn beside(&self, a: u16, b: u16) -> Option<u16> {
        Some(a.max(b))
    }

    fn above(&self, a: u16, b: u16) -> Option<u16> {
        Some(a.min(b))
    }
}

impl Filed for Least {
    ghost filing = { λ _. depth_filing };

    fn amount(&self, marks: u16, depth: u16) -> u16 {
        Depth.amount(marks, depth)
    }

    fn write(&self, a: u16, out: &mut Writer<'_>) -> Result<(), Fault> {
        Depth.write(a, out)
    }
}

// A layer that changes nothing of the measure below. What is filed comes through it from there.
#[derive(Drop)]
pub(crate) struct Same<M: Measure> {
    pub lower: M,
}

impl<M: Measure> Measure for Same<M> {
    type Amount = M::Amount;

    ghost functions = { λ m. M.Measure.functions m.lower };

    ghost lawful = { λ m. M.Measure.lawful m.lower };

    fn no_worse(&self, a: M::Amount, b: M::Amount) -> bool {
        self.lower.no_worse(a, b)
    }

    fn cell(&self, a: M::Amount) -> Option<M::Amount> {
        self.lower.cell(a)
    }

    fn beside(&self, a: M::Amount, b: M::Amount) -> Option<M::Amount> {
        self.lower.beside(a, b)
    }

    fn above(&self, a: M::Amount, b: M::Amount) -> Option<M::Amount> {
        self.lower.above(a, b)
    }
}

impl<M: Measure> Layered for Same<M> {
    type Lower = M;

    ghost lower = { λ m. m.lower };

    fn lower(&self) -> &M {
        &self.lower
    }
}
