// Layers over any measure; they pile up freely.
ghost use Rattle.measure.specs.Products.{gutter, ceiling, kept};
ghost use Rattle.std.specs.Prelude.{◌≡◌};
ghost use Rattle.measure.specs.Piled.{gutter_laws, ceiling_laws};

use crate::ranking::Measure;

// A measure over another one, whose amounts it has.
pub trait Layered: Measure<Amount = <Self::Lower as Measure>::Amount> {
    type Lower: Measure;

    // the measure below
    ghost lower: { Self → Self.Lower };

    // The measure below.
    fn lower(&self) -> &Self::Lower
        ensures { result.now ≡ lower self.now };
}

// A measure whose parts above each other have a gap between them, of one fixed amount.
#[derive(Drop)]
pub struct Gutter<M: Measure> {
    pub lower: M,
    pub gap: M::Amount,
}

impl<M: Measure> Measure for Gutter<M> {
    type Amount = M::Amount;

    ghost functions = { λ m. gutter (M.Measure.functions m.lower) m.gap };

    ghost lawful = { λ m. gutter_laws _ (M.Measure.lawful m.lower) m.gap };

    // one call, here and in the other layer: a trait that had it for both would have to have the other three methods too
    fn no_worse(&self, a: M::Amount, b: M::Amount) -> bool {
        self.lower.no_worse(a, b)
    }

    fn cell(&self, a: M::Amount) -> Option<M::Amount> {
        self.lower.cell(a)
    }

    fn beside(&self, a: M::Amount, b: M::Amount) -> Option<M::Amount> {
        self.lower.beside(a, b)
    }

    fn above(&self, a: M::Amount, b: M::Amount) -> Option<M::Amount> {
        let spaced = self.lower.above(a, self.gap)?;
        self.lower.above(spaced, b)
    }
}

impl<M: Measure> Layered for Gutter<M> {
    type Lower = M;

    ghost lower = { λ m. m.lower };

    fn lower(&self) -> &M {
        &self.lower
    }
}

// A measure that gives nothing worse than one fixed amount.
#[derive(Drop)]
pub struct Ceiling<M: Measure> {
    pub lower: M,
    pub limit: M::Amount,
}

impl<M: Measure> Ceiling<M> {
    // The amount where it is no worse than the limit.
    fn within(&self, found: Option<M::Amount>) -> Option<M::Amount>
        ensures { result ≡ kept (M.Measure.functions self.now.lower) self.now.limit found }
    {
        found.filter(|a| self.lower.no_worse(*a, self.limit))
    }
}

impl<M: Measure> Measure for Ceiling<M> {
    type Amount = M::Amount;

    ghost functions = { λ m. ceiling (M.Measure.functions m.lower) m.limit };

    ghost lawful = { λ m. ceiling_laws _ (M.Measure.lawful m.lower) m.limit };

    // one call, here and in the other layer: a trait that had it for both would have to have the other three methods too
    fn no_worse(&self, a: M::Amount, b: M::Amount) -> bool {
        self.lower.no_worse(a, b)
    }

    fn cell(&self, a: M::Amount) -> Option<M::Amount> {
        self.within(self.lower.cell(a))
    }

    fn beside(&self, a: M::Amount, b: M::Amount) -> Option<M::Amount> {
        self.within(self.lower.beside(a, b))
    }

    fn above(&self, a: M::Amount, b: M::Amount) -> Option<M::Amount> {
        self.within(self.lower.above(a, b))
    }
}

impl<M: Measure> Layered for Ceiling<M> {
    type Lower = M;

    ghost lower = { λ m. m.lower };

    fn lower(&self) -> &M {
        &self.lower
    }
}
