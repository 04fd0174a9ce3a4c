// The trait of measures.
ghost use Rattle.std.specs.Prelude.{◌≡◌};
ghost use Rattle.measure.specs.Measures.{Functions, Laws};
ghost use Rattle.measure.specs.Measures.{better as is_better};

// What ranks layouts: amounts of one kind and four fixed functions on them, which keep two laws.
pub trait Measure {
    type Amount: Copy;

    // the four functions
    ghost functions: { Self → Functions Self.Amount };

    // Whether `a` is no worse than `b`.
    fn no_worse(&self, a: Self::Amount, b: Self::Amount) -> bool
        ensures { result ≡ (functions self.now).no_worse a b };

    // What a setting of this amount counts as a cell of a layout, if it may be one.
    fn cell(&self, a: Self::Amount) -> Option<Self::Amount>
        ensures { result ≡ (functions self.now).cell a };

    // The amount of two parts side by side, `a` on the left, if they may stand so.
    fn beside(&self, a: Self::Amount, b: Self::Amount) -> Option<Self::Amount>
        ensures { result ≡ (functions self.now).beside a b };

    // The amount of two parts one above the other, `a` on top, if they may stand so.
    fn above(&self, a: Self::Amount, b: Self::Amount) -> Option<Self::Amount>
        ensures { result ≡ (functions self.now).above a b };

    ghost lawful: { (m : Self) → Laws (functions m) };
}

// Whether `a` is better than `b`: no worse, but not the other way round.
pub fn better<M: Measure>(m: &M, a: M::Amount, b: M::Amount) -> bool
    ensures { result ≡ is_better (M.functions m.now) a b }
{
    m.no_worse(a, b) && !m.no_worse(b, a)
}
