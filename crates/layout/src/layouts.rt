// What holds of layouts and their entries.
ghost use Rattle.layout.specs.Entries.{OneLayout};
ghost use Rattle.layout.specs.Layouts.{BestIsNoWorse};

use measure::Measure;

// The entries of a layout determine it.
pub fn one_layout()
    ensures { OneLayout }
{}

// A layout that no other betters is no worse than every other.
pub fn best_is_no_worse<M: Measure>(_m: &M)
    ensures { BestIsNoWorse (M.functions _m.now) }
{}
