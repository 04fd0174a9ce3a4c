// What holds of every page that the calls made, whatever the measure.
ghost use Rattle.page.specs.Rules.{PagesObey, OpenStarts, LiftKeeps};

use measure::Measure;

// Every page that the calls made obeys the rules of pieces.
pub fn pages_obey<M: Measure>(_m: &M)
    ensures { PagesObey (M.functions _m.now) }
{}

// An accepted open starts a run of calls, and a refused one leaves all as it was, whatever tables stand beside the record.
pub fn open_starts<M: Measure>(_m: &M)
    ensures { OpenStarts (M.functions _m.now) }
{}

// A lift leaves all pieces but the last, and a run of calls goes on, whatever tables stand beside the record.
pub fn lift_keeps<M: Measure>(_m: &M)
    ensures { LiftKeeps (M.functions _m.now) }
{}
