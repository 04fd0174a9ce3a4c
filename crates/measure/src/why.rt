// Why marks rank before depth, and why too many marks give nothing.
ghost use Rattle.measure.specs.Why.{DepthFirstBreaks, StoppingBreaks};

// Ranking by depth first breaks the second law.
pub fn depth_first_breaks()
    ensures { DepthFirstBreaks }
{}

// Stopping the marks at 9,999, in place of giving nothing, breaks the second law.
pub fn stopping_breaks()
    ensures { StoppingBreaks }
{}
