// Measures: what ranks layouts. Amounts of one kind, four functions on them, and two laws.
#![tactic(auto)]

pub mod filing;
pub mod layers;
pub mod ranking;
pub mod simple;
pub mod why;

pub use filing::Filed;
pub use layers::{Ceiling, Gutter, Layered};
pub use ranking::{Measure, better};
pub use simple::{Depth, Marked, MarkedDepth};
