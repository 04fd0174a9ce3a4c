// The order file: what it is, its check, its pieces put on a page, and the line that says what stands there.
#![tactic(auto)]

pub mod checking;
pub mod filling;
pub mod head;
pub mod headings;
mod reader;
mod reading;

pub use checking::{check, one_outcome, one_reading};
pub use filling::{SCRATCH_PLACES, fill};
pub use head::Figures;
pub use headings::heading_line;
