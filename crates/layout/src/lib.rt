// Layouts: their entries, compared and told in a line; sets of pieces; and the codes that places of a table hold.
#![tactic(auto)]

pub mod code;
pub mod codes;
pub mod entry;
pub mod kinds;
pub mod layouts;
pub mod likeness;
pub mod lines;
mod reading;
pub mod sets;
mod writing;

pub use code::{Code, CodeKind};
pub use codes::codes_round_trip;
pub use entry::{Cut, Entry, Kind};
pub use layouts::{best_is_no_worse, one_layout};
pub use likeness::alike;
pub use lines::{layout_line, none_line};
pub use sets::sets_are_numbers;
