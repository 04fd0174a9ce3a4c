// Refusals and the one fault type of every crate, text and numbers written into lent memory, and the line of a refusal.
#![tactic(auto)]

pub mod lines;
pub mod memory;
pub mod numbers;
pub mod refusal;
pub mod report;
pub mod writer;
pub mod writing;

pub use lines::{LINE_ROOM, refusal_line};
pub use memory::{has_room, want_room, write_over};
pub use numbers::write_labelled;
pub use refusal::{Fault, Layer, Refusal};
pub use writer::Writer;
