// A page: its record, the calls that open it, put pieces on it, amend and lift them, and the laws of what they make.
#![tactic(auto)]

pub mod laws;
pub mod record;
pub mod settings;
pub mod tables;

pub use record::Page;
pub use settings::Settings;
pub use tables::{TABLE_PLACES, Tables};
