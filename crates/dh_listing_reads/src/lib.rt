//! List words, read from the tables: what a word lists, as the text that it prints; and the same of all that a caller sees, of
//! whatever shows it.
#![tactic(auto)]

mod inventory;
mod lists;
mod passes;
mod seen;
mod texts;

pub use inventory::Inventory;
pub use lists::{list_named, list_projects};
pub use seen::seen_text;
