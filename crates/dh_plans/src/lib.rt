//! What commands ask of their project, what is found of it, and the plans that are made of that: edits of the project, and an
//! answer.
#![tactic(auto)]

mod asking;
mod edits;
mod facts;
mod names;
mod plan;
mod questions;

pub use asking::questions_of;
pub use edits::{Edit, RetryAnswer};
pub use facts::{Facts, take_list};
pub use names::{is_alias, names_but, with_first};
pub use plan::Plan;
pub use questions::{Questions, RetryKey, is_write_key};
