//! Converts tables of schema 1, whose passes have no end, to tables of schema 2, where each pass has an end or none.
#![tactic(auto)]

pub mod old_pass;
mod steps;

pub use old_pass::{OldPassRow, without_ends};
pub use steps::{can_convert, convert};
