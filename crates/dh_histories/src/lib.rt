//! Whole histories: what a list of calls leaves and answers, and what of a history a caller can never tell.
#![tactic(auto)]

pub mod call;
mod laws;

pub use call::Call;
pub use laws::{done_is_run, purge_law, runs_answer_for_good};
