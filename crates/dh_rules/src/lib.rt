//! Automation rules: what a project's rules do with a new version.
#![tactic(auto)]

pub mod applied;
pub mod fault;
mod laws;
pub mod pattern;
pub mod rule;

pub use applied::apply;
pub use fault::{CheckFault, RuleFault};
pub use laws::{patterns_differ_in_text, patterns_match};
pub use pattern::Pattern;
pub use rule::{Action, Fresh, Rule};
