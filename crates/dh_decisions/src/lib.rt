//! Commands decided: which edits of its project each asks for, or why it is refused.
//!
//! `decide` makes a plan for a checked command from what was found of its project; `open` decides where the
//! host has no project. Both are pure: to look up, and to make the edits of a plan, is the work of a store.
//! Pushes, and so the rules that a pushed branch or tag meets, are decided in `dh_pushes`.
#![tactic(auto)]

mod decision;
mod defaults;
mod lists;
mod passes;
mod projects;
mod properties;
mod redirects;
mod rules;
mod uploads;
mod versions;

pub use decision::decide;
pub use projects::open;
