//! What pushes decide.
#![tactic(auto)]

mod pushes;

pub use pushes::push;
