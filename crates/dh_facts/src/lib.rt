//! What a command has to know of the project of its host, looked up in the tables.
#![tactic(auto)]

mod looks;

pub use looks::look;
