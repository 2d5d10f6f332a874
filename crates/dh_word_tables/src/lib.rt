//! Commands of `clap` put together, and what their forms match. Nothing here knows which commands the program has.
#![tactic(auto)]

mod building;

pub use building::Syntax;
