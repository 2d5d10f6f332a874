//! What a caller sees of the tables.
#![tactic(auto)]

pub mod view;

pub use view::{View, doubt_is_of_the_store};
