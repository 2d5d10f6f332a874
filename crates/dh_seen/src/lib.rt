//! A project as its caller sees it: the data that replies are made from.
#![tactic(auto)]

pub mod found;
pub mod items;
pub mod seen_project;

pub use found::{Named, Page};
pub use items::Items;
pub use seen_project::{SeenProject, StoredPage};
