//! The edits of a plan, each made on the tables within a transaction.
#![tactic(auto)]

mod edits;

pub use edits::make_edit;
