//! Lists of redirects in CSV.
#![tactic(auto)]

mod lists;

pub use lists::{ListFault, RecordFault, read_list};
