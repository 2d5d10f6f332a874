//! When the rows of the tables of aliases and of routes are right, and which of them an edit of a project leaves right.
#![tactic(auto)]

mod laws;
mod renewals;

pub use laws::{
    host_renewed, put_is_bare, renewed_base, renewed_right, right_but_covered, right_but_nothing,
    right_but_still, sound_projects,
};
pub use renewals::{
    Renewal, is_seen_by_all, renewal_of, renewal_of_added, renewal_of_replaced, stays_covered,
};
