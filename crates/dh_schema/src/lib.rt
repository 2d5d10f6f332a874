//! Our tables over any store: their columns, how they are made, and one statement on them.
#![tactic(auto)]

mod making;
mod query;

pub use making::{can_add, can_make, make_at_once, make_derived, make_tables};
pub use query::{all_records, first_record};
