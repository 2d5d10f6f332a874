//! Making stored rows of a host right, on the tables: which rows an edit leaves to be made right, and how they are made so.
#![tactic(auto)]

mod by_key;
mod checking;
mod filling;
mod finding;
mod looks;
mod names;
mod renewing;
mod routes;
mod setting;
mod stable;
mod standing;

pub use dh_derived::Renewal;
pub use filling::derive;
pub use finding::renewal_for;
pub use renewing::{renew, renew_host};
