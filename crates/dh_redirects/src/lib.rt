//! Redirects of a documentation host: which are accepted, and where each leads.
#![tactic(auto)]

mod files;
mod fill;
mod laws;
mod old;
pub mod query;
pub mod redirect;
pub mod result;
mod texts;

pub use laws::to_is_filled_from_the_left;
pub use old::from_old;
pub use query::with_query;
pub use redirect::{Asked, BadRedirect, Location, Parts, Redirect, RedirectKind, read_status};
