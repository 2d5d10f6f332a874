//! The JSON bodies of POST: which change a body asks for. Nothing here knows HTTP.
#![tactic(auto)]

pub mod change;
mod field;
mod laws;
mod leaf;
mod page;
pub mod post;
mod unread;

pub use change::read_change;
pub use laws::{base64_is_exact, last_value_counts};
pub use post::Post;
