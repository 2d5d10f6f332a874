//! Replies that are kept for whoever asks the same next: each for its host, a class of callers, a path and a query.
#![tactic(auto)]

mod copies;
pub mod key;
pub mod replies;

pub use copies::copied;
pub use key::Key;
pub use replies::{MOST_KEPT_BYTES, MOST_REPLIES, Replies};
