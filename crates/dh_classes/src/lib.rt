//! Classes of callers: the live pass that a caller shows decides what he sees and which replies he gets.
#![tactic(auto)]

mod laws;

pub use laws::{class_decides, class_replies, class_stays};
