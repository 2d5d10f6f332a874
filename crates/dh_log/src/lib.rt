//! The log of a server: the text of a line, what of a request or an order may stand in it, and the writer, which counts the lines
//! that were lost.
#![tactic(auto)]

mod entries;
mod entry;
mod head;
mod laws;
mod leveled;
mod log;
mod subject;

pub use entries::Answered;
pub use entry::{About, Entry, Level, Measured, Word};
pub use laws::texts_are_visible;
pub use leveled::Leveled;
pub use log::{Log, Missed};
pub use subject::{Note, Ordered, Subject, order_subject};
