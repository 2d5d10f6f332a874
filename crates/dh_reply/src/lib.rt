//! Makes the reply to a read, over any lookup; re-exports lookups, replies, their bytes, and the ports for bytes.
#![tactic(auto)]

mod address;
mod listing;
pub mod lookup;
mod make;
pub mod ports;
mod redirects;
mod respond;
mod robots;
pub mod seen;
mod system;

pub use dh_seen::{Items, Named, Page, SeenProject, StoredPage};
pub use dh_wire::{
    Allow, Read, Reply, fault_reply, head_bytes, reply_bytes, text_reply, unavailable_bytes,
};
pub use lookup::Lookup;
pub use respond::reply;
pub use seen::{Seen, first_result};
