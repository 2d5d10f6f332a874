//! Ports: where bytes come from, and where they go to.

pub use dh_ports::{Failed, Port, Sink, Source, put_all};
