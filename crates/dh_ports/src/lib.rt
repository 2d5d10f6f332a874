//! Ports: where bytes come from, where they go to, how they are read within bounds, and why a call gives nothing.
#![tactic(auto)]

mod fault;
mod intake;
mod port;
mod sink;
mod source;
mod stop;

pub use fault::{Fault, Found};
pub use intake::{Intake, MOST_READS, READ_SIZE};
pub use port::Port;
pub use sink::{Sink, put_all, put_both};
pub use source::{Failed, Source};
pub use stop::Stop;
