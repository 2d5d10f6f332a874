//! Trials of the server, over sockets of the loopback.
#![tactic(auto)]

#[cfg(test)]
mod tests;
