//! Requests from sources of our own; nothing else stands here.
#![tactic(auto)]

#[cfg(test)]
mod tests;
