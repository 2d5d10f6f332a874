//! Tests of what no input of the program shows of the crates below the desk; nothing else stands here.
#![tactic(auto)]

#[cfg(test)]
mod tests;
