//! Tests of the tables alone: what is ours when it is opened, and calls that no input of the program makes.
#![tactic(auto)]

#[cfg(test)]
mod tests;
