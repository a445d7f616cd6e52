//! Tests of the crates that read, print and make texts.
#![tactic(auto)]

#[cfg(test)]
mod tests;
