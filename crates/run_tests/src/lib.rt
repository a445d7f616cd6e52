//! Tests of a run's two sides by themselves, of a run in turn, and of the reference that runs are compared with.
#![tactic(auto)]

#[cfg(test)]
mod tests;
