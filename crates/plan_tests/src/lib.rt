//! Tests of plans: the device calls of worked runs, and the sums of one plan.
#![tactic(auto)]

#[cfg(test)]
mod tests;
