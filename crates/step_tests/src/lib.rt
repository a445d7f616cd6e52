//! Tests of collective_round, and through it of what it stands on; and of overlap_report.
#![tactic(auto)]

#[cfg(test)]
mod tests;
