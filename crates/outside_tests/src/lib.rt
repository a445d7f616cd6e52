//! Tests of nc_outside, ruled_line and run_watch.
#![tactic(auto)]

#[cfg(test)]
mod tests;
