//! Tests of real_files.
#![tactic(auto)]

#[cfg(test)]
mod tests;
