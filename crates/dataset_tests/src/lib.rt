//! Tests of fill_records and redef_mover.
#![tactic(auto)]

#[cfg(test)]
mod tests;
