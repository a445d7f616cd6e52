//! Tests of nc_base.
#![tactic(auto)]

#[cfg(test)]
mod tests;
