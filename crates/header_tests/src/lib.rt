//! Tests of type_external, var_layout and cdf_header.
#![tactic(auto)]

#[cfg(test)]
mod tests;
