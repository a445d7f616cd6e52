//! Tests of ncmpi_cli.
#![tactic(auto)]

#[cfg(test)]
mod tests;
