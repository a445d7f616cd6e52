//! Tests that the program, the serial run and worked values agree.
#![tactic(auto)]

#[cfg(test)]
mod tests;
