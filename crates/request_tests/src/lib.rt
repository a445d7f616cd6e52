//! Tests of vara_extents, imap_extents and request_queue.
#![tactic(auto)]

#[cfg(test)]
mod tests;
