//! The owner of the file in a run with threads: it does what the ranks put, one step after another, and puts a reply or a stop for each
//! offer. What the ranks are it doesn't know; it tests what arrives.
#![tactic(auto)]

mod lent;
mod owner;
mod service;
mod steps;
mod stops;
mod strange;

pub use service::serve;
