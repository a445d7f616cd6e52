// What an exchange is lent.
use crate::shared_job::SharedJob;
use nc_base::{Extent, ExtentList, Hints, OwnedList};
use std::alloc::Global;

/// What the puts of a collective step come to. All aggregators are lent it.
#[derive(Clone, Copy, Drop)]
pub struct PutPlan<'a> {
    /// The entries of the puts, sorted by place.
    pub list: &'a OwnedList,
    /// The cover of the entries.
    pub cover: &'a ExtentList,
    /// The puts, one batch for each rank.
    pub job: &'a SharedJob,
    pub hints: &'a Hints,
}

/// What the gets of a collective step come to. All aggregators are lent it.
#[derive(Clone, Copy, Drop)]
pub struct GetPlan<'a> {
    /// The entries of the gets, sorted by place.
    pub list: &'a OwnedList,
    /// The cover of the entries.
    pub cover: &'a ExtentList,
    pub hints: &'a Hints,
}

/// An aggregator by its number, and the bytes of the file that it serves.
#[derive(Clone, Copy, Debug, PartialEq, Eq)]
pub struct Aggregator {
    pub number: u32,
    pub domain: Extent,
}

/// What an exchange is done with. All aggregators are lent it.
#[derive(Drop)]
pub struct Tools<'a, R, G> {
    /// Starts threads, and waits for them.
    pub rt: &'a R,
    /// Lists, lines and buffers come from it.
    pub alloc: Global,
    /// Each aggregator passes it before each of its windows.
    pub gate: &'a G,
}

/// Who does an exchange: its tools, and the helpers of the step, by their numbers, each by the line of its jobs.
#[derive(Drop)]
pub struct Team<'a, R, G, L> {
    pub tools: &'a Tools<'a, R, G>,
    pub helpers: &'a [L],
}
