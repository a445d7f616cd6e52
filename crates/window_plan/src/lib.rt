//! The windows of a step as they are planned: what is read or written at once, and whose bytes these are. Nothing is read or written
//! (Thakur, Gropp and Lusk, "Data Sieving and Collective I/O in ROMIO", 1999, sections 4 and 5).
#![tactic(auto)]

mod calls;
mod domain;
mod lists;
mod owners;
mod plan;
mod shares;
mod sieving;

pub use calls::{push_loads, push_stores};
pub use domain::domain_plans;
pub use lists::fitted;
use nc_base::Items;
pub use plan::{Owner, Share, WindowPlan};
pub use shares::shares_of;
pub use sieving::sieved_plans;

/// In order of ranks.
pub type ShareList = Items<Share>;

/// In the order of the entries.
pub type OwnerList = Items<Owner>;

/// In order of places.
pub type WindowList = Items<WindowPlan>;
