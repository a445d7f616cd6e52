//! The plan of one step of the file: its domains and windows, what of them is of which rank, and the device calls. Nothing is read
//! or written, and no value of a variable is asked for (Thakur, Gropp and Lusk, "Data Sieving and Collective I/O in ROMIO", 1999,
//! sections 4 and 5).
#![tactic(auto)]

mod asked;
mod domains;
mod meeting;
mod plan;
mod solo;

pub use meeting::{count_field, plan_meeting};
use nc_base::Items;
pub use plan::{Asked, Caller, DomainPlan, FilePlan, Phase, Planned, StepPlan, device_calls};
pub use solo::plan_solo;
pub use window_plan::{Owner, OwnerList, Share, ShareList, WindowList, WindowPlan};

/// In order of places.
pub type DomainList = Items<DomainPlan>;

/// In order of ranks.
pub type AskedList = Items<Asked>;

/// In order of ranks.
pub type CallerList = Items<Caller>;

/// In the order in which they are done.
pub type StepPlanList = Items<StepPlan>;
