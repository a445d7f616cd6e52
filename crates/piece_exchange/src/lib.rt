//! Collective puts and gets on a disk in parts. Each part is served by an aggregator, a helper thread that stays for the whole run. The
//! pieces of the puts go to it over a line, and the hulls that it reads for the gets come from it over one. (Thakur, Gropp and Lusk, "Data
//! Sieving and Collective I/O in ROMIO", 1999, section 5; threads and lines are our choice)
#![tactic(auto)]

mod crew;

pub use crew::{Crew, Reached};
pub use exchange_crew::{GetPlan, PutPlan, SharedJob, Tools};
pub use get_exchange::exchange_get;
pub use put_exchange::exchange_put;
