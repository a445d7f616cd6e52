//! The reference that a run is compared with, element by element: one step of the file, the end of a run whose steps are done one after
//! another in a given order, and whether an order of the steps is one of a script's histories.
//!
//! It is a second way to what the contracts of a run say, for who wants to compare the two. It knows no extents, windows, pieces or
//! threads. The file is one list of bytes in memory, each element is read or written at its place, and bytes that two requests hold are
//! looked for byte by byte, in a time that grows with the square of their number. So it is for small datasets.
#![tactic(auto)]

mod bytes;
mod elements;
mod end;
mod history;
mod meetings;
mod pairs;
mod puts;
mod runners;
mod serial;
mod stand;
mod steps;

pub use elements::{bytes_of, get, put};
pub use end::SerialEnd;
pub use history::legal;
pub use meetings::meeting;
pub use pairs::shared_pair;
pub use puts::{after_puts, needed_by, told};
pub use serial::serial_run;
pub use steps::{puts_of, raise, solo};
