//! What standard error says of a run, beside its text: what was wanted where a script is refused, why a disk failed, and what a run that
//! ended well passed over. A source, a sink and a disk keep what is needed for that, and are else those that they are given.
//!
//! Each note is told by the script, the text and the status of the run, and claims nothing: want of memory leaves it out.
#![tactic(auto)]

mod access;
mod cursor;
mod definition;
mod earlier;
mod ended;
mod explained;
mod fill;
mod header_fault;
mod header_walk;
mod heard_sink;
mod kept_source;
mod kinds;
mod layout_fault;
mod lines;
mod meetings;
mod opened_disk;
mod pending;
mod places;
mod redefinition;
mod replay;
mod shapes;
mod shortfall;
mod slot;
mod slots;
mod surplus;
mod table;
mod told;
mod values;
mod words;

pub use ended::Run;
pub use explained::explain;
pub use heard_sink::HeardSink;
pub use kept_source::KeptSource;
pub use opened_disk::OpenedDisk;
pub use pending::Pending;
