//! What comes before the ranks begin: the script is taken from its source, and its dataset is created and laid out, or opened and
//! redefined. An early end says why.
#![tactic(auto)]

mod existing;
mod fresh;
mod redefined;
mod script;
mod start;
mod stop;
mod streams;

pub use existing::read_header;
pub use script::take_script;
pub use start::{Ready, begin, laid_out, make_ready};
pub use stop::Stop;
pub use streams::{TakeErr, give_all};
