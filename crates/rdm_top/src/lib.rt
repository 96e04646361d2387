//! Reads a script, plays its job and gives the report, with each fault's cause.
#![tactic(auto)]

mod reading;
mod status;
mod top;
mod writing;

pub use reading::{ReadError, read_all};
pub use status::Status;
pub use top::job;
pub use writing::write_all;
