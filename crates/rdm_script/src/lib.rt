//! Reads a job script.
#![tactic(auto)]

mod choices;
mod content;
mod draft;
mod fields;
mod instruction;
mod laws;
mod played;
mod program;
mod ranges;
mod ranks;
mod script;
mod totals;

pub use laws::read_jobs;
pub use rdm_json::{BadScript, FieldName, Place, Reason, ScriptRefused};
pub use script::job_of;
