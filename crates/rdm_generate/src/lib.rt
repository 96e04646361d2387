//! Writes the script of a job that is made from a seed.
#![tactic(auto)]

mod draws;
mod instructions;
mod program;
mod script;

pub use script::script_of;
