//! Writes a report as text.
#![tactic(auto)]

mod answer;
mod completion;
mod entry;
mod push;
mod report;
mod shown;
mod words;

pub use report::text;
