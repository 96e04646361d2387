//! Where bytes come from and go to, with counted faults: in memory, and over std's readers and
//! writers.
#![tactic(auto)]

mod mem_sink;
mod mem_source;
mod std_sink;
mod std_source;
mod stream;
#[cfg(test)]
mod tests;

pub use mem_sink::MemSink;
pub use mem_source::MemSource;
pub use std_sink::StdSink;
pub use std_source::StdSource;
pub use stream::{Failed, NoMemory, Sink, Source};
