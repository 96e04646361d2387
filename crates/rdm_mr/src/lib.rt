//! Registered memory: a block on the heap, cut into parts that are written side by side.
#![tactic(auto)]

mod block;
mod home;
mod ordered;
mod part;
mod run;
#[cfg(test)]
mod tests;
mod tiling;
pub mod uses;

pub use home::{Home, home_law};
pub use part::{Block, NoMemory, Part, release};
pub use tiling::tiling_law;
