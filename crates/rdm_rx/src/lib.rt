//! What a matched receive asks for, grants and ends with. Nothing here takes memory or is refused.
#![tactic(auto)]

mod asks;
mod ends;
mod grants;
mod laws;
mod receiving;
#[cfg(test)]
mod tests;

pub use asks::Asks;
pub use ends::end;
pub use grants::{grant, next_window};
pub use laws::receiving_law;
pub use receiving::Receiving;
