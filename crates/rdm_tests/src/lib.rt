//! Tests of the public calls of crates whose own proof takes long: here it isn't repeated for them.
#![tactic(auto)]

#[cfg(test)]
mod asks;
#[cfg(test)]
mod endpoint;
#[cfg(test)]
mod generate;
#[cfg(test)]
mod granted;
#[cfg(test)]
mod headers;
#[cfg(test)]
mod jobs;
#[cfg(test)]
mod openings;
#[cfg(test)]
mod packets;
#[cfg(test)]
mod report;
#[cfg(test)]
mod script;
