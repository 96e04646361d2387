//! Work to be timed from outside: a part of an endpoint, or what std has for the like of it. The words are
//! what is done, how often, and for `bins` how many receives are posted ahead.
#![tactic(auto)]

mod hearing;
mod landing;
mod matching;
mod owing;
mod sending;

use rdm_num::NoMemory;
use std::alloc::Global;
use std::{env, io};

/// What is timed: a part of an endpoint, after its equal in std.
#[derive(Clone, Copy)]
enum Work {
    Hash,
    Bins,
    Set,
    Window,
    Copy,
    Send,
    Write,
    Land,
    Queue,
    Owed,
}

fn main(rt: HostRuntime) -> io::Result<()> {
    let words = env::args(&rt)?.skip(1).collect::<Vec<String>>(rt.alloc())?;
    let count = number_at(words.as_slice(), 1);
    let ahead = number_at(words.as_slice(), 2);
    let done = match words.first().and_then(|word| work_of(word.as_str())) {
        Some(work) => done(rt.alloc(), work, count, ahead)?,
        None => 0,
    };
    println!(rt; "{done}")
}

/// The work that a word names.
fn work_of(word: &str) -> Option<Work> {
    match word {
        "hash" => Some(Work::Hash),
        "bins" => Some(Work::Bins),
        "set" => Some(Work::Set),
        "window" => Some(Work::Window),
        "copy" => Some(Work::Copy),
        "send" => Some(Work::Send),
        "write" => Some(Work::Write),
        "land" => Some(Work::Land),
        "queue" => Some(Work::Queue),
        "owed" => Some(Work::Owed),
        _ => None,
    }
}

/// The number that a word spells, or 0.
fn number_at(words: &[String], at: usize) -> u64 {
    let Some(word) = words.get(at) else {
        return 0;
    };
    word.parse::<u64>().unwrap_or(0)
}

/// Does the work so often, and gives a number that shows that it was done.
fn done(alloc: Global, work: Work, count: u64, ahead: u64) -> Result<u64, NoMemory> {
    match work {
        Work::Hash => matching::inserts(alloc, count),
        Work::Bins => matching::meetings(alloc, count, ahead),
        Work::Set => hearing::inserts(alloc, count),
        Work::Window => hearing::heard(alloc, count),
        Work::Copy => sending::copies(alloc, count),
        Work::Send => sending::sends(alloc, count),
        Work::Write => landing::writes(alloc, count),
        Work::Land => landing::landings(alloc, count),
        Work::Queue => owing::queued(alloc, count),
        Work::Owed => owing::owed(alloc, count),
    }
}

/// So many bytes, each 1.
fn ones(alloc: Global, len: usize) -> Result<Vec<u8>, NoMemory> {
    vec![in alloc; 1; len]
}
