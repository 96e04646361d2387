//! A message of 16 MiB that comes in segments of 8,192 bytes, in a scattered order.
ghost use Rattle.std.specs.Prelude.{◌≤◌, ◌+◌};
ghost use Rattle.rdm_mr.specs.Part.{Whole};
ghost use Rattle.rdm_land.specs.Landed.{Keeps};

use crate::ones;
use rdm_land::{Landing, Placed};
use rdm_mr::{Block, Part, release};
use rdm_num::NoMemory;
use std::alloc::Global;

const SEGMENT: usize = 8_192;

/// How many segments the message has.
const SEGMENTS: usize = 2_048;

/// How many bytes the message has.
const MESSAGE: usize = 16_777_216;

/// Where the segment begins that comes at that turn. The factor is odd, so each has one turn of a message.
fn start_at(turn: usize) -> usize
    ensures { result + 8192 ≤ 16777216 }
{
    turn.wrapping_mul(1_269) % SEGMENTS * SEGMENT
}

/// Writes the message so often over the same memory. Gives how many segments were written.
pub fn writes(alloc: Global, count: u64) -> Result<u64, NoMemory> {
    let segment = ones(alloc, SEGMENT)?;
    let mut to = ones(alloc, MESSAGE)?;
    let mut written = 0u64;
    for _message in 0..count {
        written = written.saturating_add(write(&mut to, &segment));
    }
    Ok(written)
}

/// Writes each segment in its place, where all have room. Gives how many were written.
fn write(to: &mut [u8], segment: &[u8]) -> u64 {
    let mut written = 0u64;
    if to.len() != MESSAGE || segment.len() != SEGMENT {
        return written;
    }
    for turn in 0..SEGMENTS {
        let start = start_at(turn);
        to[start..start + SEGMENT].copy_from_slice(segment);
        written = written.saturating_add(u64::from(to[start]));
    }
    written
}

/// Lets the message land so often, each time in the same memory. Gives how many segments were placed.
pub fn landings(alloc: Global, count: u64) -> Result<u64, NoMemory> {
    let segment = ones(alloc, SEGMENT)?;
    let before = ones(alloc, MESSAGE)?;
    let mut part = Block::make(alloc, &before)?;
    let mut placed = 0u64;
    for _message in 0..count {
        let (back, more) = land(alloc, part, &segment);
        part = back;
        placed = placed.saturating_add(more);
    }
    release(part);
    Ok(placed)
}

/// Lets a message land in a block, and gives how many segments were placed. Where memory is wanting they
/// are none.
fn land(alloc: Global, part: Part, segment: &[u8]) -> (Part, u64)
    requires { Whole part }
    ensures { Whole result.0 }
{
    match Landing::new(alloc, part, MESSAGE as u64) {
        Ok(mut landing) => {
            let placed = place(&mut landing, segment).unwrap_or(0);
            (landing.into_part(), placed)
        }
        Err(part) => (part, 0),
    }
}

/// Places each segment, and gives how many were placed.
fn place(landing: &mut Landing, segment: &[u8]) -> Result<u64, NoMemory>
    ensures { Keeps landing.old landing.new }
{
    let mut placed = 0u64;
    for turn in 0..SEGMENTS {
        landing.reserve(1)?;
        let answer = landing.fill(start_at(turn) as u64, segment);
        placed = placed.saturating_add(u64::from(answer == Placed::Placed));
    }
    Ok(placed)
}
