//! The messages of a generated job.
ghost use Rattle.std.specs.Prelude.{◌≡◌, ◌<◌, ◌≤◌, sum_by, IfOk};
ghost use Rattle.rdm_generate.specs.Draws.{next_state, drawn, length_of, message_of, first_messages, messages_of};

use std::alloc::{AllocError, Global};

/// A message, by its place among all of the job.
#[derive(Clone, Copy, Debug, PartialEq, Eq)]
pub struct Message {
    pub number: u32,
    pub from: u32,
    pub to: u32,
    pub len: u32,
}

const MULTIPLIER: u64 = 6_364_136_223_846_793_005;

const INCREMENT: u64 = 1_442_695_040_888_963_407;

const MESSAGES_MAX: u32 = 10_000;

fn next_state(state: u64) -> u64
    ensures { result ≡ next_state state }
{
    state.wrapping_mul(MULTIPLIER).wrapping_add(INCREMENT)
}

fn drawn(state: u64) -> u32
    ensures { result ≡ drawn state }
{
    (state >> 33) as u32
}

/// Four ranges of lengths take turns, so that each way to send a message occurs.
fn length_of(from: u32, to: u32, draw: u32) -> u32
    requires sender { from < 8 }
    requires receiver { to < 8 }
    ensures { result ≡ length_of from to draw }
{
    match (from / 2 + to) % 4 {
        0 => draw % 800,
        1 => 1_025 + draw % 3_000,
        2 => 5_000 + draw % 10_000,
        _ => 16_384 + draw % 20_000,
    }
}

fn message_of(number: u32, draw: u32) -> Message
    ensures { result ≡ message_of number draw }
{
    let from = number % 8;
    let to = number / 8 % 8;
    Message {
        number,
        from,
        to,
        len: length_of(from, to, draw),
    }
}

/// The first messages, at most so many, whose lengths together are at most `size`.
fn first_messages(
    alloc: Global,
    count: u32,
    seed: u64,
    size: u64,
) -> Result<Vec<Message>, AllocError>
    ensures messages { IfOk result (λ ms. ms.items ≡ first_messages count seed size) }
    ensures size { IfOk result (λ ms. sum_by (λ m. m.len) ms.items ≤ size) }
{
    let mut messages = Vec::new(alloc);
    let mut state = seed;
    let mut room = size;
    for number in 0..count {
        state = next_state(state);
        let message = message_of(number, drawn(state));
        let len = u64::from(message.len);
        if len > room {
            return Ok(messages);
        }
        room -= len;
        messages.push(message)?;
    }
    Ok(messages)
}

/// The messages of a job.
#[tactic(auto, unfolding(crate::specs::Draws::messages_of))]
pub fn messages(alloc: Global, seed: u64, size: u64) -> Result<Vec<Message>, AllocError>
    ensures messages { IfOk result (λ ms. ms.items ≡ messages_of seed size) }
    ensures size { IfOk result (λ ms. sum_by (λ m. m.len) ms.items ≤ size) }
{
    first_messages(alloc, MESSAGES_MAX, seed, size)
}
