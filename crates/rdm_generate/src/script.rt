//! The script of a generated job.
ghost use Rattle.std.specs.Prelude.{◌≡◌, ◌<◌, ◌≤◌, ◌^◌, map, IfOk};
ghost use Rattle.serde_json.specs.View.{view};
ghost use Rattle.rdm_generate.specs.Programs.{total_of};
ghost use Rattle.rdm_generate.specs.Script.{received_by, sent_by, features_of, rank_json, ranks_json, job_with, job_json, script_text};

use crate::draws::{Message, messages};
use crate::program::{RANKS, program, push};
use rdm_num::Bytes;
use serde_json::{Value, json};
use std::alloc::{AllocError, Global};

fn received_by(alloc: Global, rank: u32, messages: &[Message]) -> Result<Vec<Message>, AllocError>
    ensures { IfOk result (λ ms. ms.items ≡ received_by rank messages.now) }
{
    messages
        .iter()
        .copied()
        .filter(|m| m.to == rank)
        .collect(alloc)
}

fn sent_by(alloc: Global, rank: u32, messages: &[Message]) -> Result<Vec<Message>, AllocError>
    ensures { IfOk result (λ ms. ms.items ≡ sent_by rank messages.now) }
{
    messages
        .iter()
        .copied()
        .filter(|m| m.from == rank)
        .collect(alloc)
}

fn features_of(rank: u32) -> u32
    ensures { result ≡ features_of rank }
{
    if rank % 2 == 0 { 25 } else { 9 }
}

fn rank_value(
    alloc: Global,
    seed: u64,
    messages: &[Message],
    rank: u32,
) -> Result<Value, AllocError>
    requires { total_of messages.now < 2 ^ 64 }
    ensures { IfOk result (λ v. view v ≡ rank_json seed messages.now rank) }
{
    let received = received_by(alloc, rank, messages)?;
    let sent = sent_by(alloc, rank, messages)?;
    let ops = program(alloc, seed, rank, received.as_slice(), sent.as_slice())?;
    json!(in alloc; {"features": features_of(rank), "ops": ops})
}

fn rank_values(alloc: Global, seed: u64, messages: &[Message]) -> Result<Vec<Value>, AllocError>
    requires { total_of messages.now < 2 ^ 64 }
    ensures { IfOk result (λ ranks. map view ranks.items ≡ ranks_json seed messages.now) }
{
    let mut ranks = Vec::new(alloc);
    for rank in 0..RANKS {
        push(&mut ranks, rank_value(alloc, seed, messages, rank)?)?;
    }
    Ok(ranks)
}

/// The limits are low, so that messages of a few thousand bytes are sent in every way.
fn job_with(alloc: Global, ranks: Vec<Value>) -> Result<Value, AllocError>
    ensures { IfOk result (λ v. view v ≡ job_with (map view ranks.items)) }
{
    json!(in alloc; {
        "version": 1u32,
        "mtu": 1_024u32,
        "medium": 4_096u32,
        "read": 16_384u32,
        "runt": 1_024u32,
        "credits": 4u32,
        "pools": {
            "tx": 4_096u32,
            "rx": 4_096u32,
            "early": 4_096u32,
            "cq": 8_192u32,
            "inbox": 1_024u32
        },
        "ranks": ranks
    })
}

#[tactic(auto, unfolding(crate::specs::Script::job_json))]
fn job_value(alloc: Global, seed: u64, size: u64) -> Result<Value, AllocError>
    ensures { IfOk result (λ v. view v ≡ job_json seed size) }
{
    let messages = messages(alloc, seed, size)?;
    let ranks = rank_values(alloc, seed, messages.as_slice())?;
    job_with(alloc, ranks)
}

/// The script of the job that a seed gives, whose messages have `size` bytes together at most. It is
/// one line.
#[tactic(auto, using(crate::proofs::Plain::plain_job), unfolding(crate::specs::Script::script_text))]
pub fn script_of(alloc: Global, seed: u64, size: u64) -> Result<Bytes, AllocError>
    ensures { IfOk result (λ text. text ≡ script_text seed size) }
{
    let job = job_value(alloc, seed, size)?;
    let mut text = job.to_vec(alloc)?;
    text.push(b'\n')?;
    Ok(Bytes::from_vec(text))
}
