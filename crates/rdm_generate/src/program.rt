//! The programs of a generated job, as JSON values.
ghost use Rattle.std.specs.Prelude.{◌≡◌, ◌<◌, ◌^◌, [], ◌∷◌, ◌++◌, map, IfOk, OnOk};
ghost use Rattle.serde_json.specs.View.{view};
ghost use Rattle.rdm_generate.specs.Programs.{connid_of, ports, inserts, empty_recvs, empty_sends, round_of, tag_of, total_of, recvs_from, sends_from, program_of};

use crate::draws::Message;
use crate::instructions::{empty_recv, fill, insert, open, recv, send, wait, zero};
use serde_json::Value;
use std::alloc::{AllocError, Global};

/// How many ranks a generated job has.
pub const RANKS: u32 = 8;

/// The value goes last.
pub fn push(values: &mut Vec<Value>, value: Value) -> Result<(), AllocError>
    ensures { OnOk result (map view values.new.items ≡ map view values.old.items ++ view value ∷ []) }
{
    values.push(value)?;
    Ok(())
}

fn connid_of(port: u32) -> u64
    ensures { result ≡ connid_of port }
{
    u64::from(port) + 1
}

#[tactic(auto, unfolding(crate::specs::Programs::ports))]
fn put_inserts(alloc: Global, ops: &mut Vec<Value>) -> Result<(), AllocError>
    ensures { OnOk result (map view ops.new.items ≡ map view ops.old.items ++ inserts ports) }
{
    for port in 0..RANKS {
        push(ops, insert(alloc, port, connid_of(port))?)?;
    }
    Ok(())
}

#[tactic(auto, unfolding(crate::specs::Programs::ports))]
fn put_empty_recvs(alloc: Global, ops: &mut Vec<Value>, tag: u64) -> Result<(), AllocError>
    ensures { OnOk result (map view ops.new.items ≡ map view ops.old.items ++ empty_recvs tag ports) }
{
    for port in 0..RANKS {
        push(ops, empty_recv(alloc, port, tag)?)?;
    }
    Ok(())
}

#[tactic(auto, unfolding(crate::specs::Programs::ports))]
fn put_empty_sends(alloc: Global, ops: &mut Vec<Value>, tag: u64) -> Result<(), AllocError>
    ensures { OnOk result (map view ops.new.items ≡ map view ops.old.items ++ empty_sends tag ports) }
{
    for port in 0..RANKS {
        push(ops, send(alloc, port, 0, 0, tag)?)?;
    }
    Ok(())
}

/// An empty message from every rank to every rank, and a wait for all that came before.
fn put_round(
    alloc: Global,
    ops: &mut Vec<Value>,
    tag: u64,
    completions: u64,
) -> Result<(), AllocError>
    ensures { OnOk result (map view ops.new.items ≡ map view ops.old.items ++ round_of tag completions) }
{
    put_empty_recvs(alloc, ops, tag)?;
    put_empty_sends(alloc, ops, tag)?;
    push(ops, wait(alloc, completions)?)
}

/// Each message has a tag of its own, apart from those of the empty ones.
fn tag_of(message: Message) -> u64
    ensures { result ≡ tag_of message }
{
    1_000 + u64::from(message.number)
}

fn total_of(messages: &[Message]) -> u64
    requires { total_of messages.now < 2 ^ 64 }
    ensures { result ≡ total_of messages.now }
{
    messages.iter().map(|m| u64::from(m.len)).sum()
}

/// A receive for each message, in ranges that follow one another.
fn put_recvs(alloc: Global, ops: &mut Vec<Value>, messages: &[Message]) -> Result<(), AllocError>
    requires { total_of messages.now < 2 ^ 64 }
    ensures { OnOk result (map view ops.new.items ≡ map view ops.old.items ++ recvs_from 0 messages.now) }
{
    let mut at = 0;
    for message in messages {
        push(ops, recv(alloc, at, message.len, tag_of(*message))?)?;
        at += u64::from(message.len);
    }
    Ok(())
}

/// A send of each message, from ranges that follow one another.
fn put_sends(alloc: Global, ops: &mut Vec<Value>, messages: &[Message]) -> Result<(), AllocError>
    requires { total_of messages.now < 2 ^ 64 }
    ensures { OnOk result (map view ops.new.items ≡ map view ops.old.items ++ sends_from 0 messages.now) }
{
    let mut at = 0;
    for message in messages {
        push(
            ops,
            send(alloc, message.to, at, message.len, tag_of(*message))?,
        )?;
        at += u64::from(message.len);
    }
    Ok(())
}

/// A rank opens its life, inserts those of all ports, makes a region to send from and one to
/// receive in, takes part in two rounds of empty messages, and then receives what is sent to it and
/// sends what is its own.
#[tactic(auto, unfolding(crate::specs::Programs::program_of))]
pub fn program(
    alloc: Global,
    seed: u64,
    rank: u32,
    received: &[Message],
    sent: &[Message],
) -> Result<Vec<Value>, AllocError>
    requires received { total_of received.now < 2 ^ 64 }
    requires sent { total_of sent.now < 2 ^ 64 }
    ensures { IfOk result (λ ops. map view ops.items ≡ program_of seed rank received.now sent.now) }
{
    let mut ops = Vec::new(alloc);
    push(&mut ops, open(alloc, connid_of(rank))?)?;
    put_inserts(alloc, &mut ops)?;
    push(&mut ops, fill(alloc, total_of(sent), seed % 256)?)?;
    push(&mut ops, zero(alloc, total_of(received))?)?;
    put_round(alloc, &mut ops, 1, 16)?;
    put_round(alloc, &mut ops, 2, 32)?;
    put_recvs(alloc, &mut ops, received)?;
    put_sends(alloc, &mut ops, sent)?;
    let completions = 32 + received.len() as u64 + sent.len() as u64;
    push(&mut ops, wait(alloc, completions)?)?;
    Ok(ops)
}
