//! Completions that were polled.
ghost use Rattle.std.specs.Prelude.{◌≡◌, ◌++◌, string_bytes, OnOk};
ghost use Rattle.rdm_report.specs.Polls.{source_text, excess_text, outcome_word, outcome_text, gone_word, completion_text};

use crate::shown::{put_number, put_shown};
use rdm_num::{Completion, Life, Outcome};
use std::alloc::{AllocError, Global};

/// Where a message came from, and what came with it.
fn put_source(
    out: &mut String,
    from: Life,
    tag: Option<u64>,
    cq_data: Option<u64>,
) -> Result<(), AllocError>
    ensures { OnOk result (string_bytes out.new ≡ string_bytes out.old ++ source_text from tag cq_data) }
{
    let port = from.port.0;
    let connid = from.connid.0;
    write!(out, " from {port}.{connid} tag ")?;
    put_number(out, tag)?;
    write!(out, " data ")?;
    put_number(out, cq_data)
}

/// How many bytes were cut off, where any were.
fn put_excess(out: &mut String, excess: u64) -> Result<(), AllocError>
    ensures { OnOk result (string_bytes out.new ≡ string_bytes out.old ++ excess_text excess) }
{
    if excess == 0 {
        return Ok(());
    }
    write!(out, "excess {excess} ")
}

fn put_outcome(alloc: Global, out: &mut String, outcome: &Outcome) -> Result<(), AllocError>
    ensures { OnOk result (string_bytes out.new ≡ string_bytes out.old ++ outcome_text outcome.now) }
{
    match outcome {
        Outcome::Took {
            from,
            tag,
            cq_data,
            bytes,
            excess,
        } => {
            let word = outcome_word(*excess);
            write!(out, "{word}")?;
            put_source(out, *from, *tag, *cq_data)?;
            let length = bytes.len();
            write!(out, " length {length} ")?;
            put_excess(out, *excess)?;
            put_shown(alloc, out, bytes.as_slice())
        }
        Outcome::Cancelled => write!(out, "cancelled"),
        Outcome::Gone => write!(out, "gone"),
    }
}

fn outcome_word(excess: u64) -> &'static str
    ensures { result.now ≡ outcome_word excess }
{
    if excess == 0 { "ok" } else { "truncated" }
}

fn gone_word(gone: bool) -> &'static str
    ensures { result.now ≡ gone_word gone }
{
    if gone { "gone" } else { "ok" }
}

/// The end of a send or a receive.
pub fn put_completion(alloc: Global, out: &mut String, c: &Completion) -> Result<(), AllocError>
    ensures { OnOk result (string_bytes out.new ≡ string_bytes out.old ++ completion_text c.now) }
{
    match c {
        Completion::Send { send, gone } => {
            let send = send.0;
            let word = gone_word(*gone);
            write!(out, "poll send {send} {word}")
        }
        Completion::Recv { recv, outcome } => {
            let recv = recv.0;
            write!(out, "poll recv {recv} ")?;
            put_outcome(alloc, out, outcome)
        }
    }
}
