//! Entries of a history.
ghost use Rattle.std.specs.Prelude.{◌≡◌, ◌++◌, string_bytes, OnOk};
ghost use Rattle.rdm_report.specs.Text.{act_text, entry_text, entries_text};

use crate::answer::{put_answer, put_handled};
use crate::completion::put_completion;
use crate::push::put_push;
use crate::words::op_word;
use rdm_model::{Act, Entry};
use std::alloc::{AllocError, Global};

fn put_act(alloc: Global, out: &mut String, act: &Act) -> Result<(), AllocError>
    ensures { OnOk result (string_bytes out.new ≡ string_bytes out.old ++ act_text act.now) }
{
    match act {
        Act::Next { index, op, answer } => {
            let word = op_word(*op);
            write!(out, "next {index} {word} ")?;
            put_answer(out, *answer)
        }
        Act::Push { datagram } => put_push(alloc, out, datagram),
        Act::Handle { datagram, answer } => {
            let src = datagram.src.0;
            let number = datagram.number.0;
            write!(out, "handle {src} {number} ")?;
            put_handled(out, *answer)
        }
        Act::Poll { completion } => put_completion(alloc, out, completion),
    }
}

fn put_entry(alloc: Global, out: &mut String, e: &Entry) -> Result<(), AllocError>
    ensures { OnOk result (string_bytes out.new ≡ string_bytes out.old ++ entry_text e.now) }
{
    let stamp = e.stamp.0;
    let port = e.port.0;
    write!(out, "{stamp} {port} ")?;
    put_act(alloc, out, &e.act)?;
    out.push_str("\n")
}

/// A line for each entry.
pub fn put_entries(alloc: Global, out: &mut String, es: &[Entry]) -> Result<(), AllocError>
    ensures { OnOk result (string_bytes out.new ≡ string_bytes out.old ++ entries_text es.now) }
{
    for e in es {
        put_entry(alloc, out, e)?;
    }
    Ok(())
}
