//! Datagrams that were pushed.
ghost use Rattle.std.specs.Prelude.{◌≡◌, ◌++◌, string_bytes, OnOk};
ghost use Rattle.rdm_report.specs.Pushes.{note_text, operations_text, range_text, ask_text, data_text, load_text, body_text, push_text};

use crate::shown::put_shown;
use rdm_wire::{Body, Datagram, Load, NoteBody, ReadAsk, ReadData};
use std::alloc::{AllocError, Global};

fn put_note(out: &mut String, note: NoteBody) -> Result<(), AllocError>
    ensures { OnOk result (string_bytes out.new ≡ string_bytes out.old ++ note_text note) }
{
    match note {
        NoteBody::Opened(connid) => {
            let connid = connid.0;
            write!(out, "note opened {connid}")
        }
        NoteBody::Said(what) => write!(out, "note {what}"),
    }
}

/// The operations and the key of a read.
fn put_operations(out: &mut String, ask: ReadAsk) -> Result<(), AllocError>
    ensures { OnOk result (string_bytes out.new ≡ string_bytes out.old ++ operations_text ask) }
{
    let send = ask.send_id.0;
    let recv = ask.recv_id.0;
    let key = ask.key;
    write!(out, "send {send} recv {recv} key {key}")
}

/// The range that is read.
fn put_range(out: &mut String, ask: ReadAsk) -> Result<(), AllocError>
    ensures { OnOk result (string_bytes out.new ≡ string_bytes out.old ++ range_text ask) }
{
    let offset = ask.offset;
    let length = ask.length;
    let at = ask.at;
    write!(out, "offset {offset} length {length} at {at}")
}

fn put_ask(out: &mut String, ask: ReadAsk) -> Result<(), AllocError>
    ensures { OnOk result (string_bytes out.new ≡ string_bytes out.old ++ ask_text ask) }
{
    write!(out, "ask ")?;
    put_operations(out, ask)?;
    write!(out, " ")?;
    put_range(out, ask)
}

fn put_data(alloc: Global, out: &mut String, read: &ReadData) -> Result<(), AllocError>
    ensures { OnOk result (string_bytes out.new ≡ string_bytes out.old ++ data_text read.now) }
{
    let recv = read.recv_id.0;
    let at = read.at;
    let length = read.bytes.len();
    write!(out, "data recv {recv} at {at} length {length} ")?;
    put_shown(alloc, out, read.bytes.as_slice())
}

fn put_load(alloc: Global, out: &mut String, load: &Load) -> Result<(), AllocError>
    ensures { OnOk result (string_bytes out.new ≡ string_bytes out.old ++ load_text load.now) }
{
    match load {
        Load::Packet(bytes) => {
            let length = bytes.len();
            write!(out, "packet {length} ")?;
            put_shown(alloc, out, bytes.as_slice())
        }
        Load::Ask(ask) => put_ask(out, *ask),
        Load::Given(read) => put_data(alloc, out, read),
    }
}

fn put_body(alloc: Global, out: &mut String, dst: u32, body: &Body) -> Result<(), AllocError>
    ensures { OnOk result (string_bytes out.new ≡ string_bytes out.old ++ body_text dst body.now) }
{
    match body {
        Body::Note(note) => {
            write!(out, "{dst} ")?;
            put_note(out, *note)
        }
        Body::Between { from: _, to, load } => {
            let to = to.0;
            write!(out, "{dst}.{to} ")?;
            put_load(alloc, out, load)
        }
    }
}

/// The number, the destination and the content of a datagram.
pub fn put_push(alloc: Global, out: &mut String, d: &Datagram) -> Result<(), AllocError>
    ensures { OnOk result (string_bytes out.new ≡ string_bytes out.old ++ push_text d.now) }
{
    let number = d.number.0;
    write!(out, "push {number} to ")?;
    put_body(alloc, out, d.dst.0, &d.body)
}
