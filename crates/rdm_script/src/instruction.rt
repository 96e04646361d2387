//! What each instruction object says.
ghost use Rattle.std.specs.Prelude.{◌≡◌};
ghost use Rattle.serde_json.specs.View.{view};
ghost use Rattle.rdm_json.specs.Results.{result_map, present};
ghost use Rattle.rdm_script.specs.Instructions.{as_port, open_of, insert_of, reg_of, send_of, want_of, recv_of, cancel_of, note_of, await_of, wait_of, close_of, word_of, said, instr_of};
ghost use Rattle.rdm_script.specs.Drafts.{made};

use crate::Reason;
use crate::content::{as_length, content_of};
use crate::draft::Draft;
use crate::fields::Version;
use crate::ranges::{as_parts, as_u32, written_of};
use rdm_json::{Form, is_set, known, number, optional, text};
use rdm_model::{Instr, OpName};
use rdm_num::{Connid, Life, PortNo, RecvNo, RecvReq, RegionNo, SendReq, Want};
use serde_json::Value;

/// A port that may be absent.
fn as_port(n: Option<u64>) -> Result<Option<PortNo>, Reason>
    ensures { result ≡ as_port n }
{
    match n {
        Some(n) => Ok(Some(PortNo(as_u32(n)?))),
        None => Ok(None),
    }
}

fn open_of(value: &Value) -> Result<Instr, Reason>
    ensures { result ≡ open_of (view value.now) }
{
    known(Form::Open, value)?;
    let connid = number(value, "connid")?;
    Ok(Instr::OpenLife {
        connid: Connid(as_u32(connid)?),
    })
}

fn insert_of(value: &Value) -> Result<Instr, Reason>
    ensures { result ≡ insert_of (view value.now) }
{
    known(Form::Insert, value)?;
    let port = number(value, "port")?;
    let connid = number(value, "connid")?;
    let life = Life {
        port: PortNo(as_u32(port)?),
        connid: Connid(as_u32(connid)?),
    };
    Ok(Instr::Insert { life })
}

fn send_of(version: Version, value: &Value) -> Result<Instr, Reason>
    ensures { result ≡ send_of version (view value.now) }
{
    let written = written_of(version, value)?;
    let to = number(value, "to")?;
    let tag = optional(value, "tag")?;
    let cq_data = optional(value, "data")?;
    let confirm = is_set(value, "confirm")?;
    Ok(Instr::Send(SendReq {
        to: PortNo(as_u32(to)?),
        parts: as_parts(written.as_slice())?,
        tag,
        cq_data,
        confirm,
    }))
}

/// Bits are ignored only of a tag, and none where that is not said.
fn want_of(tag: Option<u64>, ignore: Option<u64>) -> Result<Option<Want>, Reason>
    ensures { result ≡ want_of tag ignore }
{
    match (tag, ignore) {
        (None, None) => Ok(None),
        (None, Some(_)) => Err(Reason::Shape),
        (Some(tag), None) => Ok(Some(Want { tag, ignore: 0 })),
        (Some(tag), Some(ignore)) => Ok(Some(Want { tag, ignore })),
    }
}

fn recv_of(value: &Value) -> Result<Instr, Reason>
    ensures { result ≡ recv_of (view value.now) }
{
    known(Form::Recv, value)?;
    let from = optional(value, "from")?;
    let region = number(value, "region")?;
    let at = number(value, "at")?;
    let len = number(value, "len")?;
    let tag = optional(value, "tag")?;
    let ignore = optional(value, "ignore")?;
    let want = want_of(tag, ignore)?;
    Ok(Instr::Recv(RecvReq {
        from: as_port(from)?,
        region: RegionNo(as_u32(region)?),
        at,
        len: u64::from(as_length(len)?),
        want,
    }))
}

fn cancel_of(value: &Value) -> Result<Instr, Reason>
    ensures { result ≡ cancel_of (view value.now) }
{
    known(Form::Cancel, value)?;
    let recv = number(value, "recv")?;
    Ok(Instr::Cancel { recv: RecvNo(recv) })
}

fn note_of(value: &Value) -> Result<Instr, Reason>
    ensures { result ≡ note_of (view value.now) }
{
    known(Form::Note, value)?;
    let to = number(value, "to")?;
    let what = number(value, "what")?;
    let to = PortNo(as_u32(to)?);
    Ok(Instr::Note { to, what })
}

fn await_of(value: &Value) -> Result<Instr, Reason>
    ensures { result ≡ await_of (view value.now) }
{
    known(Form::Await, value)?;
    let from = number(value, "from")?;
    let what = number(value, "what")?;
    let from = PortNo(as_u32(from)?);
    Ok(Instr::Await { from, what })
}

fn wait_of(value: &Value) -> Result<Instr, Reason>
    ensures { result ≡ wait_of (view value.now) }
{
    known(Form::Wait, value)?;
    let count = number(value, "count")?;
    Ok(Instr::Wait { count })
}

fn close_of(value: &Value) -> Result<Instr, Reason>
    ensures { result ≡ close_of (view value.now) }
{
    known(Form::Close, value)?;
    Ok(Instr::CloseLife)
}

/// The words of instructions.
fn word_of(word: &str) -> Result<OpName, Reason>
    ensures { result ≡ present Reason.Shape (word_of word.now) }
{
    match word {
        "open" => Ok(OpName::Open),
        "insert" => Ok(OpName::Insert),
        "reg" => Ok(OpName::Reg),
        "send" => Ok(OpName::Send),
        "recv" => Ok(OpName::Recv),
        "cancel" => Ok(OpName::Cancel),
        "note" => Ok(OpName::Note),
        "await" => Ok(OpName::Await),
        "wait" => Ok(OpName::Wait),
        "close" => Ok(OpName::Close),
        _ => Err(Reason::Shape),
    }
}

/// What an object says, whose word is this.
fn said(version: Version, word: OpName, value: &Value) -> Result<Draft<'_>, Reason>
    ensures { result_map made result ≡ said version word (view value.now) }
{
    let instr = match word {
        OpName::Open => open_of(value)?,
        OpName::Insert => insert_of(value)?,
        OpName::Reg => return Ok(Draft::Region(content_of(value)?)),
        OpName::Send => send_of(version, value)?,
        OpName::Recv => recv_of(value)?,
        OpName::Cancel => cancel_of(value)?,
        OpName::Note => note_of(value)?,
        OpName::Await => await_of(value)?,
        OpName::Wait => wait_of(value)?,
        OpName::Close => close_of(value)?,
    };
    Ok(Draft::Made(instr))
}

/// The instruction of an object.
pub fn instr_of(version: Version, value: &Value) -> Result<Draft<'_>, Reason>
    ensures { result_map made result ≡ instr_of version (view value.now) }
{
    let word = word_of(text(value, "op")?)?;
    said(version, word, value)
}
