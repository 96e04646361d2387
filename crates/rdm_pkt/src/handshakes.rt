//! Handshakes, and by which header they name their sender.
ghost use Rattle.std.specs.Prelude.{◌≡◌, ◌≤◌, ◌+◌, ◌*◌, IfOk, length};
ghost use Rattle.rdm_pkt.specs.Grammar as Grammar;
ghost use Rattle.rdm_pkt.specs.Reading.{HandshakeRow, if_spelled, values_at, words_at};
ghost use Rattle.rdm_pkt.specs.Opened.{sender_in, raw_in, connid_in};

use crate::Packet;
use crate::reading::{after, has_head};
use crate::writing::{CONNID_FLAG, opt_flags};
use rdm_hdr::{NoMemory, Opt, has_bit, read_opt, u16_at, u32_at, u64_at};
use rdm_num::{Connid, PortNo, Words};
use std::alloc::Global;

/// The flags of a packet that carries its sender's raw address and no other header.
const RAW_FLAG: u16 = 1;

/// The header that names the sender: its identifier alone, or its raw address with that port.
#[tactic(auto, unfolding(crate::specs::Grammar::sender_opt))]
pub fn sender_opt(connid: Connid, raw: Option<PortNo>) -> Opt
    ensures { result ≡ Grammar.sender_opt connid raw }
{
    match raw {
        None => Opt {
            raw: None,
            cq_data: None,
            connid: Some(connid.0),
        },
        Some(port) => Opt {
            raw: Some((port.0, connid.0)),
            cq_data: None,
            connid: None,
        },
    }
}

/// A handshake.
pub fn read_handshake(alloc: Global, bytes: &[u8]) -> Result<Option<Packet>, NoMemory>
    ensures { IfOk result (λ r. r ≡ if_spelled bytes.now (values_at HandshakeRow bytes.now)) }
{
    if bytes.len() < 8 {
        return Ok(None);
    }
    let nextra_p3 = u32_at(bytes, 4);
    if nextra_p3 < 4 {
        return Ok(None);
    }
    if nextra_p3 > 11 {
        return Ok(None);
    }
    let count = nextra_p3 as usize - 3;
    if bytes.len() < 8 + 8 * count {
        return Ok(None);
    }
    let Some((connid, raw)) = read_sender(bytes, 8 + 8 * count) else {
        return Ok(None);
    };
    if !has_head(bytes, 9, opt_flags(&sender_opt(connid, raw))) {
        return Ok(None);
    }
    Ok(Some(Packet::Handshake {
        words: read_words(alloc, count, bytes)?,
        connid,
        raw,
    }))
}

/// Whom the last header of a handshake names, which begins at that place: a raw address where the flags say so, else
/// an identifier.
fn read_sender(bytes: &[u8], place: usize) -> Option<(Connid, Option<PortNo>)>
    requires head { 4 ≤ length bytes.now }
    requires room { place ≤ length bytes.now }
    ensures { result ≡ sender_in place bytes.now }
{
    let last = after(bytes, place);
    if has_bit(0, u64::from(u16_at(bytes, 2))) {
        read_raw(last)
    } else {
        read_connid(last)
    }
}

/// Whom a raw address names that is all of the bytes.
fn read_raw(bytes: &[u8]) -> Option<(Connid, Option<PortNo>)>
    ensures { result ≡ raw_in bytes.now }
{
    let (opt, size) = read_opt(RAW_FLAG, bytes)?;
    if bytes.len() != size {
        return None;
    }
    let (port, connid) = opt.raw?;
    Some((Connid(connid), Some(PortNo(port))))
}

/// Whom an identifier names that is all of the bytes.
fn read_connid(bytes: &[u8]) -> Option<(Connid, Option<PortNo>)>
    ensures { result ≡ connid_in bytes.now }
{
    if bytes.len() != 4 {
        return None;
    }
    Some((Connid(u32_at(bytes, 0)), None))
}

/// The words of a handshake.
fn read_words(alloc: Global, count: usize, bytes: &[u8]) -> Result<Words, NoMemory>
    requires few { count ≤ 8 }
    requires room { 8 + 8 * count ≤ length bytes.now }
    ensures { IfOk result (λ words. words ≡ words_at 8 count bytes.now) }
{
    let mut words = Vec::with_capacity(alloc, count)?;
    for k in 0..count {
        words.push(u64_at(bytes, 8 + 8 * k))?;
    }
    Ok(Words::from_vec(words))
}
