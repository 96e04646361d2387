//! How packets that open a message are read, after the headers that each of them has.
ghost use Rattle.std.specs.Prelude.{◌≡◌, ◌+◌, nat_le, IfOk, length};
ghost use Rattle.rdm_pkt.specs.Reading.{EagerRow, MediumRow, LongCtsRow, LongReadRow, RuntRow, if_spelled, rtm_at};

use crate::read_list::{iov_fits, read_iov};
use crate::reading::{after, asks_receipt, read_opening};
use crate::writing::confirmed_kind;
use crate::{Form, Packet};
use rdm_hdr::{NoMemory, u32_at, u64_at};
use rdm_num::{Bytes, OpId};
use std::alloc::Global;

/// A message whole in one packet.
pub fn read_eager(alloc: Global, bytes: &[u8]) -> Result<Option<Packet>, NoMemory>
    ensures { IfOk result (λ r. r ≡ if_spelled bytes.now (rtm_at EagerRow bytes.now)) }
{
    let Some(opening) = read_opening(confirmed_kind(64, asks_receipt(bytes)), 8, bytes) else {
        return Ok(None);
    };
    let bytes = Bytes::from_slice(alloc, after(bytes, opening.place))?;
    Ok(Some(opening.packet(Form::Eager { bytes })))
}

/// A segment.
pub fn read_medium(alloc: Global, bytes: &[u8]) -> Result<Option<Packet>, NoMemory>
    ensures { IfOk result (λ r. r ≡ if_spelled bytes.now (rtm_at MediumRow bytes.now)) }
{
    let Some(opening) = read_opening(confirmed_kind(66, asks_receipt(bytes)), 24, bytes) else {
        return Ok(None);
    };
    let data = after(bytes, opening.place);
    let msg_length = u64_at(bytes, 8);
    let offset = u64_at(bytes, 16);
    if data.is_empty() {
        return Ok(None);
    }
    if !ends_by(offset, data, msg_length) {
        return Ok(None);
    }
    Ok(Some(opening.packet(Form::Medium {
        msg_length,
        offset,
        bytes: Bytes::from_slice(alloc, data)?,
    })))
}

/// The data end where the message ends, or before.
pub fn ends_by(offset: u64, part: &[u8], size: u64) -> bool
    ensures { result ≡ nat_le (offset + length part.now) size }
{
    let length = part.len() as u64;
    length <= size && offset <= size - length
}

/// A first part that asks for grants.
pub fn read_long_cts(alloc: Global, bytes: &[u8]) -> Result<Option<Packet>, NoMemory>
    ensures { IfOk result (λ r. r ≡ if_spelled bytes.now (rtm_at LongCtsRow bytes.now)) }
{
    let Some(opening) = read_opening(confirmed_kind(68, asks_receipt(bytes)), 24, bytes) else {
        return Ok(None);
    };
    let data = after(bytes, opening.place);
    let msg_length = u64_at(bytes, 8);
    let credit_request = u32_at(bytes, 20);
    if data.is_empty() {
        return Ok(None);
    }
    if data.len() as u64 >= msg_length {
        return Ok(None);
    }
    if credit_request == 0 {
        return Ok(None);
    }
    Ok(Some(opening.packet(Form::LongCts {
        msg_length,
        send_id: OpId(u32_at(bytes, 16)),
        credit_request,
        bytes: Bytes::from_slice(alloc, data)?,
    })))
}

/// A read.
pub fn read_long_read(bytes: &[u8]) -> Option<Packet>
    ensures { result ≡ if_spelled bytes.now (rtm_at LongReadRow bytes.now) }
{
    let opening = read_opening(128, 24, bytes)?;
    let count = u32_at(bytes, 20) as usize;
    if count > 4 {
        return None;
    }
    if bytes.len() != opening.place + 24 * count {
        return None;
    }
    let iov = read_iov(count, opening.place, bytes)?;
    let msg_length = u64_at(bytes, 8);
    if !iov_fits(iov.as_slice(), msg_length) {
        return None;
    }
    Some(opening.packet(Form::LongRead {
        msg_length,
        send_id: OpId(u32_at(bytes, 16)),
        iov,
    }))
}

/// A segment of a first part ahead of a read.
pub fn read_runt(alloc: Global, bytes: &[u8]) -> Result<Option<Packet>, NoMemory>
    ensures { IfOk result (λ r. r ≡ if_spelled bytes.now (rtm_at RuntRow bytes.now)) }
{
    let Some(opening) = read_opening(192, 40, bytes) else {
        return Ok(None);
    };
    let count = u32_at(bytes, 20) as usize;
    if count > 4 {
        return Ok(None);
    }
    let place = opening.place + 24 * count;
    if bytes.len() <= place {
        return Ok(None);
    }
    let data = after(bytes, place);
    let Some(iov) = read_iov(count, opening.place, bytes) else {
        return Ok(None);
    };
    let msg_length = u64_at(bytes, 8);
    if !iov_fits(iov.as_slice(), msg_length) {
        return Ok(None);
    }
    let runt_length = u64_at(bytes, 24);
    let offset = u64_at(bytes, 32);
    if !ends_by(offset, data, runt_length) {
        return Ok(None);
    }
    if runt_length >= msg_length {
        return Ok(None);
    }
    Ok(Some(opening.packet(Form::Runt {
        msg_length,
        send_id: OpId(u32_at(bytes, 16)),
        iov,
        runt_length,
        offset,
        bytes: Bytes::from_slice(alloc, data)?,
    })))
}
