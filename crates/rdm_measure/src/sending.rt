//! A message of 16 MiB that goes out in segments, in packets of at most 8,192 bytes.
ghost use Rattle.std.specs.Prelude.{◌≤◌, length};

use crate::ones;
use arrayvec::ArrayVec;
use rdm_hdr::Opt;
use rdm_num::{EpLimits, Iov, IovEntry, MsgNo, NoMemory, OpId};
use rdm_pkt::{Form, Kind, Packet};
use rdm_tx::{Cursor, Message};
use std::alloc::Global;

/// How many bytes the message has.
const MESSAGE: usize = 16_777_216;

/// How many of them a packet has room for, beside its headers.
const SEGMENT: usize = 8_168;

const LIMITS: EpLimits = EpLimits {
    mtu: 8_192,
    medium: 16_777_216,
    read_limit: 16_777_216,
    runt: 0,
    credits: 1,
    first: 0,
    tx: 1,
    rx: 1,
    early: 1,
    cq: 1,
};

/// Copies the message so often, each segment into memory of its own. Gives how many segments there were.
pub fn copies(alloc: Global, count: u64) -> Result<u64, NoMemory> {
    let bytes = ones(alloc, MESSAGE)?;
    let mut made = 0u64;
    for _copy in 0..count {
        for segment in bytes.chunks(SEGMENT) {
            let copy = Vec::from_slice(alloc, segment)?;
            made = made.saturating_add(first_of(&copy));
        }
    }
    Ok(made)
}

/// Sends the message so often, packet by packet. Gives how many packets there were.
pub fn sends(alloc: Global, count: u64) -> Result<u64, NoMemory> {
    let bytes = ones(alloc, MESSAGE)?;
    let message = message();
    let mut made = 0u64;
    for _send in 0..count {
        made = made.saturating_add(packets(alloc, &message, &bytes)?);
    }
    Ok(made)
}

/// Makes the packets of a message, and gives how many there were.
fn packets(alloc: Global, message: &Message, bytes: &[u8]) -> Result<u64, NoMemory>
    requires { length message.now.iov ≤ 4 }
{
    let total = bytes.len() as u64;
    let mut cursor = Cursor::new();
    let mut made = 0u64;
    for _packet in 0..total {
        let Some(span) = cursor.span(&LIMITS, message, total) else {
            break;
        };
        let end = span.offset + span.length;
        let piece = &bytes[span.offset as usize..end as usize];
        let packet = cursor.packet(alloc, &LIMITS, message, total, piece)?;
        cursor.step();
        made = made.saturating_add(carried(packet.as_ref()));
    }
    Ok(made)
}

/// The first byte that a packet carries, or 0.
fn carried(packet: Option<&Packet>) -> u64 {
    match packet {
        Some(
            Packet::Rtm {
                form: Form::Medium { bytes, .. },
                ..
            },
        ) => first_of(bytes.as_slice()),
        _ => 0,
    }
}

/// The first of the bytes, or 0.
fn first_of(bytes: &[u8]) -> u64 {
    bytes.first().map_or(0, |first| u64::from(*first))
}

/// A message without a tag that goes in segments.
fn message() -> Message
    ensures { length result.iov ≤ 4 }
{
    let mut ranges = ArrayVec::<IovEntry, 4>::new();
    ranges.push(IovEntry::default());
    let Some(iov) = Iov::from_array_vec(ranges) else {
        unreachable!()
    };
    Message {
        no: MsgNo(0),
        tag: None,
        confirm: false,
        opt: Opt {
            raw: None,
            cq_data: None,
            connid: None,
        },
        send_id: OpId(0),
        iov,
        kind: Kind::Medium,
    }
}
