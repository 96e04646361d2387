//! Messages in several packets, and first parts.
use super::{CONNID, RAW, content, limits, message};
use rdm_hdr::Opt;
use rdm_num::{EpLimits, NoMemory};
use rdm_pkt::{Form, Kind, Packet};
use rdm_tx::{Cursor, Message, Span};
use std::alloc::Global;
use std::process::Abort;
use std::test::Fail;

/// Message 3 with tag 1, of that kind, wish for a receipt, mtu, sender and length, and what it gives: each packet's
/// offset, how many bytes it carries and how many it has, and the headers of the last packet.
struct Row {
    kind: Kind,
    confirm: bool,
    mtu: u32,
    opt: Opt,
    length: usize,
    pieces: &'static [(u64, usize, usize)],
    last: &'static [u8],
}

/// Messages just within one packet and just above it, and others.
const ROWS: [Row; 9] = [
    Row {
        kind: Kind::Eager,
        confirm: false,
        mtu: 8_192,
        opt: RAW,
        length: 8_140,
        pieces: &[(0, 8_140, 8_192)],
        last: &[0x41, 4, 9, 0, 3, 0, 0, 0, 1, 0, 0, 0, 0, 0, 0, 0, 0x20],
    },
    Row {
        kind: Kind::Medium,
        confirm: false,
        mtu: 8_192,
        opt: RAW,
        length: 8_141,
        pieces: &[(0, 8_124, 8_192), (8_124, 17, 85)],
        last: &[
            0x43, 4, 9, 0, 3, 0, 0, 0, 0xcd, 0x1f, 0, 0, 0, 0, 0, 0, 0xbc, 0x1f, 0, 0, 0, 0, 0, 0,
            1, 0, 0, 0, 0, 0, 0, 0, 0x20,
        ],
    },
    Row {
        kind: Kind::Eager,
        confirm: false,
        mtu: 8_192,
        opt: CONNID,
        length: 8_172,
        pieces: &[(0, 8_172, 8_192)],
        last: &[
            0x41, 4, 8, 0x80, 3, 0, 0, 0, 1, 0, 0, 0, 0, 0, 0, 0, 5, 0, 0, 0,
        ],
    },
    Row {
        kind: Kind::Medium,
        confirm: false,
        mtu: 8_192,
        opt: CONNID,
        length: 8_173,
        pieces: &[(0, 8_156, 8_192), (8_156, 17, 53)],
        last: &[
            0x43, 4, 8, 0x80, 3, 0, 0, 0, 0xed, 0x1f, 0, 0, 0, 0, 0, 0, 0xdc, 0x1f, 0, 0, 0, 0, 0,
            0, 1, 0, 0, 0, 0, 0, 0, 0, 5, 0, 0, 0,
        ],
    },
    Row {
        kind: Kind::Medium,
        confirm: false,
        mtu: 256,
        opt: RAW,
        length: 400,
        pieces: &[(0, 188, 256), (188, 188, 256), (376, 24, 92)],
        last: &[
            0x43, 4, 9, 0, 3, 0, 0, 0, 0x90, 1, 0, 0, 0, 0, 0, 0, 0x78, 1, 0, 0, 0, 0, 0, 0, 1, 0,
            0, 0, 0, 0, 0, 0, 0x20,
        ],
    },
    Row {
        kind: Kind::Medium,
        confirm: true,
        mtu: 256,
        opt: RAW,
        length: 376,
        pieces: &[(0, 188, 256), (188, 188, 256)],
        last: &[
            0xcb, 4, 9, 0, 3, 0, 0, 0, 0x78, 1, 0, 0, 0, 0, 0, 0, 188, 0, 0, 0, 0, 0, 0, 0, 1, 0,
            0, 0, 0, 0, 0, 0, 0x20,
        ],
    },
    Row {
        kind: Kind::LongCts,
        confirm: true,
        mtu: 256,
        opt: RAW,
        length: 700,
        pieces: &[(0, 188, 256)],
        last: &[
            0xcd, 4, 9, 0, 3, 0, 0, 0, 0xbc, 2, 0, 0, 0, 0, 0, 0, 3, 0, 0, 0, 1, 0, 0, 0, 1, 0, 0,
            0, 0, 0, 0, 0, 0x20,
        ],
    },
    Row {
        kind: Kind::Runt { runt_length: 999 },
        confirm: true,
        mtu: 256,
        opt: CONNID,
        length: 1_000,
        pieces: &[
            (0, 180, 256),
            (180, 180, 256),
            (360, 180, 256),
            (540, 180, 256),
            (720, 180, 256),
            (900, 99, 175),
        ],
        last: &[
            0xc1, 4, 8, 0x80, 3, 0, 0, 0, 0xe8, 3, 0, 0, 0, 0, 0, 0, 3, 0, 0, 0, 1, 0, 0, 0, 0xe7,
            3, 0, 0, 0, 0, 0, 0, 0x84, 3, 0, 0, 0, 0, 0, 0, 1, 0, 0, 0, 0, 0, 0, 0, 5, 0, 0, 0, 0,
            0, 0, 0, 0, 0, 0, 0, 0xe8, 3, 0, 0, 0, 0, 0, 0, 0, 0, 0, 0, 0, 0, 0, 0,
        ],
    },
    Row {
        kind: Kind::LongRead,
        confirm: true,
        mtu: 256,
        opt: CONNID,
        length: 700,
        pieces: &[(0, 0, 60)],
        last: &[
            0x81, 4, 8, 0x80, 3, 0, 0, 0, 0xbc, 2, 0, 0, 0, 0, 0, 0, 3, 0, 0, 0, 1, 0, 0, 0, 1, 0,
            0, 0, 0, 0, 0, 0, 5, 0, 0, 0, 0, 0, 0, 0, 0, 0, 0, 0, 0xbc, 2,
        ],
    },
];

/// The offset and the bytes that a packet carries.
fn piece_of(packet: &Packet) -> (u64, &[u8]) {
    let Packet::Rtm { form, .. } = packet else {
        return (0, &[]);
    };
    match form {
        Form::Eager { bytes } | Form::LongCts { bytes, .. } => (0, bytes.as_slice()),
        Form::Medium { offset, bytes, .. } | Form::Runt { offset, bytes, .. } => {
            (*offset, bytes.as_slice())
        }
        Form::LongRead { .. } => (0, &[]),
    }
}

/// The packet as it is spelled.
fn spelled(rt: &impl Abort, alloc: Global, packet: &Packet) -> Result<Vec<u8>, NoMemory> {
    let mut to = Vec::new(alloc);
    assert!(rt; packet.fits());
    packet.write(&mut to)?;
    Ok(to)
}

/// The next packet, made twice from the bytes at its span as after a push that was refused, and
/// given then.
fn steps(
    rt: &impl Abort,
    alloc: Global,
    cursor: &mut Cursor,
    limits: &EpLimits,
    message: &Message,
    bytes: &[u8],
) -> Result<(Span, Packet), NoMemory> {
    assert!(rt; limits.mtu >= 256 && message.iov.as_slice().len() <= 4);
    let total = bytes.len() as u64;
    let span = cursor
        .span(limits, message, total)
        .expect(rt, "a packet is left");
    let end = span.offset + span.length;
    let piece = &bytes[span.offset as usize..end as usize];
    let refused = cursor
        .packet(alloc, limits, message, total, piece)?
        .expect(rt, "a packet is left");
    let pushed = cursor
        .packet(alloc, limits, message, total, piece)?
        .expect(rt, "the same packet is left");
    let before = spelled(rt, alloc, &refused)?;
    let after = spelled(rt, alloc, &pushed)?;
    assert_eq!(rt; before.as_slice(), after.as_slice());
    cursor.step();
    Ok((span, pushed))
}

/// The row's packets are given, by `next` and by steps alike, and then nothing.
fn gives_pieces(rt: &impl Abort, alloc: Global, row: &Row) -> Result<(), NoMemory> {
    let bytes = content(alloc, row.length)?;
    let total = row.length as u64;
    let message = message(rt, 3, 1, row.confirm, row.opt, row.kind, total);
    let limits = limits(row.mtu);
    assert!(rt; limits.mtu >= 256 && message.iov.as_slice().len() <= 4);
    let mut rest = bytes.as_slice();
    let mut cursor = Cursor::new();
    let mut stepping = Cursor::new();
    let mut last = Vec::new(alloc);
    let mut left = row.pieces.len();
    for piece in row.pieces {
        let (offset, count, size) = *piece;
        assert_eq!(rt; stepping.is_last(&limits, &message, total), left == 1);
        assert!(rt; !stepping.is_done(&limits, &message, total));
        left = left.saturating_sub(1);
        let packet = cursor
            .next(alloc, &limits, &message, &bytes)?
            .expect(rt, "a packet is left");
        let (at, carried) = piece_of(&packet);
        assert_eq!(rt; (at, carried.len()), (offset, count));
        rest = rest
            .strip_prefix(carried)
            .expect(rt, "they follow each other");
        last = spelled(rt, alloc, &packet)?;
        assert_eq!(rt; last.len(), size);
        let (span, same) = steps(rt, alloc, &mut stepping, &limits, &message, &bytes)?;
        assert_eq!(rt; (span.offset, span.length), (offset, count as u64));
        let spelled = spelled(rt, alloc, &same)?;
        assert_eq!(rt; spelled.as_slice(), last.as_slice());
        assert!(rt; stepping == cursor);
    }
    assert!(rt; last.starts_with(row.last));
    assert!(rt; cursor.next(alloc, &limits, &message, &bytes)?.is_none());
    assert!(rt; cursor.next(alloc, &limits, &message, &bytes)?.is_none());
    assert!(rt; stepping.is_done(&limits, &message, total));
    assert!(rt; !stepping.is_last(&limits, &message, total));
    assert!(rt; stepping.span(&limits, &message, total).is_none());
    assert!(rt;
        stepping
            .packet(alloc, &limits, &message, total, &[])?
            .is_none()
    );
    Ok(())
}

#[test]
fn parts_are_as_full_as_the_mtu_allows(rt: HostRuntime) -> Result<(), Fail> {
    let alloc = rt.alloc();
    for row in &ROWS {
        gives_pieces(&rt, alloc, row)?;
    }
    Ok(())
}
