use crate::{Own, Place, Sending, given_span};
use rdm_num::{
    Connid, EpLimits, Life, MsgNo, NoMemory, OpId, Parts, PortNo, RegionNo, SendReq, Span,
};
use rdm_wire::ReadAsk;
use std::alloc::Global;
use std::process::Abort;
use std::test::Fail;

const LIMITS: EpLimits = EpLimits {
    mtu: 256,
    medium: 600,
    read_limit: 2_000,
    runt: 300,
    credits: 2,
    first: 0,
    tx: 64,
    rx: 64,
    early: 64,
    cq: 128,
};

/// How many bytes a message has, the features of its life, what is known of those of the other side,
/// whether it asks for a receipt, where the bytes of each packet stand that opens it, and whether the
/// last of these ends it.
type Case = (u64, u64, Option<u64>, bool, &'static [(u64, u64)], bool);

/// One of each kind, at its least and its greatest length.
const CASES: [Case; 11] = [
    (0, 0, Some(0), false, &[(0, 0)], true),
    (244, 0, Some(0), false, &[(0, 244)], true),
    (244, 0, Some(0), true, &[(0, 244)], false),
    (212, 0, None, false, &[(0, 212)], true),
    (213, 0, None, false, &[(0, 196), (196, 17)], true),
    (245, 0, Some(0), false, &[(0, 228), (228, 17)], true),
    (
        600,
        0,
        Some(0),
        false,
        &[(0, 228), (228, 228), (456, 144)],
        true,
    ),
    (601, 0, Some(0), false, &[(0, 228)], false),
    (2_000, 1, Some(1), false, &[(0, 0)], false),
    (1_999, 1, Some(1), false, &[(0, 228)], false),
    (2_000, 17, Some(17), false, &[(0, 188), (188, 112)], false),
];

const OWN: Life = Life {
    port: PortNo(0),
    connid: Connid(5),
};

/// The life that a send goes to.
const TO: Life = Life {
    port: PortNo(1),
    connid: Connid(6),
};

/// A send of so many bytes, between these features and those.
fn sending(
    alloc: Global,
    total: u64,
    features: u64,
    known: Option<u64>,
    confirm: bool,
) -> Result<Sending, NoMemory> {
    let own = Own {
        life: OWN,
        features,
        limits: LIMITS,
    };
    let place = Place {
        to: TO,
        known,
        number: OpId(7),
        no: MsgNo(3),
    };
    let req = SendReq {
        to: PortNo(1),
        parts: Parts::one(Span {
            region: RegionNo(2),
            at: 40,
            len: total,
        }),
        tag: None,
        cq_data: None,
        confirm,
    };
    Sending::new(alloc, &own, &place, &req)
}

/// How many bytes the next packet is spelled in.
fn spelled(
    rt: &impl Abort,
    alloc: Global,
    sending: &Sending,
    bytes: &[u8],
) -> Result<u64, NoMemory> {
    let span = sending.span(&LIMITS).expect(rt, "a packet is next");
    let rest = bytes.get(span.offset as usize..).expect(rt, "it is within");
    let piece = rest.get(..span.length as usize).expect(rt, "it is within");
    assert!(rt; piece.len() as u64 == span.length);
    let packet = sending.packet(alloc, OWN.connid, &LIMITS, piece)?;
    let packet = packet.expect(rt, "a packet is next");
    assert!(rt; packet.fits());
    let mut to = Vec::new(alloc);
    packet.write(&mut to)?;
    Ok(to.len() as u64)
}

/// The openings of a send are pushed in turn.
fn opens(rt: &impl Abort, sending: &mut Sending, spans: &[(u64, u64)], ends: bool) {
    for (offset, length) in spans {
        assert!(rt; sending.has_next(&LIMITS) && !sending.is_over(&LIMITS));
        let span = sending.span(&LIMITS).expect(rt, "a packet is next");
        assert_eq!(rt; (span.offset, span.length), (*offset, *length));
        sending.step(&LIMITS);
    }
    assert!(rt; !sending.has_next(&LIMITS));
    assert!(rt; sending.is_over(&LIMITS) == ends);
}

#[test]
fn each_kind_opens_by_its_packets(rt: HostRuntime) -> Result<(), Fail> {
    let alloc = rt.alloc();
    for (total, features, known, confirm, spans, ends) in CASES {
        let mut sending = sending(alloc, total, features, known, confirm)?;
        assert_eq!(rt; sending.total(), total);
        assert!(rt; sending.is_to(TO) && !sending.is_to(OWN) && sending.number() == OpId(7));
        assert!(rt; sending.message_number() == MsgNo(3));
        assert!(rt; sending.is_confirmed() == confirm);
        opens(&rt, &mut sending, spans, ends);
        assert!(rt; !confirm || sending.is_sent(&LIMITS));
    }
    Ok(())
}

/// The sizes of the packets of 600 bytes, of which each has 28 bytes of headers.
const SIZES: [u64; 3] = [256, 256, 172];

#[test]
fn each_packet_has_the_bytes_at_its_span(rt: HostRuntime) -> Result<(), Fail> {
    let alloc = rt.alloc();
    let mut bytes = Vec::new(alloc);
    for place in 0..600_u64 {
        bytes.push((place % 251) as u8)?;
    }
    let mut sending = sending(alloc, 600, 0, Some(0), false)?;
    for size in SIZES {
        assert_eq!(rt; spelled(&rt, alloc, &sending, &bytes)?, size);
        sending.step(&LIMITS);
    }
    Ok(())
}

/// What comes for a send that is granted, or goes out of it.
#[derive(Clone, Copy)]
enum Move {
    /// A receive grants so many bytes.
    Grant(u32, u64),
    /// A receive may not grant so many bytes.
    Wrong(u32, u64),
    /// The next packet's bytes stand there.
    Push(u64, u64),
    /// Nothing is to be pushed.
    Wait,
}

/// 700 bytes, of which 228 open the message.
const MOVES: [Move; 13] = [
    Move::Push(0, 228),
    Move::Wait,
    Move::Wrong(4, 473),
    Move::Grant(4, 300),
    Move::Wrong(5, 100),
    Move::Wrong(4, 173),
    Move::Push(228, 228),
    Move::Push(456, 72),
    Move::Wait,
    Move::Grant(4, 172),
    Move::Push(528, 172),
    Move::Wait,
    Move::Wrong(4, 1),
];

#[test]
fn granted_bytes_follow_the_openings(rt: HostRuntime) -> Result<(), Fail> {
    let alloc = rt.alloc();
    let mut sending = sending(alloc, 700, 0, Some(0), false)?;
    for next in MOVES {
        match next {
            Move::Grant(recv, size) => {
                assert!(rt; sending.may_grant(OpId(recv), size) && !sending.is_over(&LIMITS));
                sending.grant(OpId(recv), size);
            }
            Move::Wrong(recv, size) => assert!(rt; !sending.may_grant(OpId(recv), size)),
            Move::Push(offset, length) => {
                let span = sending.span(&LIMITS).expect(&rt, "a packet is next");
                assert_eq!(rt; (span.offset, span.length), (offset, length));
                sending.step(&LIMITS);
            }
            Move::Wait => assert!(rt; !sending.has_next(&LIMITS)),
        }
    }
    assert!(rt; sending.is_over(&LIMITS));
    Ok(())
}

/// An ask for so many bytes from there on, in the range that begins at 40.
fn ask_for(at: u64, length: u64) -> ReadAsk {
    ReadAsk {
        send_id: OpId(7),
        recv_id: OpId(1),
        key: 2,
        offset: at.saturating_add(40),
        length,
        at,
    }
}

/// The bytes are asked for, where they may be.
fn asks(sending: &mut Sending, ask: &ReadAsk) -> Result<bool, NoMemory> {
    if !sending.may_ask(ask) {
        return Ok(false);
    }
    sending.reserve_ask()?;
    sending.ask(ask);
    Ok(true)
}

/// Asks of 2,000 bytes that are read from 300 on, and whether each may be.
const ASKS: [(u64, u64, bool); 7] = [
    (299, 10, false),
    (300, 1_000, true),
    (1_299, 10, false),
    (300, 0, false),
    (1_300, 701, false),
    (1_300, 700, true),
    (1_300, 1, false),
];

/// What wants memory in vain changes nothing, so it is tried again.
#[test]
fn each_byte_is_asked_for_once(rt: HostRuntime) -> Result<(), Fail> {
    let alloc = rt.alloc();
    let mut sending = sending(alloc, 2_000, 17, Some(17), true)?;
    assert!(rt; sending.is_read() && !sending.is_confirmed());
    for (at, length, may) in ASKS {
        assert!(rt; sending.is_early_end());
        let ask = ask_for(at, length);
        let asked = match asks(&mut sending, &ask) {
            Ok(asked) => asked,
            Err(_no_memory) => asks(&mut sending, &ask)?,
        };
        assert!(rt; asked == may, "at {at}");
        let span = given_span(&ask);
        assert_eq!(rt; (span.offset, span.length), (at, length));
    }
    Ok(())
}

/// A send that is not read takes no ask, and one that is not granted no grant.
#[test]
fn each_takes_what_its_protocol_has(rt: HostRuntime) -> Result<(), Fail> {
    let alloc = rt.alloc();
    let whole = sending(alloc, 100, 0, Some(0), false)?;
    assert!(rt; !whole.may_ask(&ask_for(0, 10)) && !whole.may_grant(OpId(1), 0));
    assert!(rt; !whole.is_early_end() && !whole.is_read() && !whole.is_granted());
    let granted = sending(alloc, 700, 0, Some(0), false)?;
    assert!(rt; !granted.may_ask(&ask_for(0, 10)) && granted.may_grant(OpId(1), 0));
    assert!(rt; granted.is_granted() && !granted.is_sent(&LIMITS));
    let read = sending(alloc, 2_000, 1, Some(1), false)?;
    assert!(rt; read.may_ask(&ask_for(0, 10)) && !read.may_grant(OpId(1), 0));
    Ok(())
}
