use rdm_num::{Connid, EpLimits, NoMemory, OpId};
use rdm_tx::Granted;
use std::alloc::Global;
use std::process::Abort;
use std::test::Fail;

/// The length of the message, and how many bytes open it.
const LENGTH: u64 = 700;

const FIRST: u64 = 188;

/// What comes for the message, and what goes out.
#[derive(Clone, Copy)]
enum Move {
    /// A receive grants so many bytes.
    Grant(u32, u64),
    /// A receive may not grant so many bytes.
    Wrong(u32, u64),
    /// The next packet has that offset and length, and begins with these headers.
    Push(u64, u64, &'static [u8]),
    /// No packet is next.
    Wait,
}

const MOVES: [Move; 14] = [
    Move::Wait,
    Move::Wrong(7, 513),
    Move::Grant(7, 0),
    Move::Wait,
    Move::Wrong(8, 300),
    Move::Grant(7, 300),
    Move::Wrong(7, 213),
    Move::Push(
        188,
        228,
        &[
            4, 4, 0, 0x80, 7, 0, 0, 0, 228, 0, 0, 0, 0, 0, 0, 0, 188, 0, 0, 0, 0, 0, 0, 0, 5, 0, 0,
            0, 188, 189,
        ],
    ),
    Move::Grant(7, 10),
    Move::Push(
        416,
        82,
        &[
            4, 4, 0, 0x80, 7, 0, 0, 0, 82, 0, 0, 0, 0, 0, 0, 0, 0xa0, 1, 0, 0, 0, 0, 0, 0, 5, 0, 0,
            0, 165, 166,
        ],
    ),
    Move::Wait,
    Move::Grant(7, 202),
    Move::Push(
        498,
        202,
        &[
            4, 4, 0, 0x80, 7, 0, 0, 0, 202, 0, 0, 0, 0, 0, 0, 0, 0xf2, 1, 0, 0, 0, 0, 0, 0, 5, 0,
            0, 0, 247, 248,
        ],
    ),
    Move::Wait,
];

/// The mtu has room for 228 bytes beside the headers.
const LIMITS: EpLimits = EpLimits {
    mtu: 256,
    medium: 65_536,
    read_limit: 1_048_576,
    runt: 0,
    credits: 2,
    first: 0,
    tx: 64,
    rx: 64,
    early: 64,
    cq: 128,
};

/// Bytes that differ from their neighbours.
fn content(alloc: Global) -> Result<Vec<u8>, NoMemory> {
    let mut bytes = Vec::new(alloc);
    for place in 0..LENGTH {
        bytes.push((place % 251) as u8)?;
    }
    Ok(bytes)
}

/// The packet of the bytes at the span that is next, as it is spelled.
fn spelled(
    rt: &impl Abort,
    alloc: Global,
    granted: &Granted,
    bytes: &[u8],
) -> Result<Vec<u8>, NoMemory> {
    let span = granted.span(&LIMITS).expect(rt, "a packet is next");
    let rest = bytes.get(span.offset as usize..).expect(rt, "it is within");
    let piece = rest.get(..span.length as usize).expect(rt, "it is within");
    let packet = granted.packet(alloc, Connid(5), piece)?;
    assert!(rt; packet.fits());
    let mut to = Vec::new(alloc);
    packet.write(&mut to)?;
    Ok(to)
}

/// The packet is made twice, as after a push that was refused, and goes out.
fn pushes(
    rt: &impl Abort,
    alloc: Global,
    granted: &mut Granted,
    bytes: &[u8],
    wanted: (u64, u64, &[u8]),
) -> Result<(), NoMemory> {
    let (offset, length, headers) = wanted;
    let span = granted.span(&LIMITS).expect(rt, "a packet is next");
    assert_eq!(rt; (span.offset, span.length), (offset, length));
    let refused = spelled(rt, alloc, granted, bytes)?;
    let pushed = spelled(rt, alloc, granted, bytes)?;
    assert_eq!(rt; refused.as_slice(), pushed.as_slice());
    assert!(rt; pushed.starts_with(headers));
    assert_eq!(rt; (pushed.len() as u64).checked_sub(28), Some(length));
    granted.step(&LIMITS);
    Ok(())
}

#[test]
fn granted_bytes_are_pushed_once(rt: HostRuntime) -> Result<(), Fail> {
    let alloc = rt.alloc();
    let bytes = content(alloc)?;
    let mut granted = Granted::new(LENGTH, FIRST);
    for next in MOVES {
        match next {
            Move::Grant(recv, size) => {
                assert!(rt; granted.may_grant(OpId(recv), size));
                granted.grant(OpId(recv), size);
            }
            Move::Wrong(recv, size) => assert!(rt; !granted.may_grant(OpId(recv), size)),
            Move::Push(offset, length, headers) => {
                assert!(rt; !granted.is_sent());
                pushes(&rt, alloc, &mut granted, &bytes, (offset, length, headers))?;
            }
            Move::Wait => assert!(rt; granted.span(&LIMITS).is_none()),
        }
    }
    assert!(rt; granted.is_sent());
    Ok(())
}
