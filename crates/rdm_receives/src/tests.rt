ghost use Rattle.std.specs.Prelude.{◌≡◌, [], None, length, IfOk};
ghost use Rattle.rdm_land.specs.Landed.{Keeps};
ghost use Rattle.rdm_rx.specs.Asking.{HeadFits};

use crate::{Receive, loans_law};
use rdm_gaps::Gaps;
use rdm_land::lending_law;
use rdm_mr::{Block, release};
use rdm_num::{
    Connid, EpLimits, Head, Life, MsgNo, NoMemory, OpId, PortNo, RecvReq, RegionNo, Shape,
};
use rdm_pkt::Packet;
use std::alloc::{AllocError, Global};
use std::test::Fail;

/// A receive of five bytes.
const FIVE: RecvReq = RecvReq {
    from: None,
    region: RegionNo(0),
    at: 0,
    len: 5,
    want: None,
};

/// The life that sends.
const SENDER: Life = Life {
    port: PortNo(1),
    connid: Connid(5),
};

/// A packet of granted bytes has four of them.
const LIMITS: EpLimits = EpLimits {
    mtu: 32,
    medium: 65_536,
    read_limit: 1_048_576,
    runt: 0,
    credits: 1,
    first: 0,
    tx: 4,
    rx: 4,
    early: 4,
    cq: 8,
};

/// A receive of five bytes that waits for its message, over a block of five dots.
fn waiting(alloc: Global) -> Result<Receive, NoMemory>
    ensures message { IfOk result (λ r. r.message ≡ None) }
    ensures lent { IfOk result (λ r. r.landed.lent ≡ []) }
    ensures start { IfOk result (λ r. r.landed.tiles.start ≡ 0) }
    ensures whole { IfOk result (λ r. length r.landed.tiles.cells ≡ r.landed.tiles.whole) }
{
    let part = Block::make(alloc, b".....")?;
    match Receive::new(alloc, OpId(3), None, FIVE, part) {
        Ok(receive) => Ok(receive),
        Err(part) => {
            release(part);
            Err(AllocError)
        }
    }
}

/// What is known of a message of nine bytes that is sent in that shape, and confirmed.
fn head(shape: Shape) -> Head
    ensures shape { result.shape ≡ shape }
    ensures long { result.length ≡ 9 }
{
    Head {
        tag: None,
        confirm: true,
        cq_data: None,
        length: 9,
        shape,
    }
}

/// A message of nine bytes that comes in segments.
#[tactic(auto, unfolding(rdm_rx::specs::Asking::read_list_in))]
fn medium() -> Head
    ensures fits { HeadFits result }
    ensures long { result.length ≡ 9 }
{
    head(Shape::Medium)
}

/// A message of nine bytes of which the receiver grants one packet at a time.
#[tactic(auto, unfolding(rdm_rx::specs::Asking::read_list_in))]
fn granted() -> Head
    ensures fits { HeadFits result }
    ensures long { result.length ≡ 9 }
{
    head(Shape::LongCts {
        send_id: OpId(2),
        credits: 1,
    })
}

/// Fills the range if it is missing and nothing of it is lent, and tells whether it did.
fn fill(receive: &mut Receive, at: u64, bytes: &[u8]) -> bool
    ensures { Keeps receive.old.landed receive.new.landed }
{
    let len = bytes.len() as u64;
    if !(receive.is_missing(at, len) && receive.is_free(at, len)) {
        return false;
    }
    match receive.reserve_fill() {
        Ok(()) => {
            loans_law();
            receive.fill(at, bytes);
            true
        }
        Err(_error) => false,
    }
}

/// The receive ends with these bytes, which its region has then, and four more that have no place.
fn ends_with(receive: Receive, bytes: &[u8]) -> bool
    requires lent { receive.landed.lent ≡ [] }
    requires start { receive.landed.tiles.start ≡ 0 }
    requires whole { length receive.landed.tiles.cells ≡ receive.landed.tiles.whole }
{
    let excess = receive.excess();
    let shown = receive.bytes() == bytes;
    let part = receive.into_part();
    let written = part.bytes() == bytes;
    release(part);
    excess == 4 && shown && written
}

/// Pieces of a message of nine bytes, in the order in which they come, and whether each was missing.
const PIECES: [(u64, &[u8], bool); 8] = [
    (4, b"efg", true),
    (6, b"g", false),
    (8, b"ij", false),
    (0, b"ab", true),
    (7, b"hi", true),
    (0, b"abc", false),
    (2, b"cd", true),
    (9, b"", true),
];

/// Each piece is filled or refused as the table says, and the receive is full after the last.
fn are_filled(receive: &mut Receive) -> bool
    ensures { Keeps receive.old.landed receive.new.landed }
{
    let mut right = !receive.is_full();
    for (at, bytes, missing) in PIECES {
        right = right & (fill(receive, at, bytes) == missing);
    }
    right & receive.is_full()
}

#[test]
fn pieces_come_in_any_order(rt: HostRuntime) -> Result<(), Fail> {
    let gaps = Gaps::whole(rt.alloc(), 9)?;
    let mut receive = waiting(rt.alloc())?;
    receive.take_message(SENDER, MsgNo(7), medium(), gaps, b"---------", 0);
    let filled = are_filled(&mut receive);
    let ended = ends_with(receive, b"abcde");
    assert!(rt; filled && ended);
    Ok(())
}

/// Pieces of a message of nine bytes whose first two came early, and how many bytes are granted once
/// each came.
const GRANTS: [(u64, &[u8], u64); 5] = [
    (2, b"", 4),
    (4, b"ef", 0),
    (2, b"cd", 3),
    (8, b"i", 0),
    (6, b"gh", 0),
];

/// How many bytes a packet of the life 6 grants from receive 3 to send 2.
fn size_granted(packet: &Option<Packet>) -> u64 {
    match packet {
        Some(
            Packet::Cts {
                send_id: OpId(2),
                recv_id: OpId(3),
                recv_length,
                connid: Connid(6),
            },
        ) => *recv_length,
        _ => 0,
    }
}

/// Each piece makes the grant that the table says, and the last one ends the message with a receipt.
fn are_granted(receive: &mut Receive) -> bool
    ensures { Keeps receive.old.landed receive.new.landed }
{
    let mut right = true;
    for (at, bytes, wanted) in GRANTS {
        let unended = receive.end(Connid(6)).is_none();
        let filled = fill(receive, at, bytes);
        let packet = receive.grant_next(Connid(6), &LIMITS);
        right = right & unended & filled & (size_granted(&packet) == wanted);
    }
    let receipt = receive.end(Connid(6));
    right
        & matches!(
            receipt,
            Some(Packet::Receipt {
                no: MsgNo(7),
                connid: Connid(6),
            })
        )
}

#[test]
fn an_early_message_is_granted_in_windows(rt: HostRuntime) -> Result<(), Fail> {
    let mut gaps = Gaps::whole(rt.alloc(), 9)?;
    let _early = gaps.take(0, 2)?;
    let mut receive = waiting(rt.alloc())?;
    receive.take_message(SENDER, MsgNo(7), granted(), gaps, b"ab-------", 2);
    let granted = are_granted(&mut receive);
    let ended = ends_with(receive, b"abcde");
    assert!(rt; granted && ended);
    Ok(())
}

/// Fills a range while its part is lent, and tells whether that range waited all the while and could
/// not be filled by others.
fn fill_lent(receive: &mut Receive) -> bool
    ensures { Keeps receive.old.landed receive.new.landed }
{
    match receive.lend(3, 4) {
        Ok(Some(mut part)) => {
            lending_law();
            let waits = receive.is_missing(2, 3) & receive.only_lent(2, 3);
            let refused = !receive.is_free(2, 2) & receive.is_free(2, 1);
            part.bytes_mut().fill(b'x');
            receive.land(3, 4, part);
            waits & refused
        }
        Ok(None) => false,
        Err(_error) => false,
    }
}

#[test]
fn a_lent_range_is_filled_by_none_but_its_part(rt: HostRuntime) -> Result<(), Fail> {
    let gaps = Gaps::whole(rt.alloc(), 9)?;
    let mut receive = waiting(rt.alloc())?;
    receive.take_message(SENDER, MsgNo(7), medium(), gaps, b"---------", 0);
    let lent = fill_lent(&mut receive);
    let again = fill(&mut receive, 4, b"e");
    let front = fill(&mut receive, 0, b"abc");
    let rest = fill(&mut receive, 7, b"hi");
    let full = receive.is_full();
    let ended = ends_with(receive, b"abcxx");
    assert!(rt; lent && !again && front && rest && full && ended);
    Ok(())
}
