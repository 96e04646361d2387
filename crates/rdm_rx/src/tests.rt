ghost use Rattle.std.specs.Prelude.{◌≡◌, IsTrue};
ghost use Rattle.rdm_pkt.specs.Grammar.{form_fits};
ghost use Rattle.rdm_rx.specs.Asking.{HeadFits};

use crate::{Asks, Receiving, end, grant, next_window};
use arrayvec::ArrayVec;
use rdm_hdr::Opt;
use rdm_num::{Connid, EpLimits, Head, Iov, IovEntry, Life, MsgNo, OpId, PortNo, Shape};
use rdm_pkt::{Form, Packet};
use rdm_wire::ReadAsk;
use std::process::Abort;

/// 3 MiB in two ranges of 1.5 MiB.
const RANGES: [IovEntry; 2] = [
    IovEntry {
        offset: 4_096,
        length: 1_572_864,
        key: 7,
    },
    IovEntry {
        offset: 0,
        length: 1_572_864,
        key: 9,
    },
];

/// Where a read begins, and the key, the offset, the length and the place of each ask.
const READS: [(u64, &[(u64, u64, u64, u64)]); 5] = [
    (
        0,
        &[
            (7, 4_096, 1_048_576, 0),
            (7, 1_052_672, 524_288, 1_048_576),
            (9, 0, 1_048_576, 1_572_864),
            (9, 1_048_576, 524_288, 2_621_440),
        ],
    ),
    (
        65_536,
        &[
            (7, 69_632, 1_048_576, 65_536),
            (7, 1_118_208, 458_752, 1_114_112),
            (9, 0, 1_048_576, 1_572_864),
            (9, 1_048_576, 524_288, 2_621_440),
        ],
    ),
    (
        1_572_864,
        &[
            (9, 0, 1_048_576, 1_572_864),
            (9, 1_048_576, 524_288, 2_621_440),
        ],
    ),
    (3_145_727, &[(9, 1_572_863, 1, 3_145_727)]),
    (3_145_728, &[]),
];

/// The read list of those ranges.
fn read_list(rt: &impl Abort) -> Iov {
    let mut ranges = ArrayVec::<IovEntry, 4>::new();
    for range in RANGES {
        assert!(rt; ranges.try_push(range).is_ok());
    }
    Iov::from_array_vec(ranges).expect(rt, "there is a range")
}

/// The packet that opens a message in those ranges.
fn opener(rt: &impl Abort) -> Packet {
    Packet::Rtm {
        no: MsgNo(0),
        tag: None,
        confirm: false,
        opt: Opt {
            raw: None,
            cq_data: None,
            connid: Some(5),
        },
        form: Form::LongRead {
            msg_length: 3_145_728,
            send_id: OpId(2),
            iov: read_list(rt),
        },
    }
}

/// The asks for what a packet opens, from that byte on.
#[tactic(auto, unfolding(rdm_pkt::specs::Grammar::packet_fits))]
fn asks_for(rt: &impl Abort, packet: &Packet, from: u64) -> Asks {
    assert!(rt; packet.fits());
    match packet {
        Packet::Rtm { form, .. } => asks_in(rt, form, from),
        _ => panic!(rt; "it opens a message"),
    }
}

/// The asks for a message of that form, from that byte on.
fn asks_in(rt: &impl Abort, form: &Form, from: u64) -> Asks
    requires { IsTrue (form_fits form.now) }
{
    match form {
        Form::LongRead {
            msg_length,
            send_id,
            iov,
        } => {
            assert!(rt; *msg_length == 3_145_728);
            Asks::new(*send_id, OpId(3), iov, from)
        }
        _ => panic!(rt; "it is read"),
    }
}

#[test]
fn a_read_asks_for_each_range_in_turn(rt: HostRuntime) {
    let packet = opener(&rt);
    for (from, wanted) in READS {
        let mut asks = asks_for(&rt, &packet, from);
        for (key, offset, length, at) in wanted {
            assert!(rt; !asks.is_done());
            let ask = ReadAsk {
                send_id: OpId(2),
                recv_id: OpId(3),
                key: *key,
                offset: *offset,
                length: *length,
                at: *at,
            };
            assert!(rt; asks.first() == Some(ask), "from {from} at {at}");
            asks.step();
        }
        assert!(rt; asks.is_done());
        asks.step();
        assert!(rt; asks.first().is_none());
    }
}

const LIMITS: EpLimits = EpLimits {
    mtu: 8_192,
    medium: 65_536,
    read_limit: 1_048_576,
    runt: 0,
    credits: 16,
    first: 0,
    tx: 64,
    rx: 64,
    early: 64,
    cq: 128,
};

/// So many granted bytes of a message of 200,000, and the next window of 16 packets.
const WINDOWS: [(u64, u64); 4] = [
    (0, 130_624),
    (8_000, 130_624),
    (138_624, 61_376),
    (200_000, 0),
];

/// What is known of a message of that shape.
fn head(confirm: bool, length: u64, shape: Shape) -> Head
    ensures { result.shape ≡ shape }
{
    Head {
        tag: None,
        confirm,
        cq_data: None,
        length,
        shape,
    }
}

/// A message whose sender asks for 16 packets at once.
#[tactic(auto, unfolding(crate::specs::Asking::read_list_in))]
fn granted(confirm: bool) -> Head
    ensures { HeadFits result }
{
    let shape = Shape::LongCts {
        send_id: OpId(2),
        credits: 16,
    };
    head(confirm, 200_000, shape)
}

/// How many bytes a packet grants from receive 3 of the life 6 to send 2.
fn size_granted(packet: &Option<Packet>) -> u64 {
    match packet {
        Some(
            Packet::Cts {
                send_id: OpId(2),
                recv_id: OpId(3),
                recv_length,
                connid: Connid(6),
            },
        ) => *recv_length,
        _ => 0,
    }
}

#[test]
fn a_window_is_as_long_as_the_credits(rt: HostRuntime) {
    let head = granted(false);
    for (before, wanted) in WINDOWS {
        let size = next_window(&LIMITS, &head, before);
        assert!(rt; size == wanted, "after {before}");
        let packet = grant(Connid(6), &head, OpId(3), size);
        assert!(rt; packet.is_some() == (wanted > 0));
        assert!(rt; size_granted(&packet) == wanted);
    }
}

#[test]
fn a_whole_message_waits_for_no_grant(rt: HostRuntime) {
    let head = head(false, 5, Shape::Eager);
    assert!(rt; next_window(&LIMITS, &head, 0) == 0);
    assert!(rt; grant(Connid(6), &head, OpId(3), 5).is_none());
}

/// A life of port 1.
fn life(connid: u32) -> Life {
    Life {
        port: PortNo(1),
        connid: Connid(connid),
    }
}

/// How many bytes are granted before a call, whether all of them landed, and how many it grants.
const GRANTS: [(u64, bool, u64); 5] = [
    (8_000, false, 0),
    (8_000, true, 130_624),
    (138_624, false, 0),
    (138_624, true, 61_376),
    (200_000, true, 0),
];

#[test]
fn a_receive_grants_its_message_in_a_row(rt: HostRuntime) {
    let mut receiving = Receiving::new(life(5), MsgNo(4), OpId(3), granted(true), 8_000);
    assert!(rt; receiving.source() == life(5) && receiving.number() == MsgNo(4));
    assert!(rt; receiving.is_of(life(5), MsgNo(4)) && !receiving.is_of(life(6), MsgNo(4)));
    assert!(rt; !receiving.is_of(life(5), MsgNo(5)) && receiving.asks().is_none());
    for (before, landed, wanted) in GRANTS {
        assert!(rt; !receiving.passes_grants(before), "at {before}");
        assert!(rt; receiving.passes_grants(before.saturating_add(1)));
        assert!(rt; receiving.next_window(&LIMITS, landed) == wanted);
        let packet = receiving.grant_next(Connid(6), &LIMITS, landed);
        assert!(rt; size_granted(&packet) == wanted, "at {before}");
    }
    assert!(rt; receiving.head().length == 200_000);
    assert!(rt; is_receipt(&receiving.end(Connid(6))));
}

/// The packet ends the read of send 2 by receive 3 of the life 6.
fn is_end_of_read(packet: &Option<Packet>) -> bool {
    matches!(
        packet,
        Some(Packet::Eor {
            send_id: OpId(2),
            recv_id: OpId(3),
            connid: Connid(6),
        })
    )
}

/// The packet says that the life 6 received message 4.
fn is_receipt(packet: &Option<Packet>) -> bool {
    matches!(
        packet,
        Some(Packet::Receipt {
            no: MsgNo(4),
            connid: Connid(6),
        })
    )
}

#[test]
fn a_read_ends_with_its_end(rt: HostRuntime) {
    let long = Shape::LongRead {
        send_id: OpId(2),
        iov: read_list(&rt),
    };
    let runt = Shape::Runt {
        send_id: OpId(2),
        iov: read_list(&rt),
        runt_length: 65_536,
    };
    let long = head(false, 3_145_728, long);
    let runt = head(false, 3_145_728, runt);
    assert!(rt; is_end_of_read(&end(Connid(6), &long, MsgNo(4), OpId(3))));
    assert!(rt; is_end_of_read(&end(Connid(6), &runt, MsgNo(4), OpId(3))));
}

#[test]
fn a_confirmed_message_has_a_receipt(rt: HostRuntime) {
    assert!(rt; is_receipt(&end(Connid(6), &granted(true), MsgNo(4), OpId(3))));
    assert!(rt; end(Connid(6), &granted(false), MsgNo(4), OpId(3)).is_none());
}
