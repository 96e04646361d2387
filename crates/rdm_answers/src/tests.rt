ghost use Rattle.std.specs.Prelude.{◌<◌, IfSome, IsTrue, length};
ghost use Rattle.rdm_pkt.specs.Grammar.{form_fits};
ghost use Rattle.rdm_rx.specs.Left.{left};
ghost use Rattle.rdm_answers.specs.Answers.{has_item};

use crate::{Answer, Dues, First, Outgoing, Replies};
use arrayvec::ArrayVec;
use rdm_hdr::Opt;
use rdm_num::{Connid, Iov, IovEntry, Life, MsgNo, NoMemory, OpId, PortNo};
use rdm_pkt::{Form, Packet};
use rdm_rx::Asks;
use rdm_wire::ReadAsk;
use std::alloc::Global;
use std::process::Abort;
use std::test::Fail;

/// What is owed, and what goes out: a greeting with a raw address or without, an ask at a place of
/// the read, a grant of so many bytes, an end, a receipt, and an answer to the ask at a place.
#[derive(Clone, Copy, Debug, PartialEq, Eq)]
enum What {
    Greeting(Option<u32>),
    Ask(u64),
    Grant(u64),
    End,
    Receipt,
    Given(u64),
    /// What nothing here makes.
    Other,
}

use What::{Ask, End, Given, Grant, Greeting, Other, Receipt};

/// A call. Lives are named by their ports; what goes out stands beside the call that takes it.
#[derive(Clone, Copy)]
enum Call {
    Owe(u32, What),
    /// What a receive makes owed: whether it asks, how much it grants, and whether it ends.
    Receive(u32, bool, u64, bool),
    Out(Option<(u32, What)>),
    Forget(u32),
}

use Call::{Forget, Out, Owe, Receive};

const CALLS: [Call; 30] = [
    Out(None),
    Owe(1, Greeting(None)),
    Owe(2, Greeting(Some(9))),
    Receive(1, true, 0, false),
    Owe(2, Given(4_096)),
    Receive(3, false, 130_624, false),
    Out(Some((1, Greeting(None)))),
    Out(Some((2, Greeting(Some(9))))),
    Out(Some((1, Ask(0)))),
    Out(Some((1, Ask(1_048_576)))),
    Out(Some((2, Given(4_096)))),
    Receive(2, false, 61_376, true),
    Owe(2, Receipt),
    Out(Some((3, Grant(130_624)))),
    Out(Some((2, Grant(61_376)))),
    Out(Some((2, End))),
    Out(Some((2, Receipt))),
    Out(None),
    Receive(1, true, 0, true),
    Receive(2, true, 0, false),
    Receive(1, false, 0, false),
    Out(Some((1, Ask(0)))),
    Forget(1),
    Owe(2, Grant(8)),
    Out(Some((2, Ask(0)))),
    Out(Some((2, Ask(1_048_576)))),
    Forget(1),
    Out(Some((2, Grant(8)))),
    Out(None),
    Forget(2),
];

fn life(port: u32) -> Life {
    Life {
        port: PortNo(port),
        connid: Connid(5),
    }
}

/// The ask at a place of the read of send 2 by receive 3.
fn ask(at: u64) -> ReadAsk {
    ReadAsk {
        send_id: OpId(2),
        recv_id: OpId(3),
        key: 7,
        offset: at,
        length: 16,
        at,
    }
}

/// An answer of receive 3 or to send 2 that is one thing.
#[tactic(auto, unfolding(crate::specs::Answers::has_item))]
fn answer(rt: &impl Abort, what: What) -> Answer
    ensures { IsTrue (has_item result) }
{
    match what {
        Greeting(raw) => Answer::Greeting {
            raw: raw.map(PortNo),
        },
        Grant(size) => Answer::Grant {
            send_id: OpId(2),
            recv_id: OpId(3),
            size,
        },
        End => Answer::End {
            send_id: OpId(2),
            recv_id: OpId(3),
        },
        Receipt => Answer::Receipt { no: MsgNo(4) },
        Given(at) => Answer::Given(ask(at)),
        Ask(_) | Other => panic!(rt; "it is of a receive"),
    }
}

/// A packet that opens a message of 1.5 MiB, which is read.
fn opener(rt: &impl Abort) -> Packet {
    let mut ranges = ArrayVec::<IovEntry, 4>::new();
    let range = IovEntry {
        offset: 0,
        length: 1_572_864,
        key: 7,
    };
    assert!(rt; ranges.try_push(range).is_ok());
    Packet::Rtm {
        no: MsgNo(4),
        tag: None,
        confirm: false,
        opt: Opt {
            raw: None,
            cq_data: None,
            connid: Some(5),
        },
        form: Form::LongRead {
            msg_length: 1_572_864,
            send_id: OpId(2),
            iov: Iov::from_array_vec(ranges).expect(rt, "there is a range"),
        },
    }
}

/// The asks of that message.
#[tactic(auto, unfolding(rdm_pkt::specs::Grammar::packet_fits))]
fn asks(rt: &impl Abort) -> Asks {
    let packet = opener(rt);
    assert!(rt; packet.fits());
    match &packet {
        Packet::Rtm { form, .. } => asks_in(rt, form),
        _ => panic!(rt; "it opens a message"),
    }
}

/// The asks of a message of that form.
fn asks_in(rt: &impl Abort, form: &Form) -> Asks
    requires { IsTrue (form_fits form.now) }
{
    match form {
        Form::LongRead {
            msg_length,
            send_id,
            iov,
        } => {
            assert!(rt; *msg_length == 1_572_864);
            Asks::new(*send_id, OpId(3), iov, 0)
        }
        _ => panic!(rt; "it is read"),
    }
}

/// The asks that a receive has, if it has any.
fn some_asks(rt: &impl Abort, has_asks: bool) -> Option<Asks>
    ensures { IfSome result (λ a. 0 < length (left a)) }
{
    if !has_asks {
        return None;
    }
    let asks = asks(rt);
    assert!(rt; !asks.is_done());
    Some(asks)
}

fn grant(size: u64) -> Option<Packet> {
    (size > 0).then_some(Packet::Cts {
        send_id: OpId(2),
        recv_id: OpId(3),
        recv_length: size,
        connid: Connid(6),
    })
}

fn end(ends: bool) -> Option<Packet> {
    ends.then_some(Packet::Eor {
        send_id: OpId(2),
        recv_id: OpId(3),
        connid: Connid(6),
    })
}

/// What goes out, where it is of the life 6 with features 1.
fn seen(item: &Outgoing) -> What {
    match item {
        Outgoing::Packet(
            Packet::Handshake {
                words,
                connid: Connid(6),
                raw,
            },
        ) if words.as_slice() == [1].as_slice() => Greeting(raw.map(|port| port.0)),
        Outgoing::Packet(
            Packet::Cts {
                send_id: OpId(2),
                recv_id: OpId(3),
                recv_length,
                connid: Connid(6),
            },
        ) => Grant(*recv_length),
        Outgoing::Packet(
            Packet::Eor {
                send_id: OpId(2),
                recv_id: OpId(3),
                connid: Connid(6),
            },
        ) => End,
        Outgoing::Packet(
            Packet::Receipt {
                no: MsgNo(4),
                connid: Connid(6),
            },
        ) => Receipt,
        Outgoing::Ask(ask) => Ask(ask.at),
        Outgoing::Given(ask) => Given(ask.at),
        Outgoing::Packet(_) => Other,
    }
}

/// What goes out first; it looks once more where memory ran out.
fn first(alloc: Global, replies: &Replies) -> Result<Option<First>, NoMemory> {
    match replies.first(alloc, Connid(6), 1) {
        Ok(first) => Ok(first),
        Err(_) => replies.first(alloc, Connid(6), 1),
    }
}

/// Makes a call. It tries once more where memory ran out: one that fails leaves all as it was.
fn calls(
    rt: &impl Abort,
    alloc: Global,
    replies: &mut Replies,
    call: Call,
) -> Result<(), NoMemory> {
    match call {
        Owe(port, what) => {
            let answer = answer(rt, what);
            if replies.reserve(1).is_err() {
                replies.reserve(1)?;
            }
            replies.push(life(port), answer);
        }
        Receive(port, has_asks, size, ends) => {
            let dues = Dues {
                asks: some_asks(rt, has_asks),
                grant: grant(size),
                end: end(ends),
            };
            if replies.reserve(5).is_err() {
                replies.reserve(5)?;
            }
            replies.push_dues(life(port), dues);
            replies.give_back(2);
        }
        Out(wanted) => {
            let first = first(alloc, replies)?;
            let seen = first.map(|first| (first.to.port.0, seen(&first.item)));
            assert!(rt; seen == wanted);
            replies.sent();
        }
        Forget(port) => replies.forget(life(port)),
    }
    Ok(())
}

#[test]
fn answers_go_out_in_their_order(rt: HostRuntime) -> Result<(), Fail> {
    let mut replies = Replies::new(rt.alloc());
    for call in CALLS {
        calls(&rt, rt.alloc(), &mut replies, call)?;
    }
    Ok(())
}
