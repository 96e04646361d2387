use rdm_model::{
    Act, Class, DidWhat, End, Ends, Entered, Entry, Handled, History, Next, OpName, PoolName,
    Report, Why, Yet,
};
use rdm_num::{
    Bytes, Completion, Connid, DatagramNo, Life, MsgNo, OpId, Outcome, PortNo, RecvNo, RegionNo,
    SendNo, Stamp,
};
use rdm_report::text;
use rdm_wire::{Body, Datagram, Load, NoteBody, ReadAsk, ReadData};
use std::alloc::{AllocError, Global};
use std::test::Fail;

// A line for each form of entry and of rank.
const LINES: &str = "rdm report 1
status stuck
entries 22
1 0 next 0 open did
2 0 next 1 reg did 2
3 0 next 2 recv did 3
4 0 next 3 send did 4 msg 5
5 0 next 4 cancel refused NotPosted
6 0 push 0 to 1 note opened 5
7 0 push 1 to 1 note 9
8 0 push 2 to 1.7 packet 0 -
9 0 push 3 to 1.7 ask send 1 recv 2 key 3 offset 4 length 5 at 6
10 0 push 4 to 1.7 data recv 2 at 6 length 3 616263
11 0 handle 1 0 took
12 0 handle 1 1 took enters 0 3
13 0 handle 1 2 dropped ToOther
14 0 poll send 4 ok
15 0 poll send 4 gone
16 0 poll recv 3 cancelled
17 0 poll recv 3 gone
18 0 poll recv 3 ok from 1.7 tag 8 data - length 0 -
19 0 poll recv 3 truncated from 1.7 tag - data 9 length 2 excess 4 6869
20 0 push 5 to 1.7 packet 64 61616161616161616161616161616161616161616161616161616161616161616161616161616161616161616161616161616161616161616161616161616161
21 0 push 6 to 1.7 packet 112 sha256:cf5b16a778af8380036ce59e7b0492370b249b11e8f07a51afac45037afee9d1
22 0 next 5 send refused NoConfirm
rank 0 done 4 of 4 dropped 1 2 waiting 3
rank 1 stuck 3 of 4 NotYet Wait 0 1 dropped 0 0 waiting 0
rank 2 stuck 1 of 5 NotYet Opened dropped 0 0 waiting 1
rank 3 stuck 1 of 2 NotYet Await dropped 0 0 waiting 0
rank 4 stuck 1 of 2 NotYet Parts 6 dropped 0 0 waiting 0
rank 5 stuck 3 of 4 Again Rx dropped 0 0 waiting 0
rank 6 stuck 1 of 4 Worn dropped 0 0 waiting 1
rank 7 stuck 4 of 9 NotYet Handshake dropped 0 0 waiting 0
end
";

// The message of 112 bytes among the examples of the standard that defines SHA-256.
const STANDARD: &str =
    "abcdefghbcdefghicdefghijdefghijkefghijklfghijklmghijklmnhijklmnoijklmnopjklmnopqklmnopqrlmnopqrsmnopqrstnopqrstu";

fn next(index: u64, op: OpName, answer: Next) -> Act {
    Act::Next { index, op, answer }
}

fn datagram(port: u32, number: u64, body: Body) -> Datagram {
    Datagram {
        src: PortNo(port),
        number: DatagramNo(number),
        stamp: Stamp(0),
        dst: PortNo(1 - port.min(1)),
        body,
    }
}

fn push(number: u64, body: Body) -> Act {
    Act::Push {
        datagram: datagram(0, number, body),
    }
}

fn between(load: Load) -> Body {
    Body::Between {
        from: Connid(5),
        to: Connid(7),
        load,
    }
}

fn handle(number: u64, answer: Handled) -> Act {
    Act::Handle {
        datagram: datagram(1, number, Body::Note(NoteBody::Said(0))),
        answer,
    }
}

fn send_end(gone: bool) -> Act {
    let completion = Completion::Send {
        send: SendNo(4),
        gone,
    };
    Act::Poll { completion }
}

fn recv_end(outcome: Outcome) -> Act {
    let completion = Completion::Recv {
        recv: RecvNo(3),
        outcome,
    };
    Act::Poll { completion }
}

fn took(tag: Option<u64>, cq_data: Option<u64>, bytes: Bytes, excess: u64) -> Outcome {
    let from = Life {
        port: PortNo(1),
        connid: Connid(7),
    };
    Outcome::Took {
        from,
        tag,
        cq_data,
        bytes,
        excess,
    }
}

fn asks() -> Load {
    Load::Ask(ReadAsk {
        send_id: OpId(1),
        recv_id: OpId(2),
        key: 3,
        offset: 4,
        length: 5,
        at: 6,
    })
}

fn gives(bytes: Bytes) -> Load {
    Load::Given(ReadData {
        recv_id: OpId(2),
        at: 6,
        bytes,
    })
}

fn entries(alloc: Global) -> Result<Vec<Act>, AllocError> {
    let let_in = Entered {
        first: MsgNo(0),
        count: 3,
    };
    Ok(vec![in alloc;
        next(0, OpName::Open, Next::Did(DidWhat::Plain)),
        next(1, OpName::Reg, Next::Did(DidWhat::Region(RegionNo(2)))),
        next(2, OpName::Recv, Next::Did(DidWhat::Posted(RecvNo(3)))),
        next(
            3,
            OpName::Send,
            Next::Did(DidWhat::Sent(SendNo(4), MsgNo(5)))
        ),
        next(4, OpName::Cancel, Next::Refused(Why::NotPosted)),
        push(0, Body::Note(NoteBody::Opened(Connid(5)))),
        push(1, Body::Note(NoteBody::Said(9))),
        push(2, between(Load::Packet(Bytes::new(alloc)))),
        push(3, between(asks())),
        push(4, between(gives(Bytes::from_slice(alloc, b"abc")?))),
        handle(0, Handled::Took(None)),
        handle(1, Handled::Took(Some(let_in))),
        handle(2, Handled::Dropped(Class::ToOther)),
        send_end(false),
        send_end(true),
        recv_end(Outcome::Cancelled),
        recv_end(Outcome::Gone),
        recv_end(took(Some(8), None, Bytes::new(alloc), 0)),
        recv_end(took(None, Some(9), Bytes::from_slice(alloc, b"hi")?, 4)),
        push(
            5,
            between(Load::Packet(Bytes::from_vec(vec![in alloc; b'a'; 64]?)))
        ),
        push(
            6,
            between(Load::Packet(Bytes::from_slice(alloc, STANDARD.as_bytes())?))
        ),
        next(5, OpName::Send, Next::Refused(Why::NoConfirm)),
    ]?)
}

fn end(done: u64, all: u64, left: Option<Next>, counts: (u64, u64, u64)) -> End {
    let (to_other, from_other, waiting) = counts;
    End {
        done,
        all,
        left,
        to_other,
        from_other,
        waiting,
    }
}

#[test]
fn each_form_of_line_is_written(rt: HostRuntime) -> Result<(), Fail> {
    let alloc = rt.alloc();
    let mut history = History::from_vec(Vec::new(alloc));
    let mut stamp = 0u64;
    for act in entries(alloc)? {
        stamp = stamp.saturating_add(1);
        history.push(Entry {
            stamp: Stamp(stamp),
            port: PortNo(0),
            act,
        })?;
    }
    let ends = vec![in alloc;
        end(4, 4, None, (1, 2, 3)),
        end(
            3,
            4,
            Some(Next::NotYet(Yet::Wait { have: 0, need: 1 })),
            (0, 0, 0)
        ),
        end(1, 5, Some(Next::NotYet(Yet::Opened)), (0, 0, 1)),
        end(1, 2, Some(Next::NotYet(Yet::Await)), (0, 0, 0)),
        end(1, 2, Some(Next::NotYet(Yet::Parts(6))), (0, 0, 0)),
        end(3, 4, Some(Next::Again(PoolName::Rx)), (0, 0, 0)),
        end(1, 4, Some(Next::Worn), (0, 0, 1)),
        end(4, 9, Some(Next::NotYet(Yet::Handshake)), (0, 0, 0)),
    ]?;
    let report = Report {
        stuck: true,
        history,
        ends: Ends::from_vec(ends),
    };
    assert_eq!(rt; text(alloc, &report)?.as_slice(), LINES.as_bytes());
    Ok(())
}
