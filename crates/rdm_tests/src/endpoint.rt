use rdm_ep::{CancelAnswer, HandleAnswer, Inserted, RecvAnswer, SendAnswer};
use rdm_model::{Class, Entered, RecvWhy, SendWhy};
use rdm_num::{
    Connid, EpLimits, Life, MsgNo, PortNo, RecvNo, RecvReq, RegionNo, SendNo, Span, Want,
};
use std::test::Fail;

mod calls;

use calls::{Call, Ended, run};

/// The message `hello` with the tag 7, from port 0, and with this identifier and number.
fn hello(connid: u8, number: u8) -> [u8; 57] {
    let mut hello = [
        0x41, 0x04, 0x09, 0x00, 0, 0, 0, 0, 7, 0, 0, 0, 0, 0, 0, 0, 0x20, 0, 0, 0, 0, 0, 0, 0, 0,
        0, 0, 0, 0, 0, 0, 0, 0, 0, 0, 0, 1, 0, 0, 0, 0, 0, 0, 0, 0, 0, 0, 0, 0, 0, 0, 0, 0x68,
        0x65, 0x6c, 0x6c, 0x6f,
    ];
    hello[4] = number;
    hello[40] = connid;
    hello
}

/// The end of send 3, from the life with the identifier 5.
const END: [u8; 16] = [7, 4, 0, 0x80, 3, 0, 0, 0, 0, 0, 0, 0, 5, 0, 0, 0];

/// The handshakes of the lives with the identifiers 5 and 7, with the feature bit 2.
const HANDSHAKE_OF_5: [u8; 20] = [
    9, 4, 0, 0x80, 4, 0, 0, 0, 4, 0, 0, 0, 0, 0, 0, 0, 5, 0, 0, 0,
];

const HANDSHAKE_OF_7: [u8; 20] = [
    9, 4, 0, 0x80, 4, 0, 0, 0, 4, 0, 0, 0, 0, 0, 0, 0, 7, 0, 0, 0,
];

const ZERO: Life = Life {
    port: PortNo(0),
    connid: Connid(5),
};

const ONE: Life = Life {
    port: PortNo(1),
    connid: Connid(7),
};

const LIMITS: EpLimits = EpLimits {
    mtu: 256,
    medium: 1024,
    read_limit: 4096,
    runt: 512,
    credits: 4,
    first: 0,
    tx: 2,
    rx: 1,
    early: 1,
    cq: 4,
};

/// The first send is accepted.
const DID: SendAnswer = SendAnswer::Did {
    send: SendNo(0),
    msg: MsgNo(0),
};

/// The one message with the number 0 entered, and as many after it as are wanted.
fn took(count: u64) -> HandleAnswer {
    HandleAnswer::Took(Some(Entered {
        first: MsgNo(0),
        count,
    }))
}

fn dropped(class: Class) -> HandleAnswer {
    HandleAnswer::Dropped(class)
}

/// A receive of four bytes at this place.
fn receive(at: u64, want: Option<Want>) -> RecvReq {
    RecvReq {
        from: None,
        region: RegionNo(0),
        at,
        len: 4,
        want,
    }
}

/// A range of the first region.
fn span(at: u64, len: u64) -> Span {
    Span {
        region: RegionNo(0),
        at,
        len,
    }
}

#[test]
fn each_datagram_gets_its_answer(rt: HostRuntime) -> Result<(), Fail> {
    let (end, handshake, answer) = (END, HANDSHAKE_OF_5, HANDSHAKE_OF_7);
    let calls = [
        Call::Packet(5, 7, &end, dropped(Class::Unknown)),
        Call::Packet(5, 7, &[0xff], dropped(Class::Malformed)),
        Call::Packet(5, 8, &hello(5, 0), dropped(Class::ToOther)),
        Call::Early(&hello(5, 0), false),
        Call::Packet(5, 7, &hello(5, 0), took(1)),
        Call::Packet(5, 7, &hello(5, 0), dropped(Class::Overlap)),
        Call::Packet(5, 7, &end, dropped(Class::NoOp)),
        Call::Packet(6, 7, &hello(6, 0), dropped(Class::FromOther)),
        Call::Ask(dropped(Class::BadKey)),
        Call::Out(ZERO, &answer),
        Call::Packet(5, 7, &handshake, HandleAnswer::Took(None)),
        Call::Packet(5, 7, &handshake, dropped(Class::Mismatch)),
    ];
    run(&rt, rt.alloc(), ONE, &LIMITS, &calls)?;
    Ok(())
}

#[test]
fn messages_enter_in_their_order(rt: HostRuntime) -> Result<(), Fail> {
    let limits = EpLimits { early: 2, ..LIMITS };
    let calls = [
        Call::Packet(5, 7, &hello(5, 1), HandleAnswer::Took(None)),
        Call::Packet(5, 7, &hello(5, 1), dropped(Class::Overlap)),
        Call::Early(&hello(5, 0), false),
        Call::Packet(5, 7, &hello(5, 0), took(2)),
        Call::Packet(5, 7, &hello(5, 0), dropped(Class::Overlap)),
        Call::Packet(5, 7, &hello(5, 1), dropped(Class::Overlap)),
        Call::Early(&hello(5, 2), true),
        Call::Packet(5, 7, &hello(5, 2), HandleAnswer::AgainEarly),
    ];
    run(&rt, rt.alloc(), ONE, &limits, &calls)?;
    Ok(())
}

#[test]
fn a_receive_takes_its_message(rt: HostRuntime) -> Result<(), Fail> {
    let request = receive(1, Some(Want { tag: 7, ignore: 0 }));
    let calls = [
        Call::Register(&[0; 8]),
        Call::WaitsRecv(request, false),
        Call::Recv(request, RecvAnswer::Did(RecvNo(0))),
        Call::HasCompletion(false),
        Call::Packet(5, 7, &hello(5, 0), took(1)),
        Call::HasCompletion(true),
        Call::Poll(Some(Ended::Took(b"hell", 1))),
    ];
    run(&rt, rt.alloc(), ONE, &LIMITS, &calls)?;
    Ok(())
}

#[test]
fn a_receive_that_waits_is_cancelled_once(rt: HostRuntime) -> Result<(), Fail> {
    let (first, second) = (receive(0, None), receive(4, None));
    let zeroth = RecvNo(0);
    let calls = [
        Call::Register(&[0; 8]),
        Call::Cancel(zeroth, CancelAnswer::NotPosted),
        Call::Recv(first, RecvAnswer::Did(zeroth)),
        Call::WaitsRecv(second, true),
        Call::IsPosted(zeroth, true),
        Call::Cancel(zeroth, CancelAnswer::Did),
        Call::IsPosted(zeroth, false),
        Call::Cancel(zeroth, CancelAnswer::NotPosted),
        Call::WaitsRecv(second, false),
        Call::Poll(Some(Ended::Cancelled)),
        Call::Poll(None),
    ];
    run(&rt, rt.alloc(), ONE, &LIMITS, &calls)?;
    Ok(())
}

#[test]
fn a_send_completes_when_it_is_pushed(rt: HostRuntime) -> Result<(), Fail> {
    let whole = [span(0, 5), span(5, 0)];
    let calls = [
        Call::Register(b"hello"),
        Call::Insert(ONE, Inserted::Inserted),
        Call::WaitsSend(whole, false),
        Call::Send(whole, DID),
        Call::Insert(ONE, Inserted::Same),
        Call::HasCompletion(false),
        Call::Out(ONE, &hello(5, 0)),
        Call::Sent,
        Call::Poll(Some(Ended::Sent)),
        Call::Poll(None),
    ];
    run(&rt, rt.alloc(), ZERO, &LIMITS, &calls)?;
    Ok(())
}

#[test]
fn a_send_has_the_bytes_of_its_ranges(rt: HostRuntime) -> Result<(), Fail> {
    let (front, back) = (span(0, 2), span(8, 3));
    let calls = [
        Call::Register(b"lo______hel"),
        Call::Insert(ONE, Inserted::Inserted),
        Call::Recv(receive(4, None), RecvAnswer::Did(RecvNo(0))),
        Call::Send([back, span(9, 3)], SendAnswer::Refused(SendWhy::Range)),
        Call::Send([back, span(7, 1)], SendAnswer::Refused(SendWhy::Busy)),
        Call::Send([back, front], DID),
        Call::Recv(receive(0, None), RecvAnswer::Refused(RecvWhy::Busy)),
        Call::Out(ONE, &hello(5, 0)),
    ];
    run(&rt, rt.alloc(), ZERO, &LIMITS, &calls)?;
    Ok(())
}
