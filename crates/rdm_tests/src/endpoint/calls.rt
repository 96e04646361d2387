//! Calls at an endpoint, each with what is wanted of it.
use arrayvec::ArrayVec;
use rdm_ep::{CancelAnswer, Endpoint, HandleAnswer, Inserted, RecvAnswer, SendAnswer};
use rdm_num::{
    Bytes, Completion, Connid, DatagramNo, EpLimits, Life, NoMemory, OpId, Outcome, Parts, PortNo,
    RecvNo, RecvReq, RegionNo, SendReq, Span, Stamp,
};
use rdm_wire::{Body, Datagram, Load, ReadAsk};
use std::alloc::Global;
use std::process::Abort;

/// A call, and what it is to answer.
#[derive(Clone, Copy)]
pub enum Call<'a> {
    /// A packet of these bytes from port 0 comes to port 1, from one identifier to another.
    Packet(u32, u32, &'a [u8], HandleAnswer),
    /// Whether such a packet from identifier 5 to 7 needs an early place.
    Early(&'a [u8], bool),
    /// A read of a region comes from identifier 5 to 7.
    Ask(HandleAnswer),
    /// The first region is registered.
    Register(&'a [u8]),
    Insert(Life, Inserted),
    /// A send of these ranges to port 1, with the tag 7.
    WaitsSend([Span; 2], bool),
    Send([Span; 2], SendAnswer),
    WaitsRecv(RecvReq, bool),
    Recv(RecvReq, RecvAnswer),
    IsPosted(RecvNo, bool),
    Cancel(RecvNo, CancelAnswer),
    /// What goes out next is a packet of these bytes to this life.
    Out(Life, &'a [u8]),
    Sent,
    HasCompletion(bool),
    Poll(Option<Ended<'a>>),
}

/// How the send or the receive with the number 0 ended.
#[derive(Clone, Copy)]
pub enum Ended<'a> {
    Sent,
    Cancelled,
    /// It took these bytes, and this count didn't fit.
    Took(&'a [u8], u64),
}

fn came(from: u32, to: u32, load: Load) -> Datagram {
    Datagram {
        src: PortNo(0),
        number: DatagramNo(0),
        stamp: Stamp(0),
        dst: PortNo(1),
        body: Body::Between {
            from: Connid(from),
            to: Connid(to),
            load,
        },
    }
}

fn packet(alloc: Global, from: u32, to: u32, bytes: &[u8]) -> Result<Datagram, NoMemory> {
    let bytes = Bytes::from_slice(alloc, bytes)?;
    Ok(came(from, to, Load::Packet(bytes)))
}

fn ask() -> Datagram {
    let ask = ReadAsk {
        send_id: OpId(0),
        recv_id: OpId(0),
        key: 1,
        offset: 0,
        length: 8,
        at: 0,
    };
    came(5, 7, Load::Ask(ask))
}

fn is_handled(
    endpoint: &mut Endpoint,
    alloc: Global,
    datagram: Result<Datagram, NoMemory>,
    wanted: HandleAnswer,
) -> bool {
    match datagram {
        Ok(datagram) => endpoint.handle(alloc, &datagram) == wanted,
        Err(_) => false,
    }
}

fn is_early(endpoint: &Endpoint, alloc: Global, bytes: &[u8], wanted: bool) -> bool {
    match packet(alloc, 5, 7, bytes) {
        Ok(datagram) => endpoint.waits_early(alloc, &datagram) == Ok(wanted),
        Err(_) => false,
    }
}

fn is_registered(endpoint: &mut Endpoint, alloc: Global, bytes: &[u8]) -> bool {
    endpoint.region_count() < 1 && endpoint.reg(alloc, bytes) == Ok(RegionNo(0))
}

fn request(parts: [Span; 2]) -> Option<SendReq> {
    let mut items = ArrayVec::<Span, 4>::new();
    items.push(parts[0]);
    items.push(parts[1]);
    let parts = Parts::from_array_vec(items)?;
    Some(SendReq {
        to: PortNo(1),
        parts,
        tag: Some(7),
        cq_data: None,
        confirm: false,
    })
}

fn does_send_wait(endpoint: &Endpoint, parts: [Span; 2], wanted: bool) -> bool {
    match request(parts) {
        Some(request) => endpoint.waits_send(&request) == wanted,
        None => false,
    }
}

fn is_sent(endpoint: &mut Endpoint, alloc: Global, parts: [Span; 2], wanted: SendAnswer) -> bool {
    match request(parts) {
        Some(request) => endpoint.send_count() < 1 && endpoint.send(alloc, &request) == wanted,
        None => false,
    }
}

fn is_received(endpoint: &mut Endpoint, request: &RecvReq, wanted: RecvAnswer) -> bool {
    endpoint.receive_count() < 2 && endpoint.recv(request) == wanted
}

fn is_next(endpoint: &Endpoint, alloc: Global, to: Life, bytes: &[u8]) -> bool {
    match endpoint.out(alloc) {
        Ok(Some(out)) => match &out.load {
            Load::Packet(packet) => out.to == to && packet.as_slice() == bytes,
            _ => false,
        },
        _ => false,
    }
}

fn is_ended(completion: Option<&Completion>, wanted: Option<&Ended>) -> bool {
    match (completion, wanted) {
        (None, None) => true,
        (Some(Completion::Send { send, gone }), Some(Ended::Sent)) => send.0 == 0 && !*gone,
        (Some(Completion::Recv { recv, outcome }), Some(ended)) => {
            recv.0 == 0 && is_outcome(outcome, ended)
        }
        _ => false,
    }
}

fn is_outcome(outcome: &Outcome, wanted: &Ended) -> bool {
    match (outcome, wanted) {
        (Outcome::Cancelled, Ended::Cancelled) => true,
        (Outcome::Took { bytes, excess, .. }, Ended::Took(content, over)) => {
            bytes.as_slice() == *content && *excess == *over
        }
        _ => false,
    }
}

/// Whether the call answers as wanted.
fn is_right(endpoint: &mut Endpoint, alloc: Global, call: &Call) -> bool {
    match call {
        Call::Packet(from, to, bytes, wanted) => {
            is_handled(endpoint, alloc, packet(alloc, *from, *to, bytes), *wanted)
        }
        Call::Early(bytes, wanted) => is_early(endpoint, alloc, bytes, *wanted),
        Call::Ask(wanted) => is_handled(endpoint, alloc, Ok(ask()), *wanted),
        Call::Register(bytes) => is_registered(endpoint, alloc, bytes),
        Call::Insert(life, wanted) => endpoint.insert(*life) == Ok(*wanted),
        Call::WaitsSend(parts, wanted) => does_send_wait(endpoint, *parts, *wanted),
        Call::Send(parts, wanted) => is_sent(endpoint, alloc, *parts, *wanted),
        Call::WaitsRecv(request, wanted) => endpoint.waits_recv(request) == *wanted,
        Call::Recv(request, wanted) => is_received(endpoint, request, *wanted),
        Call::IsPosted(number, wanted) => endpoint.is_posted(*number) == *wanted,
        Call::Cancel(number, wanted) => endpoint.cancel(*number) == *wanted,
        Call::Out(to, bytes) => is_next(endpoint, alloc, *to, bytes),
        Call::Sent => {
            endpoint.sent();
            true
        }
        Call::HasCompletion(wanted) => endpoint.has_completion() == *wanted,
        Call::Poll(wanted) => is_ended(endpoint.poll().as_ref(), wanted.as_ref()),
    }
}

/// The calls at a new endpoint of this life, one after the other.
pub fn run(
    rt: &impl Abort,
    alloc: Global,
    life: Life,
    limits: &EpLimits,
    calls: &[Call],
) -> Result<(), NoMemory> {
    let mut endpoint = Endpoint::start(alloc, life, 4, limits)?;
    for (place, call) in calls.iter().enumerate() {
        assert!(rt; is_right(&mut endpoint, alloc, call), "call {place}");
    }
    endpoint.close();
    Ok(())
}
