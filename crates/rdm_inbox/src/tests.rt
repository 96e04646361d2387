ghost use Rattle.std.specs.Prelude.{◌≡◌, ◌<◌, ◌+◌, ℕ, true, IfOk, IfSome, Some, length, slice_get, vec_len};
ghost use Rattle.std.specs.Thread.{IsSync};
ghost use Rattle.rdm_inbox.specs.Queues.{PassesState, ArePassesOf};

use crate::{Inboxes, PortPasses, Queues};
use rdm_num::{DatagramNo, NoMemory, PortNo, Stamp};
use rdm_wire::{Body, Datagram, MemWire, NoteBody, Wire};
use std::alloc::Global;
use std::sync::Wait;
use std::test::Fail;
use std::thread::{Threads, join, yield_now};

fn said(src: PortNo, dst: PortNo, number: u64) -> Datagram
    ensures { (result.src ≡ src) × (result.dst ≡ dst) }
{
    Datagram {
        src,
        number: DatagramNo(number),
        stamp: Stamp(number),
        dst,
        body: Body::Note(NoteBody::Said(number)),
    }
}

/// Pushes two datagrams from port 0 to port 1.
fn push_both<W: Wire>(wire: &mut W) -> (Result<(), Datagram>, Result<(), Datagram>)
    requires { (W.serves wire.old 0 ≡ true) × (1 < W.ports wire.old) }
    ensures { (W.ports wire.new ≡ W.ports wire.old) × (W.serves wire.new ≡ W.serves wire.old) }
{
    let first = wire.push(said(PortNo(0), PortNo(1), 0));
    let second = wire.push(said(PortNo(0), PortNo(1), 1));
    (first, second)
}

/// Fetches twice at port 1.
fn fetch_both<W: Wire>(wire: &mut W) -> (Option<Datagram>, Option<Datagram>)
    requires { W.serves wire.old 1 ≡ true }
    ensures { (W.ports wire.new ≡ W.ports wire.old) × (W.serves wire.new ≡ W.serves wire.old) }
{
    let first = wire.fetch(PortNo(1));
    let second = wire.fetch(PortNo(1));
    (first, second)
}

/// The first datagram came, and the second was given back.
fn is_one_place(
    pushed: (Result<(), Datagram>, Result<(), Datagram>),
    fetched: (Option<Datagram>, Option<Datagram>),
) -> bool {
    pushed.0.is_ok()
        && pushed.1 == Err(said(PortNo(0), PortNo(1), 1))
        && fetched.0 == Some(said(PortNo(0), PortNo(1), 0))
        && fetched.1.is_none()
}

fn no_memory() -> Result<(), Fail> {
    Err("no memory")?
}

/// The passes of the last port.
fn last_port(queues: &Queues, all: &mut Vec<PortPasses>) -> Option<PortPasses>
    requires { (port : ℕ) (v : PassesState) → slice_get all.old.items port ≡ Some v → ArePassesOf queues.now.tables v × (v.port ≡ port) }
    ensures left { (port : ℕ) (v : PassesState) → slice_get all.new.items port ≡ Some v → ArePassesOf queues.now.tables v × (v.port ≡ port) }
    ensures last { IfSome result (λ v. ArePassesOf queues.now.tables v × (v.port + 1 ≡ vec_len all.old) × (v.port ≡ vec_len all.new)) }
{
    all.pop()
}

#[test]
fn one_place_in_memory(rt: HostRuntime) -> Result<(), Fail> {
    let mut wire = MemWire::new(rt.alloc(), 2, 1)?;
    let pushed = push_both(&mut wire);
    let fetched = fetch_both(&mut wire);
    assert!(rt; is_one_place(pushed, fetched));
    Ok(())
}

#[test]
fn one_place_in_shared_inboxes(rt: HostRuntime) -> Result<(), Fail> {
    let mut wire = Inboxes::new(&rt, rt.alloc(), 2, 1)?;
    let pushed = push_both(&mut wire);
    let fetched = fetch_both(&mut wire);
    assert!(rt; is_one_place(pushed, fetched));
    Ok(())
}

/// Pushes by the passes of port 0, and fetches by those of port 1.
fn both_ports<R: Wait>(rt: &R, queues: &Queues, zero: PortPasses, one: PortPasses) -> bool
    requires zero { ArePassesOf queues.now.tables zero × (zero.port ≡ 0) }
    requires one { ArePassesOf queues.now.tables one × (one.port ≡ 1) }
    requires ports { length queues.now.tables ≡ 2 }
{
    let mut from = queues.wire(rt, zero);
    let mut to = queues.wire(rt, one);
    let pushed = push_both(&mut from);
    let fetched = fetch_both(&mut to);
    is_one_place(pushed, fetched)
}

#[test]
fn one_place_between_two_ports(rt: HostRuntime) -> Result<(), Fail> {
    let inboxes = Inboxes::new(&rt, rt.alloc(), 2, 1)?;
    let (queues, mut all) = match inboxes.open(rt.alloc()) {
        Ok(opened) => opened,
        Err(_inboxes) => return no_memory(),
    };
    let one = last_port(&queues, &mut all).ok_or("no port")?;
    let zero = last_port(&queues, &mut all).ok_or("no port")?;
    assert!(rt; both_ports(&rt, &queues, zero, one));
    Ok(())
}

/// Two datagrams are sent from port 0 to port 1, one of them is taken, and the inboxes are closed.
fn sent_and_closed<'r, R: Wait>(
    rt: &'r R,
    alloc: Global,
    queues: Queues,
    zero: PortPasses,
    one: PortPasses,
) -> Result<Inboxes<'r, R>, NoMemory>
    requires zero { ArePassesOf queues.tables zero × (zero.port ≡ 0) }
    requires one { ArePassesOf queues.tables one × (one.port ≡ 1) }
    requires ports { length queues.tables ≡ 2 }
    ensures { IfOk result (λ w. length w.flights ≡ 2) }
{
    let mut from = queues.wire(rt, zero);
    let _first = from.push(said(PortNo(0), PortNo(1), 0));
    let _second = from.push(said(PortNo(0), PortNo(1), 1));
    let zero = from.passes();
    let mut to = queues.wire(rt, one);
    let _taken = to.fetch(PortNo(1));
    let all = Vec::from_array(alloc, [zero, to.passes()])?;
    Ok(queues.close(rt, all))
}

#[test]
fn what_is_left_is_known(rt: HostRuntime) -> Result<(), Fail> {
    let inboxes = Inboxes::new(&rt, rt.alloc(), 2, 2)?;
    let (queues, mut all) = match inboxes.open(rt.alloc()) {
        Ok(opened) => opened,
        Err(_inboxes) => return no_memory(),
    };
    let one = last_port(&queues, &mut all).ok_or("no port")?;
    let zero = last_port(&queues, &mut all).ok_or("no port")?;
    let mut inboxes = sent_and_closed(&rt, rt.alloc(), queues, zero, one)?;
    assert!(rt; inboxes.fetch(PortNo(1)) == Some(said(PortNo(0), PortNo(1), 1)));
    assert!(rt; inboxes.fetch(PortNo(1)).is_none());
    Ok(())
}

/// Sends so many datagrams to a port, each as soon as there is a place for it.
fn send_all<R: Wait>(rt: &R, queues: &Queues, passes: PortPasses, to: PortNo, count: u64)
    requires of { ArePassesOf queues.now.tables passes }
    requires target { to.0 < length queues.now.tables }
{
    let from = passes.port();
    let mut wire = queues.wire(rt, passes);
    let mut next = 0;
    for _ in rt.forever() {
        if next >= count {
            break;
        }
        if wire.push(said(from, to, next)).is_ok() {
            next += 1;
        } else {
            yield_now();
        }
    }
}

/// Takes datagrams at a port, as long as there is room for more.
fn take_all<R: Wait>(
    rt: &R,
    queues: &Queues,
    passes: PortPasses,
    mut taken: Vec<Datagram>,
) -> Vec<Datagram>
    requires { ArePassesOf queues.now.tables passes }
{
    let port = passes.port();
    let mut wire = queues.wire(rt, passes);
    for _ in rt.forever() {
        if taken.len() >= taken.capacity() {
            break;
        }
        match wire.fetch(port) {
            Some(d) => taken.push_reserved(d),
            None => yield_now(),
        }
    }
    taken
}

/// Three ports send to a fourth, which takes until there is no room for more.
fn three_send<R: Threads + Wait + Sync>(
    rt: &R,
    queues: &Queues,
    zero: PortPasses,
    one: PortPasses,
    two: PortPasses,
    three: PortPasses,
    taken: Vec<Datagram>,
    count: u64,
) -> Vec<Datagram>
    requires zero { ArePassesOf queues.now.tables zero }
    requires one { ArePassesOf queues.now.tables one }
    requires two { ArePassesOf queues.now.tables two }
    requires three { ArePassesOf queues.now.tables three }
    requires target { three.port < length queues.now.tables }
{
    let to = three.port();
    let (_senders, taken) = join(
        rt,
        move ||
            requires { IsSync R.row × ArePassesOf queues.now.tables zero × ArePassesOf queues.now.tables one × ArePassesOf queues.now.tables two × (to.0 < length queues.now.tables) }
        { send_three(rt, queues, zero, one, two, to, count) },
        move ||
            requires { ArePassesOf queues.now.tables three }
        { take_all(rt, queues, three, taken) },
    );
    taken
}

/// Three ports send at once.
fn send_three<R: Threads + Wait + Sync>(
    rt: &R,
    queues: &Queues,
    zero: PortPasses,
    one: PortPasses,
    two: PortPasses,
    to: PortNo,
    count: u64,
)
    requires zero { ArePassesOf queues.now.tables zero }
    requires one { ArePassesOf queues.now.tables one }
    requires two { ArePassesOf queues.now.tables two }
    requires target { to.0 < length queues.now.tables }
{
    join(
        rt,
        move ||
            requires { ArePassesOf queues.now.tables zero × (to.0 < length queues.now.tables) }
        { send_all(rt, queues, zero, to, count) },
        move ||
            requires { IsSync R.row × ArePassesOf queues.now.tables one × ArePassesOf queues.now.tables two × (to.0 < length queues.now.tables) }
        { send_two(rt, queues, one, two, to, count) },
    );
}

/// Two ports send at once.
fn send_two<R: Threads + Wait + Sync>(
    rt: &R,
    queues: &Queues,
    one: PortPasses,
    two: PortPasses,
    to: PortNo,
    count: u64,
)
    requires one { ArePassesOf queues.now.tables one }
    requires two { ArePassesOf queues.now.tables two }
    requires target { to.0 < length queues.now.tables }
{
    join(
        rt,
        move ||
            requires { ArePassesOf queues.now.tables one × (to.0 < length queues.now.tables) }
        { send_all(rt, queues, one, to, count) },
        move ||
            requires { ArePassesOf queues.now.tables two × (to.0 < length queues.now.tables) }
        { send_all(rt, queues, two, to, count) },
    );
}

/// The datagrams of each sender came in its order.
fn are_in_order(taken: &[Datagram]) -> bool {
    let mut next = [0u64; 3];
    for d in taken {
        let from = d.src.0 as usize;
        if from >= 3 || d.number.0 != next[from] {
            return false;
        }
        next[from] = d.number.0.saturating_add(1);
    }
    true
}

#[test]
fn each_senders_datagrams_come_in_order(rt: HostRuntime) -> Result<(), Fail> {
    let inboxes = Inboxes::new(&rt, rt.alloc(), 4, 2)?;
    let (queues, mut all) = match inboxes.open(rt.alloc()) {
        Ok(opened) => opened,
        Err(_inboxes) => return no_memory(),
    };
    let three = last_port(&queues, &mut all).ok_or("no port")?;
    let two = last_port(&queues, &mut all).ok_or("no port")?;
    let one = last_port(&queues, &mut all).ok_or("no port")?;
    let zero = last_port(&queues, &mut all).ok_or("no port")?;
    let taken = Vec::with_capacity(rt.alloc(), 1500)?;
    let taken = three_send(&rt, &queues, zero, one, two, three, taken, 500);
    assert!(rt; taken.len() == 1500);
    assert!(rt; are_in_order(taken.as_slice()));
    Ok(())
}
