use crate::{Early, EarlyRefused, Heard, Opening, Window};
use rdm_num::{Connid, Head, Life, MsgNo, NoMemory, PortNo, Shape};
use std::alloc::Global;
use std::process::Abort;
use std::test::Fail;

/// What comes to a window, and what it answers.
#[derive(Clone, Copy)]
enum Call {
    /// A number is heard if it is new: then so many enter by it.
    Hear(u32, Option<u64>),
    /// Each number from the first to before the second is new, and one enters by it.
    HearAll(u32, u32),
    State(u32, Heard),
    Next(u64),
}

use Call::{Hear, HearAll, Next, State};
use Heard::{Entered, New, Waiting};

/// Hears a number that is new. None where it is not.
fn hear(window: &mut Window, no: MsgNo) -> Result<Option<u64>, NoMemory> {
    match window.state(no) {
        New => Ok(Some(window.hear(no)?)),
        Waiting | Entered => Ok(None),
    }
}

/// Hears a number that is new, with a reservation of its own. None where it is not.
fn hear_reserved(window: &mut Window, no: MsgNo) -> Result<Option<u64>, NoMemory> {
    window.reserve()?;
    match window.state(no) {
        New => Ok(Some(window.hear_reserved(no))),
        Waiting | Entered => {
            window.give_back();
            Ok(None)
        }
    }
}

/// Hears a number that is new, in one of the two ways. What wants memory in vain changes nothing, so it
/// answers the same when it is called again.
fn hear_again(window: &mut Window, number: u32, reserves: bool) -> Result<Option<u64>, NoMemory> {
    let no = MsgNo(number);
    if reserves {
        hear_reserved(window, no).or_else(|_no_memory| hear_reserved(window, no))
    } else {
        hear(window, no).or_else(|_no_memory| hear(window, no))
    }
}

/// A window from that number on answers each call as it says, whether it reserves or not.
fn run(rt: &impl Abort, alloc: Global, first: u32, calls: &[Call]) -> Result<(), NoMemory> {
    for reserves in [false, true] {
        let mut window = Window::new(alloc, first);
        for call in calls {
            match call {
                Hear(number, risen) => {
                    assert!(rt; hear_again(&mut window, *number, reserves)? == *risen);
                }
                HearAll(from, to) => {
                    for number in *from..*to {
                        assert!(rt; hear_again(&mut window, number, reserves)? == Some(1));
                    }
                }
                State(number, state) => assert!(rt; window.state(MsgNo(*number)) == *state),
                Next(next) => assert!(rt; window.next_number() == *next),
            }
        }
    }
    Ok(())
}

#[test]
fn numbers_enter_in_order(rt: HostRuntime) -> Result<(), Fail> {
    let in_order = [
        Hear(2, Some(0)),
        State(2, Waiting),
        Hear(0, Some(1)),
        Hear(2, None),
        Next(1),
        Hear(1, Some(2)),
        Next(3),
        State(1, Entered),
        State(3, New),
    ];
    run(&rt, rt.alloc(), 0, &in_order)?;
    let from_ten = [
        State(9, Entered),
        State(10, New),
        Hear(10, Some(1)),
        State(10, Entered),
    ];
    run(&rt, rt.alloc(), 10, &from_ten)?;
    let the_last = [
        Hear(u32::MAX, Some(0)),
        Hear(u32::MAX - 1, Some(2)),
        State(u32::MAX, Entered),
        Hear(u32::MAX, None),
        Next(1 << 32),
    ];
    run(&rt, rt.alloc(), u32::MAX - 1, &the_last)?;
    let far_above_the_ring = [
        Hear(1024, Some(0)),
        Hear(2048, Some(0)),
        Hear(4_000_000_000, Some(0)),
        State(0, New),
        Hear(0, Some(1)),
        State(1024, Waiting),
        HearAll(1, 1023),
        Hear(1023, Some(2)),
        State(2048, Waiting),
        State(4_000_000_000, Waiting),
        State(4_000_000_001, New),
    ];
    run(&rt, rt.alloc(), 0, &far_above_the_ring)?;
    Ok(())
}

#[test]
fn falling_numbers_enter_at_once(rt: HostRuntime) -> Result<(), Fail> {
    let mut window = Window::new(rt.alloc(), 0);
    for number in (1..3000u32).rev() {
        assert!(rt; hear_again(&mut window, number, true)? == Some(0));
    }
    assert!(rt; window.state(MsgNo(2999)) == Waiting);
    assert!(rt; hear_again(&mut window, 0, false)? == Some(3000));
    assert!(rt; window.state(MsgNo(2999)) == Entered);
    Ok(())
}

/// What comes to the early messages, and what they answer.
#[derive(Clone, Copy)]
enum EarlyCall<'a> {
    /// A message of so many bytes is held if it was not.
    Hold(Life, u32, u64, Option<Result<(), EarlyRefused>>),
    /// The same, with bytes from a place on.
    HoldWith(Life, u32, u64, u64, &'a [u8], Option<Result<(), EarlyRefused>>),
    /// Bytes from a place on come to a message, if it awaits them.
    Add(Life, u32, u64, &'a [u8], bool),
    /// So many bytes from a place on are missing, or not.
    Missing(Life, u32, u64, u64, bool),
    IsHeld(Life, u32, bool),
    /// A message is taken out, with those bytes, of which so many are missing.
    Take(Life, u32, &'a [u8], u64),
    Forget(Life),
    IsFull(bool),
    /// So many are held.
    Len(usize),
}

use EarlyCall::{Add, Forget, Hold, HoldWith, IsFull, IsHeld, Len, Missing, Take};

fn life(port: u32, connid: u32) -> Life {
    Life {
        port: PortNo(port),
        connid: Connid(connid),
    }
}

/// A message of so many bytes, of which the first part was four.
fn opening(len: u64) -> Opening {
    let head = Head {
        tag: Some(7),
        confirm: false,
        cq_data: None,
        length: 6,
        shape: Shape::Eager,
    };
    Opening {
        head,
        len,
        first_part: 4,
    }
}

/// Holds a message that is not held yet. None where it is.
fn hold(early: &mut Early, life: Life, no: MsgNo, len: u64) -> Option<Result<(), EarlyRefused>> {
    match early.get(life, no) {
        None => Some(early.hold(life, no, opening(len))),
        Some(_held) => None,
    }
}

/// Holds a message that is not held yet, with bytes. None where it is, or where they do not fit.
fn hold_with(
    early: &mut Early,
    (life, no): (Life, MsgNo),
    len: u64,
    at: u64,
    bytes: &[u8],
) -> Option<Result<(), EarlyRefused>> {
    let opening = opening(len);
    let end = at.checked_add(bytes.len() as u64)?;
    if end > opening.len {
        return None;
    }
    match early.get(life, no) {
        None => Some(early.hold_with(life, no, opening, at, bytes)),
        Some(_held) => None,
    }
}

/// Adds bytes to a message, if it awaits them, with a reservation of its own or without.
fn add(
    early: &mut Early,
    (life, no): (Life, MsgNo),
    at: u64,
    bytes: &[u8],
    reserves: bool,
) -> Result<bool, NoMemory> {
    let is_held = early.get(life, no).is_some();
    if is_held && reserves {
        early.reserve_add(life, no)?;
        let awaits = early.missing(life, no, at, bytes.len() as u64);
        if awaits {
            early.add_reserved(life, no, at, bytes);
        }
        return Ok(awaits);
    }
    let awaits = early.missing(life, no, at, bytes.len() as u64);
    if awaits {
        early.add(life, no, at, bytes)?;
    }
    Ok(awaits)
}

/// Takes a message out that is held, and tells whether it has those bytes, with so many missing.
fn take(early: &mut Early, life: Life, no: MsgNo, bytes: &[u8], missing: u64) -> bool {
    match early.take(life, no) {
        Some(message) => {
            let first_part = message.first_part();
            let (head, gaps, held, mut copy) = message.into_parts();
            copy.copy_from_slice(held.as_slice());
            first_part == 4
                && head.tag == Some(7)
                && gaps.missing() == missing
                && held.as_slice() == bytes
                && copy.as_slice() == bytes
        }
        None => false,
    }
}

/// So many places for early messages answer each call as it says. What wants memory in vain changes
/// nothing, so it answers the same when it is called again.
fn run_early(
    rt: &impl Abort,
    alloc: Global,
    size: usize,
    calls: &[EarlyCall],
    reserves: bool,
) -> Result<(), NoMemory> {
    let mut early = Early::new(alloc, size)?;
    for call in calls {
        match *call {
            Hold(life, no, len, answer) => {
                let mut given = hold(&mut early, life, MsgNo(no), len);
                if given == Some(Err(EarlyRefused::Memory)) {
                    given = hold(&mut early, life, MsgNo(no), len);
                }
                assert!(rt; given == answer);
            }
            HoldWith(life, no, len, at, bytes, answer) => {
                let mut given = hold_with(&mut early, (life, MsgNo(no)), len, at, bytes);
                if given == Some(Err(EarlyRefused::Memory)) {
                    assert!(rt; early.get(life, MsgNo(no)).is_none());
                    given = hold_with(&mut early, (life, MsgNo(no)), len, at, bytes);
                }
                assert!(rt; given == answer);
            }
            Add(life, no, at, bytes, answer) => {
                let mut given = add(&mut early, (life, MsgNo(no)), at, bytes, reserves);
                if given.is_err() {
                    given = add(&mut early, (life, MsgNo(no)), at, bytes, reserves);
                }
                assert!(rt; given == Ok(answer));
            }
            Missing(life, no, at, len, answer) => {
                assert!(rt; early.missing(life, MsgNo(no), at, len) == answer);
            }
            IsHeld(life, no, is_held) => {
                assert!(rt; early.get(life, MsgNo(no)).is_some() == is_held);
            }
            Take(life, no, bytes, missing) => {
                assert!(rt; take(&mut early, life, MsgNo(no), bytes, missing));
            }
            Forget(life) => early.forget(life),
            IsFull(is_full) => assert!(rt; early.is_full() == is_full),
            Len(len) => assert!(rt; early.len() == len),
        }
    }
    Ok(())
}

#[test]
fn places_hold_messages(rt: HostRuntime) -> Result<(), Fail> {
    let one = life(0, 5);
    let one_place = [
        IsFull(false),
        Missing(one, 0, 0, 0, false),
        Hold(one, 0, 1 << 62, Some(Err(EarlyRefused::Memory))),
        IsHeld(one, 0, false),
        Hold(one, 0, 6, Some(Ok(()))),
        IsFull(true),
        Hold(one, 0, 6, None),
        Hold(one, 1, 6, Some(Err(EarlyRefused::Full))),
        Add(one, 0, 2, b"cd", true),
        Add(one, 0, 1, b"bc", false),
        Missing(one, 0, 4, 2, true),
        Missing(one, 0, 4, 3, false),
        Add(one, 0, 5, b"fg", false),
        Add(one, 0, 5, b"f", true),
        Take(one, 0, b"\0\0cd\0f", 3),
        IsHeld(one, 0, false),
        Hold(one, 1, 6, Some(Ok(()))),
        Add(one, 1, 3, b"def", true),
        Add(one, 1, 0, b"abc", true),
        Take(one, 1, b"abcdef", 0),
        Hold(one, 2, 6, Some(Ok(()))),
        Len(1),
        Forget(one),
        IsHeld(one, 2, false),
        IsFull(false),
        Len(0),
        HoldWith(one, 3, 1 << 62, 0, b"", Some(Err(EarlyRefused::Memory))),
        IsHeld(one, 3, false),
        HoldWith(one, 3, 6, 4, b"efg", None),
        HoldWith(one, 3, 6, 4, b"ef", Some(Ok(()))),
        HoldWith(one, 4, 6, 4, b"ef", Some(Err(EarlyRefused::Full))),
        Missing(one, 3, 0, 4, true),
        Missing(one, 3, 3, 2, false),
        Add(one, 3, 0, b"abcd", true),
        Take(one, 3, b"abcdef", 0),
        HoldWith(one, 4, 0, 0, b"", Some(Ok(()))),
        Take(one, 4, b"", 0),
    ];
    for reserves in [false, true] {
        run_early(&rt, rt.alloc(), 1, &one_place, reserves)?;
    }
    let (two, older, later, other) = (life(1, 7), life(1, 6), life(1, 8), life(0, 7));
    let lives = [
        Hold(two, 0, 6, Some(Ok(()))),
        Hold(two, u32::MAX, 6, Some(Ok(()))),
        Hold(older, 9, 6, Some(Ok(()))),
        Hold(later, 0, 6, Some(Ok(()))),
        HoldWith(other, 0, 6, 0, b"a", Some(Ok(()))),
        IsFull(true),
        Len(5),
        Forget(two),
        IsHeld(two, 0, false),
        IsHeld(two, u32::MAX, false),
        IsHeld(older, 9, true),
        IsHeld(later, 0, true),
        IsHeld(other, 0, true),
        Len(3),
        IsFull(false),
        Forget(life(2, 0)),
        IsHeld(other, 0, true),
    ];
    run_early(&rt, rt.alloc(), 5, &lives, false)?;
    Ok(())
}
