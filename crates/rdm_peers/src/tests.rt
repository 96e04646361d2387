use crate::Peers;
use rdm_num::{Connid, Life, MsgNo, NoMemory, PortNo};
use rdm_window::Heard;
use std::alloc::Global;
use std::process::Abort;
use std::test::Fail;

/// What comes to the lives that are known, and what they answer.
#[derive(Clone, Copy)]
enum Call<'a> {
    /// The account of a life that has none is opened: else nothing is done.
    Open(Life, bool),
    Forget(Life),
    IsMet(Life, bool),
    /// A life that is known is greeted, and a handshake is owed to it.
    Meet(Life, Option<bool>),
    Known(Life, Option<u64>),
    Learn(Life, &'a [u64]),
    WantsRaw(Life, bool),
    Next(Life, Option<u32>),
    /// A number is given to a message to a life that is known.
    Take(Life, Option<u32>),
    State(Life, u32, Heard),
    Entering(Life, u64),
    /// A number of a life that is known is heard if it is new: then so many enter by it.
    Hear(Life, u32, Option<u64>),
}

use Call::{Entering, Forget, Hear, IsMet, Known, Learn, Meet, Next, Open, State, Take, WantsRaw};
use Heard::{Entered, New, Waiting};

fn life(port: u32, connid: u32) -> Life {
    Life {
        port: PortNo(port),
        connid: Connid(connid),
    }
}

/// Opens the account of a life that has none. False where it has one.
fn open(peers: &mut Peers, life: Life) -> Result<bool, NoMemory> {
    if peers.has(life) {
        return Ok(false);
    }
    peers.open(life)?;
    Ok(true)
}

/// Greets a life that is known, and tells whether a handshake was owed to it.
fn meet(peers: &mut Peers, life: Life) -> Option<bool> {
    if peers.has(life) {
        Some(peers.meet(life))
    } else {
        None
    }
}

/// Hears a number of a life that is known, if it is new. None where it is not.
fn hear(peers: &mut Peers, life: Life, no: MsgNo) -> Result<Option<u64>, NoMemory> {
    if !peers.has(life) {
        return Ok(None);
    }
    peers.reserve_hear(life)?;
    match peers.heard(life, no) {
        New => Ok(Some(peers.hear(life, no))),
        Waiting | Entered => {
            peers.give_back_hear(life);
            Ok(None)
        }
    }
}

/// The lives that are known, whose messages are numbered from that number on, answer each call as it says. What wants memory
/// in vain changes nothing, so it answers the same when it is called again.
fn run(rt: &impl Abort, alloc: Global, first: u32, calls: &[Call]) -> Result<(), NoMemory> {
    let mut peers = Peers::new(alloc, first);
    for call in calls {
        match *call {
            Open(life, answer) => {
                let given = open(&mut peers, life).or_else(|_no_memory| open(&mut peers, life))?;
                assert!(rt; given == answer);
                assert!(rt; peers.has(life));
            }
            Forget(life) => {
                peers.forget(life);
                assert!(rt; !peers.has(life));
            }
            IsMet(life, answer) => assert!(rt; peers.is_met(life) == answer),
            Meet(life, answer) => assert!(rt; meet(&mut peers, life) == answer),
            Known(life, answer) => assert!(rt; peers.known(life) == answer),
            Learn(life, words) => {
                if peers.has(life) {
                    peers.learn(life, words);
                }
            }
            WantsRaw(life, answer) => assert!(rt; peers.wants_raw(life) == answer),
            Next(life, answer) => assert!(rt; peers.next_number(life) == answer.map(MsgNo)),
            Take(life, answer) => {
                if peers.has(life) {
                    assert!(rt; peers.take_number(life) == answer.map(MsgNo));
                }
            }
            State(life, number, answer) => {
                assert!(rt; peers.heard(life, MsgNo(number)) == answer);
            }
            Entering(life, answer) => assert!(rt; peers.next_entering(life) == answer),
            Hear(life, number, answer) => {
                let no = MsgNo(number);
                let given = hear(&mut peers, life, no).or_else(|_no_memory| hear(
                    &mut peers, life, no,
                ))?;
                assert!(rt; given == answer);
            }
        }
    }
    Ok(())
}

#[test]
fn a_life_is_greeted_once(rt: HostRuntime) -> Result<(), Fail> {
    let (a, b) = (life(1, 2), life(1, 3));
    let calls = [
        IsMet(a, false),
        Meet(a, None),
        Open(a, true),
        Open(a, false),
        IsMet(a, false),
        Meet(a, Some(true)),
        IsMet(a, true),
        Meet(a, Some(false)),
        Open(b, true),
        IsMet(b, false),
        Forget(a),
        IsMet(a, false),
        Open(a, true),
        Meet(a, Some(true)),
    ];
    run(&rt, rt.alloc(), 0, &calls)?;
    Ok(())
}

#[test]
fn the_first_words_stay(rt: HostRuntime) -> Result<(), Fail> {
    let (a, b) = (life(1, 2), life(2, 2));
    let calls = [
        WantsRaw(a, true),
        Open(a, true),
        Open(b, true),
        Known(a, None),
        Learn(a, &[]),
        Known(a, None),
        Learn(a, &[25, 4]),
        Known(a, Some(25)),
        WantsRaw(a, false),
        Learn(a, &[4]),
        Known(a, Some(25)),
        Known(b, None),
        WantsRaw(b, true),
        Learn(b, &[4]),
        WantsRaw(b, true),
    ];
    run(&rt, rt.alloc(), 0, &calls)?;
    Ok(())
}

#[test]
fn each_number_is_given_once(rt: HostRuntime) -> Result<(), Fail> {
    let (a, b) = (life(1, 2), life(2, 2));
    let calls = [
        Next(a, Some(u32::MAX - 1)),
        Open(a, true),
        Open(b, true),
        Take(a, Some(u32::MAX - 1)),
        Next(a, Some(u32::MAX)),
        Take(a, Some(u32::MAX)),
        Next(a, None),
        Take(a, None),
        Take(b, Some(u32::MAX - 1)),
    ];
    run(&rt, rt.alloc(), u32::MAX - 1, &calls)?;
    Ok(())
}

#[test]
fn messages_of_a_life_enter_in_order(rt: HostRuntime) -> Result<(), Fail> {
    let (a, b) = (life(1, 2), life(2, 2));
    let calls = [
        State(a, 9, Entered),
        State(a, 10, New),
        Entering(a, 10),
        Hear(a, 10, None),
        Open(a, true),
        Open(b, true),
        Hear(a, 11, Some(0)),
        State(a, 11, Waiting),
        State(b, 11, New),
        Hear(a, 11, None),
        Hear(a, 10, Some(2)),
        State(a, 11, Entered),
        Entering(a, 12),
        Entering(b, 10),
        Forget(a),
        State(a, 11, New),
        Entering(a, 10),
    ];
    run(&rt, rt.alloc(), 10, &calls)?;
    Ok(())
}
