use crate::Matched;
use rdm_num::{Connid, Life, MsgNo, NoMemory, OpId, PortNo};
use std::alloc::Global;
use std::process::Abort;
use std::test::Fail;

/// What comes to the matched messages, and what they answer.
#[derive(Clone, Copy)]
enum Call {
    /// A message that no receive took yet is matched to that one: else nothing is done.
    Put(Life, u32, u32, bool),
    Of(Life, u32, Option<u32>),
    Take(Life, u32, Option<u32>),
}

use Call::{Of, Put, Take};

fn life(port: u32, connid: u32) -> Life {
    Life {
        port: PortNo(port),
        connid: Connid(connid),
    }
}

/// Matches a message to a receive, unless it was matched.
fn put(matched: &mut Matched, life: Life, no: MsgNo, recv: OpId) -> Result<bool, NoMemory> {
    matched.reserve()?;
    match matched.receive_of(life, no) {
        None => {
            matched.put(life, no, recv);
            Ok(true)
        }
        Some(_taker) => {
            matched.give_back();
            Ok(false)
        }
    }
}

/// The matched messages answer each call as it says. What wants memory in vain changes nothing, so it answers the same when
/// it is called again.
fn run(rt: &impl Abort, alloc: Global, calls: &[Call]) -> Result<(), NoMemory> {
    let mut matched = Matched::new(alloc);
    for call in calls {
        match *call {
            Put(life, number, recv, answer) => {
                let (no, recv) = (MsgNo(number), OpId(recv));
                let given = put(&mut matched, life, no, recv).or_else(|_no_memory| put(
                    &mut matched,
                    life,
                    no,
                    recv,
                ))?;
                assert!(rt; given == answer);
            }
            Of(life, number, answer) => {
                assert!(rt; matched.receive_of(life, MsgNo(number)) == answer.map(OpId));
            }
            Take(life, number, answer) => {
                assert!(rt; matched.take(life, MsgNo(number)) == answer.map(OpId));
            }
        }
    }
    Ok(())
}

#[test]
fn a_message_has_the_receive_that_took_it(rt: HostRuntime) -> Result<(), Fail> {
    let (a, b) = (life(1, 2), life(2, 1));
    let calls = [
        Of(a, 3, None),
        Put(a, 3, 7, true),
        Put(a, 3, 8, false),
        Put(b, 3, 8, true),
        Put(a, 4, 9, true),
        Of(a, 3, Some(7)),
        Of(b, 3, Some(8)),
        Of(a, 4, Some(9)),
        Take(b, 4, None),
        Take(a, 3, Some(7)),
        Of(a, 3, None),
        Take(a, 3, None),
        Of(a, 4, Some(9)),
        Put(a, 3, 0, true),
        Of(a, 3, Some(0)),
    ];
    run(&rt, rt.alloc(), &calls)?;
    Ok(())
}
