//! What was asked for of a send that is read.
use arrayvec::ArrayVec;
use rdm_num::{Iov, IovEntry, NoMemory, OpId};
use rdm_tx::Asked;
use rdm_wire::ReadAsk;
use std::process::Abort;
use std::test::Fail;

/// 16 bytes in two ranges. A receiver reads those from 4 on.
const RANGES: [IovEntry; 2] = [
    IovEntry {
        offset: 100,
        length: 10,
        key: 7,
    },
    IovEntry {
        offset: 0,
        length: 6,
        key: 9,
    },
];

/// What comes for the send, or is pushed by it.
#[derive(Clone, Copy)]
enum Call {
    /// An ask that is right, by its key, its offset, its length and its place.
    Ask(u64, u64, u64, u64),
    /// An ask that is wrong.
    WrongAsk(u64, u64, u64, u64),
    Answer,
}

/// Calls, each with how many answers are owed then and whether an end would come early.
const CALLS: [(Call, u64, bool); 18] = [
    (Call::WrongAsk(7, 103, 2, 3), 0, true),
    (Call::WrongAsk(7, 104, 0, 4), 0, true),
    (Call::WrongAsk(7, 104, 7, 4), 0, true),
    (Call::WrongAsk(9, 104, 2, 4), 0, true),
    (Call::WrongAsk(7, 105, 2, 4), 0, true),
    (Call::Ask(7, 104, 2, 4), 1, true),
    (Call::WrongAsk(7, 104, 2, 4), 1, true),
    (Call::WrongAsk(7, 105, 2, 5), 1, true),
    (Call::WrongAsk(9, 0, 7, 10), 1, true),
    (Call::WrongAsk(9, 6, 1, 16), 1, true),
    (Call::WrongAsk(9, u64::MAX, u64::MAX, u64::MAX), 1, true),
    (Call::Ask(9, 0, 6, 10), 2, true),
    (Call::Answer, 1, true),
    (Call::Answer, 0, true),
    (Call::Ask(7, 106, 4, 6), 1, true),
    (Call::WrongAsk(7, 106, 4, 6), 1, true),
    (Call::Answer, 0, false),
    (Call::WrongAsk(9, 5, 1, 15), 0, false),
];

/// An ask of receive 3 for bytes of send 2.
fn ask(key: u64, offset: u64, length: u64, at: u64) -> ReadAsk {
    ReadAsk {
        send_id: OpId(2),
        recv_id: OpId(3),
        key,
        offset,
        length,
        at,
    }
}

/// The call, where an ask takes its memory at once or in room that was made before.
fn calls(rt: &impl Abort, asked: &mut Asked, call: Call, reserves: bool) -> Result<(), NoMemory> {
    match call {
        Call::WrongAsk(key, offset, length, at) => {
            assert!(rt; !asked.may_ask(&ask(key, offset, length, at)), "at {at}");
        }
        Call::Ask(key, offset, length, at) => {
            let ask = ask(key, offset, length, at);
            assert!(rt; asked.may_ask(&ask), "at {at}");
            if reserves {
                asked.reserve_ask()?;
                assert!(rt; asked.room() == 1);
                asked.ask_reserved(&ask);
                assert!(rt; asked.room() == 0);
            } else {
                asked.ask(&ask)?;
            }
        }
        Call::Answer => {
            assert!(rt; asked.owes() > 0);
            asked.answer();
        }
    }
    Ok(())
}

#[test]
fn each_byte_is_asked_for_once_and_answered(rt: HostRuntime) -> Result<(), Fail> {
    for reserves in [false, true] {
        let mut ranges = ArrayVec::<IovEntry, 4>::new();
        for range in RANGES {
            assert!(rt; ranges.try_push(range).is_ok());
        }
        let iov = Iov::from_array_vec(ranges).expect(&rt, "there is a range");
        let mut asked = Asked::new(rt.alloc(), 4, 16, iov)?;
        for (next, owes, is_early) in CALLS {
            calls(&rt, &mut asked, next, reserves)?;
            assert_eq!(rt; asked.owes(), owes);
            assert_eq!(rt; asked.is_early_end(), is_early);
        }
    }
    Ok(())
}
