use crate::{Av, InsertRefused, Inserted, Origin};
use rdm_num::{Connid, Life, NoMemory, PortNo};
use std::alloc::Global;
use std::process::Abort;
use std::test::Fail;

/// What comes to the lives, and what they answer.
#[derive(Clone, Copy)]
enum Call {
    Insert(Life, Result<Inserted, InsertRefused>),
    /// A life that is first seen is taken in, where its port had no current life.
    TakeIn(Life, bool),
    /// What the source of a datagram is, with a raw address or without.
    Classify(Life, bool, Origin),
    Current(u32, Option<Life>),
    IsSuperseded(Life, bool),
}

use Call::{Classify, Current, Insert, IsSuperseded, TakeIn};
use Inserted::{Same, Supersedes};
use Origin::{FirstSeen, FromOther, Unknown};

fn life(port: u32, connid: u32) -> Life {
    Life {
        port: PortNo(port),
        connid: Connid(connid),
    }
}

/// Inserts a life, with a reservation of its own or without.
fn insert(av: &mut Av, life: Life, reserves: bool) -> Result<Inserted, InsertRefused> {
    if reserves {
        av.reserve()?;
        Ok(av.insert_reserved(life)?)
    } else {
        av.insert(life)
    }
}

/// Takes a life in, with a reservation of its own or without, and tells whether its port had none.
fn take_in(av: &mut Av, life: Life, reserves: bool) -> Result<bool, NoMemory> {
    if av.current(life.port).is_some() {
        return Ok(false);
    }
    if reserves {
        av.reserve()?;
        if av.current(life.port).is_none() {
            av.implicit_reserved(life);
        }
    } else {
        av.implicit(life)?;
    }
    Ok(true)
}

/// The lives answer each call as it says. What wants memory in vain changes nothing, so it answers the
/// same when it is called again.
fn run(rt: &impl Abort, alloc: Global, calls: &[Call], reserves: bool) {
    let mut av = Av::new(alloc);
    for call in calls {
        match *call {
            Insert(life, answer) => {
                let mut given = insert(&mut av, life, reserves);
                if given == Err(InsertRefused::Memory) {
                    given = insert(&mut av, life, reserves);
                }
                assert!(rt; given == answer);
            }
            TakeIn(life, answer) => {
                let mut given = take_in(&mut av, life, reserves);
                if given.is_err() {
                    given = take_in(&mut av, life, reserves);
                }
                assert!(rt; given == Ok(answer));
            }
            Classify(life, has_raw, origin) => {
                assert!(rt; av.classify(life, has_raw) == origin);
            }
            Current(port, life) => assert!(rt; av.current(PortNo(port)) == life),
            IsSuperseded(life, answer) => assert!(rt; av.is_superseded(life) == answer),
        }
    }
}

#[test]
fn a_superseded_life_stays_so(rt: HostRuntime) -> Result<(), Fail> {
    // One port after another, and a port that has three lives in turn.
    let calls = [
        Classify(life(1, 7), true, FirstSeen),
        Classify(life(1, 7), false, Unknown),
        TakeIn(life(1, 7), true),
        TakeIn(life(1, 8), false),
        Insert(life(1, 7), Ok(Same)),
        Insert(life(1, 8), Ok(Supersedes(life(1, 7)))),
        Insert(life(1, 7), Err(InsertRefused::Superseded)),
        Classify(life(1, 7), true, FromOther),
        Classify(life(1, 8), true, Origin::Current),
        IsSuperseded(life(1, 7), true),
        IsSuperseded(life(1, 8), false),
        Insert(life(2, 7), Ok(Inserted::Inserted)),
        Insert(life(1, 9), Ok(Supersedes(life(1, 8)))),
        Insert(life(1, 8), Err(InsertRefused::Superseded)),
        Current(1, Some(life(1, 9))),
        Current(3, None),
    ];
    for reserves in [false, true] {
        run(&rt, rt.alloc(), &calls, reserves);
    }
    Ok(())
}
