use crate::{Cq, CqFull};
use rdm_num::{Completion, Outcome, RecvNo, SendNo};
use std::process::Abort;
use std::test::Fail;

/// What comes to a queue, and what it answers.
#[derive(Clone, Copy)]
enum Call {
    /// A place is reserved, unless it is refused, and the completion is written into it.
    Note(What, Result<(), CqFull>),
    /// A place is reserved, unless it is refused, and given back.
    Reserve(Result<(), CqFull>),
    Poll(Option<What>),
    IsEmpty(bool),
}

use Call::{IsEmpty, Note, Poll, Reserve};

/// A completion of those that stand below.
#[derive(Clone, Copy)]
enum What {
    Sent(u64),
    Cancelled(u64),
}

use What::{Cancelled, Sent};

fn completion(what: What) -> Completion {
    match what {
        Sent(number) => Completion::Send {
            send: SendNo(number),
            gone: false,
        },
        Cancelled(number) => Completion::Recv {
            recv: RecvNo(number),
            outcome: Outcome::Cancelled,
        },
    }
}

/// Reserves a place and writes the item into it.
fn note<T: Drop>(cq: &mut Cq<T>, item: T) -> Result<(), CqFull> {
    cq.reserve()?;
    cq.write(item);
    Ok(())
}

/// Reserves a place and gives it back.
fn reserve<T>(cq: &mut Cq<T>) -> Result<(), CqFull> {
    cq.reserve()?;
    cq.unreserve();
    Ok(())
}

/// The queue answers each call as it says.
fn run(rt: &impl Abort, cq: &mut Cq<Completion>, calls: &[Call]) {
    for call in calls {
        match call {
            Note(what, answer) => assert!(rt; note(cq, completion(*what)) == *answer),
            Reserve(answer) => assert!(rt; reserve(cq) == *answer),
            Poll(answer) => assert!(rt; cq.poll() == answer.map(completion)),
            IsEmpty(is_empty) => assert!(rt; cq.is_empty() == *is_empty),
        }
    }
}

#[test]
fn completions_come_in_order(rt: HostRuntime) -> Result<(), Fail> {
    let mut cq = Cq::new(rt.alloc(), 2)?;
    let calls = [
        IsEmpty(true),
        Note(Sent(3), Ok(())),
        IsEmpty(false),
        Reserve(Ok(())),
        Reserve(Ok(())),
        Note(Cancelled(0), Ok(())),
        Reserve(Err(CqFull)),
        Note(Sent(2), Err(CqFull)),
        Poll(Some(Sent(3))),
        Note(Sent(2), Ok(())),
        Poll(Some(Cancelled(0))),
        Poll(Some(Sent(2))),
        Poll(None),
        IsEmpty(true),
    ];
    run(&rt, &mut cq, &calls);
    Ok(())
}

#[test]
fn reserved_places_are_taken(rt: HostRuntime) -> Result<(), Fail> {
    let mut cq = Cq::new(rt.alloc(), 1)?;
    if cq.reserve().is_ok() {
        run(&rt, &mut cq, &[Note(Sent(3), Err(CqFull)), IsEmpty(true)]);
    }
    let mut without_a_place = Cq::new(rt.alloc(), 0)?;
    run(
        &rt,
        &mut without_a_place,
        &[Reserve(Err(CqFull)), Poll(None)],
    );
    Ok(())
}

#[test]
fn items_of_another_type_come_in_order(rt: HostRuntime) -> Result<(), Fail> {
    let words = ["first", "second"];
    let mut cq = Cq::new(rt.alloc(), 2)?;
    for word in words {
        assert!(rt; note(&mut cq, word) == Ok(()));
    }
    assert!(rt; note(&mut cq, "third") == Err(CqFull));
    for word in words {
        assert!(rt; cq.poll() == Some(word));
    }
    Ok(())
}
