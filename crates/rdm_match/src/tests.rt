ghost use Rattle.std.specs.Prelude.{◌≡◌, ◌<◌, ◌≤◌, ◌-◌};

use crate::{Arrived, Matcher, PostedRecv, TagMatcher};
use rdm_num::{Connid, Life, MsgNo, NoMemory, PortNo, RecvNo, Want};
use std::process::Abort;
use std::test::Fail;

/// The life that most messages come from.
const ONE: Life = Life {
    port: PortNo(0),
    connid: Connid(5),
};

/// A life of another port.
const OTHER: Life = Life {
    port: PortNo(1),
    connid: Connid(7),
};

/// A later life of that port.
const LATER: Life = Life {
    port: PortNo(1),
    connid: Connid(8),
};

/// What comes to a matcher, and what it answers.
#[derive(Clone, Copy)]
enum Step {
    Post(PostedRecv, Option<Arrived>),
    Arrive(Arrived, Option<PostedRecv>),
    WouldTake(Arrived, Option<RecvNo>),
    Cancel(RecvNo, bool),
}

use Step::{Arrive, Cancel, Post, WouldTake};

/// A tagged receive from any source.
fn tagged(id: u64, tag: u64, ignore: u64) -> PostedRecv {
    PostedRecv {
        id: RecvNo(id),
        from: None,
        want: Some(Want { tag, ignore }),
    }
}

/// An untagged receive from a source, or from any.
fn untagged(id: u64, from: Option<Life>) -> PostedRecv {
    PostedRecv {
        id: RecvNo(id),
        from,
        want: None,
    }
}

/// A message with a tag, or without one.
fn message(life: Life, no: u32, tag: Option<u64>) -> Arrived {
    Arrived {
        life,
        no: MsgNo(no),
        tag,
    }
}

/// Posts a receive whose number is not posted: a cancel of it finds nothing and changes nothing.
#[tactic(auto, using(crate::proofs::Cancelled::vain_cancel))]
fn post<M: TagMatcher>(
    rt: &impl Abort,
    matcher: &mut M,
    r: PostedRecv,
) -> Result<Option<Arrived>, NoMemory> {
    let was_posted = matcher.cancel(r.id);
    assert!(rt; !was_posted);
    matcher.post(r)
}

/// The matcher answers each step as it says.
fn run<M: TagMatcher>(rt: &impl Abort, matcher: &mut M, steps: &[Step]) -> Result<(), NoMemory> {
    for step in steps {
        match step {
            Post(r, taken) => {
                assert!(rt; matcher.would_meet(r) == *taken);
                assert!(rt; post(rt, matcher, *r)? == *taken);
            }
            Arrive(a, taker) => assert!(rt; matcher.arrive(*a)? == *taker),
            WouldTake(a, taker) => assert!(rt; matcher.would_take(a) == *taker),
            Cancel(id, was_posted) => assert!(rt; matcher.cancel(*id) == *was_posted),
        }
    }
    Ok(())
}

/// Asks for more room. That it is refused changes nothing.
fn ask_for_more<M: TagMatcher>(matcher: &mut M)
    ensures waiting { (M.kept matcher.new).waiting ≡ (M.kept matcher.old).waiting }
    ensures posts { (M.kept matcher.old).posts ≤ (M.kept matcher.new).posts }
    ensures arrivals { (M.kept matcher.old).arrivals ≤ (M.kept matcher.new).arrivals }
{
    let _post = matcher.reserve_post().is_ok();
    let _arrival = matcher.reserve_arrival().is_ok();
}

/// Posts a receive in room that was made before.
#[tactic(auto, using(crate::proofs::Cancelled::vain_cancel))]
fn post_reserved<M: TagMatcher>(rt: &impl Abort, matcher: &mut M, r: PostedRecv) -> Option<Arrived>
    requires { 0 < (M.kept matcher.old).posts }
    ensures posts { (M.kept matcher.old).posts - 1 ≤ (M.kept matcher.new).posts }
    ensures arrivals { (M.kept matcher.old).arrivals ≤ (M.kept matcher.new).arrivals }
{
    ask_for_more(matcher);
    let was_posted = matcher.cancel(r.id);
    assert!(rt; !was_posted);
    matcher.post_reserved(r)
}

/// Lets a message arrive in room that was made before.
fn arrive_reserved<M: TagMatcher>(matcher: &mut M, a: Arrived) -> Option<PostedRecv>
    requires { 0 < (M.kept matcher.old).arrivals }
    ensures posts { (M.kept matcher.old).posts ≤ (M.kept matcher.new).posts }
    ensures arrivals { (M.kept matcher.old).arrivals - 1 ≤ (M.kept matcher.new).arrivals }
{
    ask_for_more(matcher);
    matcher.arrive_reserved(a)
}

/// Receives and messages meet in room that was made before, whether memory is given in between or
/// refused.
fn meet_in_room<M: TagMatcher>(rt: &impl Abort, matcher: &mut M) -> Result<(), NoMemory> {
    matcher.reserve_post()?;
    matcher.reserve_post()?;
    matcher.reserve_arrival()?;
    matcher.reserve_arrival()?;
    let exact = tagged(0, 1, 0);
    let any = tagged(1, 0, u64::MAX);
    let first = message(ONE, 0, Some(1));
    let second = message(ONE, 1, Some(1));
    assert!(rt; post_reserved(rt, matcher, exact) == None);
    assert!(rt; matcher.cancel(exact.id));
    assert!(rt; post_reserved(rt, matcher, any) == None);
    assert!(rt; arrive_reserved(matcher, first) == Some(any));
    assert!(rt; arrive_reserved(matcher, second) == None);
    matcher.forget_life(OTHER);
    assert!(rt; matcher.would_meet(&exact) == Some(second));
    Ok(())
}

#[test]
fn the_first_that_fits_is_taken(rt: HostRuntime) -> Result<(), Fail> {
    let mut matcher = Matcher::new(rt.alloc());
    let steps = [
        Arrive(message(ONE, 0, Some(1)), None),
        Arrive(message(ONE, 1, Some(1)), None),
        Post(tagged(0, 1, 0), Some(message(ONE, 0, Some(1)))),
        Post(tagged(1, 1, 0), Some(message(ONE, 1, Some(1)))),
        Post(tagged(2, 1, 0), None),
        Post(tagged(3, 0, u64::MAX), None),
        Arrive(message(ONE, 2, Some(1)), Some(tagged(2, 1, 0))),
        Arrive(message(ONE, 3, Some(1)), Some(tagged(3, 0, u64::MAX))),
        // The bits that are ignored.
        Post(tagged(4, 256, 255), None),
        Arrive(message(ONE, 4, Some(513)), None),
        Arrive(message(ONE, 5, Some(257)), Some(tagged(4, 256, 255))),
        Post(tagged(5, 513, 0), Some(message(ONE, 4, Some(513)))),
    ];
    run(&rt, &mut matcher, &steps)?;
    Ok(())
}

#[test]
fn some_never_meet(rt: HostRuntime) -> Result<(), Fail> {
    let mut matcher = Matcher::new(rt.alloc());
    let steps = [
        // The tagged and the untagged.
        Post(tagged(0, 0, u64::MAX), None),
        Arrive(message(ONE, 0, None), None),
        WouldTake(message(ONE, 1, Some(7)), Some(RecvNo(0))),
        Post(untagged(1, None), Some(message(ONE, 0, None))),
        Cancel(RecvNo(0), true),
        Cancel(RecvNo(0), false),
        // A named source, and messages from others.
        Post(untagged(2, Some(OTHER)), None),
        Post(untagged(3, None), None),
        Post(untagged(4, Some(ONE)), None),
        WouldTake(message(LATER, 0, None), Some(RecvNo(3))),
        Arrive(message(ONE, 1, None), Some(untagged(3, None))),
        Arrive(message(ONE, 2, None), Some(untagged(4, Some(ONE)))),
        Arrive(message(LATER, 0, None), None),
        Arrive(message(OTHER, 0, None), Some(untagged(2, Some(OTHER)))),
    ];
    run(&rt, &mut matcher, &steps)?;
    Ok(())
}

#[test]
fn a_forgotten_life_goes_from_both_lists(rt: HostRuntime) -> Result<(), Fail> {
    let mut matcher = Matcher::new(rt.alloc());
    let receives = [untagged(0, Some(OTHER)), untagged(2, Some(OTHER))];
    let messages = [message(OTHER, 0, Some(1)), message(OTHER, 1, Some(3))];
    let before = [
        Post(receives[0], None),
        Post(untagged(1, Some(ONE)), None),
        Post(receives[1], None),
        Arrive(messages[0], None),
        Arrive(message(ONE, 0, Some(2)), None),
        Arrive(messages[1], None),
    ];
    run(&rt, &mut matcher, &before)?;
    let forgotten = matcher.forget(rt.alloc(), OTHER)?;
    assert!(rt; forgotten.arrived.as_slice() == messages.as_slice());
    assert!(rt; forgotten.posted.as_slice() == receives.as_slice());
    let after = [
        Cancel(RecvNo(0), false),
        Cancel(RecvNo(1), true),
        Post(tagged(3, 0, u64::MAX), Some(message(ONE, 0, Some(2)))),
        Post(tagged(4, 0, u64::MAX), None),
    ];
    run(&rt, &mut matcher, &after)?;
    Ok(())
}

#[test]
fn what_was_reserved_for_needs_no_memory(rt: HostRuntime) -> Result<(), Fail> {
    let mut matcher = Matcher::new(rt.alloc());
    meet_in_room(&rt, &mut matcher)?;
    Ok(())
}
