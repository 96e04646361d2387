use crate::{Full, Pool};
use rdm_num::OpId;
use std::collections::VecDeque;
use std::test::Fail;

#[test]
fn a_number_comes_once(rt: HostRuntime) -> Result<(), Fail> {
    let mut pool = Pool::new(rt.alloc(), 1)?;
    assert!(rt; pool.put('a') == Ok(OpId(0)));
    assert!(rt; pool.put('b') == Err(Full('b')));
    assert!(rt; pool.take(OpId(0)) == Some('a'));
    assert!(rt; pool.put('b') == Ok(OpId(1)));
    assert!(rt; pool.get(OpId(0)).is_none());
    Ok(())
}

#[test]
fn a_write_changes_one_value(rt: HostRuntime) -> Result<(), Fail> {
    let mut pool = Pool::new(rt.alloc(), 1)?;
    assert!(rt; pool.put(6) == Ok(OpId(0)));
    if let Some(value) = pool.get_mut(OpId(0)) {
        *value = 7;
    }
    assert!(rt; pool.get(OpId(0)).copied() == Some(7));
    Ok(())
}

/// The value that `values_come_and_go` puts under a number.
fn value_for(number: u32) -> u64 {
    u64::from(number) * 7 + 1
}

#[test]
fn values_come_and_go(rt: HostRuntime) -> Result<(), Fail> {
    let mut pool = Pool::new(rt.alloc(), 4)?;
    let mut held = VecDeque::new(rt.alloc());
    for number in 0..100 {
        if pool.is_full() {
            // The newest in every fifth turn, and else the oldest.
            let other = if number % 5 == 0 {
                held.pop_back()
            } else {
                held.pop_front()
            };
            let other = other.ok_or("none is held")?;
            assert!(rt; pool.take(OpId(other)) == Some(value_for(other)));
            assert!(rt; pool.take(OpId(other)) == None);
        }
        assert!(rt; pool.put(value_for(number)) == Ok(OpId(number)));
        held.push_back(number)?;
        for other in &held {
            assert!(rt; pool.get(OpId(*other)).copied() == Some(value_for(*other)));
        }
    }
    assert!(rt; pool.take(OpId(97)) == Some(value_for(97)));
    let nexts = [
        (0, Some(OpId(96))),
        (96, Some(OpId(96))),
        (97, Some(OpId(98))),
        (99, Some(OpId(99))),
        (100, None),
        (u32::MAX, None),
    ];
    for (from, next) in nexts {
        assert!(rt; pool.next_from(OpId(from)) == next);
    }
    Ok(())
}

#[test]
fn a_size_may_be_none_or_too_great(rt: HostRuntime) -> Result<(), Fail> {
    assert!(rt; Pool::<u8>::new(rt.alloc(), 0)?.is_full());
    assert!(rt; Pool::<u8>::new(rt.alloc(), usize::MAX).is_err());
    assert!(rt; Pool::<u8>::new(rt.alloc(), usize::MAX / 2).is_err());
    Ok(())
}

/// A call of the table in `marks_come_and_go`.
#[derive(Clone, Copy)]
enum Step {
    Put,
    Take(u32),
    Mark(u32),
    Unmark(u32),
}

#[test]
fn marks_come_and_go(rt: HostRuntime) -> Result<(), Fail> {
    let mut pool = Pool::new(rt.alloc(), 4)?;
    // Each call, and the first marked number after it, from 0, 2 and 5 on.
    let table = [
        (Step::Put, [None, None, None]),
        (Step::Mark(0), [Some(0), None, None]),
        (Step::Mark(1), [Some(0), None, None]),
        (Step::Put, [Some(0), None, None]),
        (Step::Put, [Some(0), None, None]),
        (Step::Put, [Some(0), None, None]),
        (Step::Mark(3), [Some(0), Some(3), None]),
        (Step::Mark(2), [Some(0), Some(2), None]),
        (Step::Take(0), [Some(2), Some(2), None]),
        (Step::Unmark(2), [Some(3), Some(3), None]),
        (Step::Take(1), [Some(3), Some(3), None]),
        (Step::Put, [Some(3), Some(3), None]),
        (Step::Put, [Some(3), Some(3), None]),
        (Step::Take(2), [Some(3), Some(3), None]),
        (Step::Mark(5), [Some(3), Some(3), Some(5)]),
        (Step::Put, [Some(3), Some(3), Some(5)]),
        (Step::Take(4), [Some(3), Some(3), Some(5)]),
        (Step::Put, [Some(3), Some(3), Some(5)]),
        (Step::Take(3), [Some(5), Some(5), Some(5)]),
        (Step::Put, [Some(5), Some(5), Some(5)]),
        (Step::Unmark(5), [None, None, None]),
    ];
    for &(step, firsts) in &table {
        match step {
            Step::Put => assert!(rt; pool.put('a').is_ok()),
            Step::Take(number) => assert!(rt; pool.take(OpId(number)).is_some()),
            Step::Mark(number) => pool.mark(OpId(number)),
            Step::Unmark(number) => pool.unmark(OpId(number)),
        }
        for (from, first) in [0, 2, 5].into_iter().zip(firsts) {
            assert!(rt; pool.first_marked(OpId(from)) == first.map(OpId));
        }
    }
    assert!(rt; pool.len() == 4);
    assert!(rt; pool.next_number() == OpId(9));
    assert!(rt; !pool.is_marked(OpId(5)));
    Ok(())
}
