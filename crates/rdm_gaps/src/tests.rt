use crate::Gaps;
use std::test::Fail;

/// Takes of a message of ten places, one after another: the range, the answer, and how many places
/// are missing then.
const TAKES: [(u64, u64, bool, u64); 9] = [
    (3, 4, true, 6),
    (5, 1, false, 6),
    (0, 0, true, 6),
    (7, 4, false, 6),
    (10, 0, true, 6),
    (11, 0, false, 6),
    (u64::MAX, 2, false, 6),
    (0, 3, true, 3),
    (7, 3, true, 0),
];

/// Places of the same message, and how many have come from there on.
const LULLS: [(u64, u64); 8] = [
    (0, 0),
    (1, 0),
    (2, 3),
    (4, 1),
    (5, 0),
    (9, 0),
    (10, 0),
    (11, 0),
];

/// Places of a message of ten of which those from 2 up to 5 were taken, and how many are missing from
/// there on.
const RUNS: [(u64, u64); 6] = [(0, 2), (1, 1), (2, 0), (4, 0), (5, 5), (10, 0)];

#[test]
fn each_place_is_taken_once(rt: HostRuntime) -> Result<(), Fail> {
    let mut gaps = Gaps::whole(rt.alloc(), 10)?;
    for (off, len, taken, missing) in TAKES {
        assert_eq!(rt; gaps.take(off, len)?, taken, "at {off}");
        assert_eq!(rt; gaps.missing(), missing, "at {off}");
    }
    assert!(rt; gaps.is_empty());
    Ok(())
}

#[test]
fn a_range_that_is_put_back_is_missing(rt: HostRuntime) -> Result<(), Fail> {
    let mut gaps = Gaps::whole(rt.alloc(), 10)?;
    gaps.reserve(2)?;
    if gaps.take_reserved(2, 3) {
        for (at, missing) in RUNS {
            assert_eq!(rt; gaps.missing_from(at), missing, "at {at}");
        }
        for (at, came) in LULLS {
            assert_eq!(rt; gaps.came_from(at), came, "at {at}");
        }
        gaps.untake(2, 3);
    }
    assert_eq!(rt; gaps.missing_from(0), 10);
    Ok(())
}
