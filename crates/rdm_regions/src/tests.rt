ghost use Rattle.std.specs.Prelude.{◌≡◌};
ghost use Rattle.std.specs.FinMap as finite;
ghost use Rattle.rdm_regions.specs.Registry.{nothing};
ghost use Rattle.rdm_regions.specs.Holds.{HoldsNone};

use crate::{RegionRefused, Regions, holds_law};
use arrayvec::ArrayVec;
use rdm_num::{OpId, Parts, RegionNo, Span};
use std::alloc::Global;
use std::test::Fail;

const TEN: [u8; 10] = [10, 11, 12, 13, 14, 15, 16, 17, 18, 19];

const ZERO: RegionNo = RegionNo(0);

/// Ranges, each by its region, place and length; whether a send may hold it while the first five bytes
/// are held, and what comes of a lease of it then.
const RANGES: [(u32, u64, u64, bool, Result<usize, RegionRefused>); 6] = [
    (0, 4, 2, true, Err(RegionRefused::Busy)),
    (0, 5, 5, true, Ok(5)),
    (0, 2, 0, true, Ok(0)),
    (0, 8, 3, false, Err(RegionRefused::Range)),
    (0, u64::MAX, u64::MAX, false, Err(RegionRefused::Range)),
    (1, 0, 1, false, Err(RegionRefused::NoRegion)),
];

/// Four ranges at once, each by its region, place and length; whether a send may hold them all, and
/// what comes of a lease of all ten bytes then.
const SEVERAL: [(
    [(u32, u64, u64); 4],
    Result<(), RegionRefused>,
    Result<usize, RegionRefused>,
); 4] = [
    (
        [(0, 0, 2), (0, 1, 2), (0, 4, 6), (0, 10, 0)],
        Ok(()),
        Err(RegionRefused::Busy),
    ),
    (
        [(0, 0, 2), (0, 2, 2), (0, 9, 2), (0, 4, 1)],
        Err(RegionRefused::Range),
        Ok(10),
    ),
    (
        [(0, 9, 2), (0, 0, 2), (1, 0, 1), (0, 4, 1)],
        Err(RegionRefused::NoRegion),
        Ok(10),
    ),
    (
        [(0, 0, 0), (0, 3, 0), (0, 7, 0), (0, 10, 0)],
        Ok(()),
        Ok(10),
    ),
];

/// Registers ten bytes, and tells whether the region has the number 0.
fn register(alloc: Global, regions: &mut Regions) -> bool
    requires { regions.old ≡ nothing }
    ensures { (regions.new.held ≡ finite.empty) × (regions.new.leased ≡ finite.empty) }
{
    match regions.reg(alloc, &TEN) {
        Ok(region) => region == ZERO,
        Err(_) => false,
    }
}

/// Lets the first send hold a range.
fn hold(regions: &mut Regions, at: u64, len: u64) -> Result<(), RegionRefused>
    requires { (regions.old.held ≡ finite.empty) × (regions.old.leased ≡ finite.empty) }
    ensures { regions.new.leased ≡ finite.empty }
{
    match regions.hold(OpId(0), ZERO, at, len) {
        Ok(()) => Ok(()),
        Err(why) => Err(why),
    }
}

/// Takes a part out and puts it back, and tells how long it is.
fn out_and_back(
    regions: &mut Regions,
    recv: OpId,
    region: RegionNo,
    at: u64,
    len: u64,
) -> Result<usize, RegionRefused>
    requires { regions.old.leased ≡ finite.empty }
    ensures { regions.new.leased ≡ finite.empty }
{
    match regions.lease_out(recv, region, at, len) {
        Ok(part) => {
            let size = part.len();
            regions.lease_back(recv, part);
            Ok(size)
        }
        Err(why) => Err(why),
    }
}

/// What is read while the last five bytes are out.
fn read_beside(
    regions: &mut Regions,
    to: &mut Vec<u8>,
) -> Result<[Result<(), RegionRefused>; 3], RegionRefused>
    requires { regions.old.leased ≡ finite.empty }
    ensures { regions.new.leased ≡ finite.empty }
{
    match regions.lease_out(OpId(0), ZERO, 5, 5) {
        Ok(part) => {
            let front = regions.read_range(ZERO, 0, 5, to);
            let across = regions.read_range(ZERO, 4, 2, to);
            let empty = regions.read_range(ZERO, 7, 0, to);
            regions.lease_back(OpId(0), part);
            Ok([front, across, empty])
        }
        Err(why) => Err(why),
    }
}

/// Each of the ranges is held and leased as it should be.
fn are_answered(regions: &mut Regions) -> bool
    requires { regions.old.leased ≡ finite.empty }
    ensures { regions.new.leased ≡ finite.empty }
{
    let mut right = true;
    for (region, at, len, held, leased) in RANGES {
        let region = RegionNo(region);
        let may_hold = regions.may_hold(region, at, len);
        let may_lease = regions.may_lease(region, at, len);
        let size = out_and_back(regions, OpId(0), region, at, len);
        right = right & (may_hold == held) & (may_lease == leased.is_ok()) & (size == leased);
    }
    right
}

/// Lets a send hold four ranges at once, takes all bytes out if it can, and drops the hold.
fn hold_four(
    regions: &mut Regions,
    ranges: [(u32, u64, u64); 4],
) -> (Result<(), RegionRefused>, Result<usize, RegionRefused>)
    requires { (regions.old.leased ≡ finite.empty) × HoldsNone regions.old 7 }
    ensures { (regions.new.leased ≡ finite.empty) × HoldsNone regions.new 7 }
{
    let spans = ranges.map(|(region, at, len)| Span {
        region: RegionNo(region),
        at,
        len,
    });
    let held = match Parts::from_array_vec(ArrayVec::from(spans)) {
        Some(parts) => regions.hold_all(OpId(7), &parts),
        None => Err(RegionRefused::NoRegion),
    };
    let all = out_and_back(regions, OpId(0), ZERO, 0, 10);
    regions.drop_hold(OpId(7));
    holds_law();
    (held, all)
}

/// Each four ranges are held or refused as they should be.
fn are_held(regions: &mut Regions) -> bool
    requires { (regions.old.leased ≡ finite.empty) × HoldsNone regions.old 7 }
    ensures { regions.new.leased ≡ finite.empty }
{
    let mut right = true;
    for (ranges, held, leased) in SEVERAL {
        right = right & (hold_four(regions, ranges) == (held, leased));
    }
    right
}

#[test]
fn several_ranges_are_held_or_none(rt: HostRuntime) -> Result<(), Fail> {
    let alloc = rt.alloc();
    let mut regions = Regions::new(alloc);
    let registered = register(alloc, &mut regions);
    let held = are_held(&mut regions);
    regions.close();
    assert!(rt; registered && held);
    Ok(())
}

#[test]
fn held_and_leased_ranges(rt: HostRuntime) -> Result<(), Fail> {
    let alloc = rt.alloc();
    let mut to = Vec::new(alloc);
    let mut regions = Regions::new(alloc);
    let registered = register(alloc, &mut regions);
    let held = hold(&mut regions, 0, 5);
    let answered = are_answered(&mut regions);
    let beside = read_beside(&mut regions, &mut to);
    regions.drop_hold(OpId(0));
    let all = out_and_back(&mut regions, OpId(1), ZERO, 0, 10);
    regions.close();
    assert!(rt; registered && answered);
    assert_eq!(rt; held, Ok(()));
    assert_eq!(rt; beside, Ok([Ok(()), Err(RegionRefused::Busy), Ok(())]));
    assert_eq!(rt; to.as_slice(), [10, 11, 12, 13, 14].as_slice());
    assert_eq!(rt; all, Ok(10));
    Ok(())
}
