ghost use Rattle.std.specs.Prelude.{◌≡◌, length};
ghost use Rattle.rdm_land.specs.Landed.{Keeps};

use crate::{Landing, Placed, lending_law};
use rdm_gaps::Gaps;
use rdm_mr::{Block, Home, release};
use std::test::Fail;

/// Bytes that come of a message of nine, of which five fit and the first two are there, with the place
/// of the first of them and what a fill answers.
const FILLS: [(u64, &[u8], Placed); 7] = [
    (1, b"bc", Placed::Overlap),
    (4, b"efg", Placed::Placed),
    (6, b"g", Placed::Overlap),
    (8, b"ij", Placed::Overlap),
    (2, b"cd", Placed::Placed),
    (9, b"", Placed::Placed),
    (7, b"hi", Placed::Placed),
];

/// Fills one range after another, and tells whether each was answered as the table says.
fn fill_each(landing: &mut Landing) -> bool
    ensures { Keeps landing.old landing.new }
{
    let mut right = true;
    for (off, bytes, placed) in FILLS {
        match landing.reserve(1) {
            Ok(()) => right = right & (landing.fill(off, bytes) == placed),
            Err(_error) => right = false,
        }
    }
    right
}

/// Lends a range, tells how long its part is, and takes it back.
fn lend_and_back(landing: &mut Landing, off: u64, len: u64) -> Option<usize>
    ensures { landing.new ≡ landing.old }
{
    match landing.lend(off, len) {
        Ok(Some(part)) => {
            lending_law();
            let count = part.len();
            landing.unlend(off, len, part);
            Some(count)
        }
        Ok(None) => None,
        Err(_error) => None,
    }
}

/// Fills the part of the places from 3 on while it is lent, and tells whether none of them could be
/// lent then.
fn fill_lent(landing: &mut Landing) -> bool
    ensures lent { landing.new.lent ≡ landing.old.lent }
    ensures start { landing.new.tiles.start ≡ landing.old.tiles.start }
    ensures whole { landing.new.tiles.whole ≡ landing.old.tiles.whole }
    ensures capacity { length landing.new.tiles.cells ≡ length landing.old.tiles.cells }
{
    match landing.lend(3, 4) {
        Ok(Some(mut part)) => {
            lending_law();
            let again = lend_and_back(landing, 4, 1);
            let only_lent = landing.only_lent(2, 3);
            part.bytes_mut().fill(b'x');
            landing.land(3, 4, part);
            again.is_none() & only_lent
        }
        Ok(None) => false,
        Err(_error) => false,
    }
}

#[test]
fn what_lies_past_the_capacity_is_discarded(rt: HostRuntime) -> Result<(), Fail> {
    let part = Block::make(rt.alloc(), b".....")?;
    match Landing::new(rt.alloc(), part, 9) {
        Ok(mut landing) => {
            let placed = matches!(landing.place(4, b"efghi"), Ok(Placed::Placed));
            let again = matches!(landing.place(4, b"e"), Ok(Placed::Overlap));
            let excess = landing.excess();
            let part = landing.into_part();
            let same = part.bytes() == b"....e".as_slice();
            release(part);
            assert!(rt; placed && again && same);
            assert_eq!(rt; excess, 4);
        }
        Err(part) => release(part),
    }
    Ok(())
}

#[test]
fn what_an_early_message_lacks_is_filled(rt: HostRuntime) -> Result<(), Fail> {
    let mut gaps = Gaps::whole(rt.alloc(), 9)?;
    let _early = gaps.take(0, 2)?;
    let part = Block::make(rt.alloc(), b"ab...")?;
    match Home::new(rt.alloc(), part) {
        Ok(home) => {
            let mut landing = Landing::of(rt.alloc(), home, gaps);
            let filled = fill_each(&mut landing);
            let finished = landing.finished();
            let part = landing.into_part();
            let same = part.bytes() == b"abcde".as_slice();
            release(part);
            assert!(rt; filled && finished && same);
        }
        Err(part) => release(part),
    }
    Ok(())
}

#[test]
fn bytes_of_a_lent_part_land(rt: HostRuntime) -> Result<(), Fail> {
    let part = Block::make(rt.alloc(), b".....")?;
    match Landing::new(rt.alloc(), part, 7) {
        Ok(mut landing) => {
            let filled = fill_lent(&mut landing);
            let rest = matches!(landing.place(0, b"abc"), Ok(Placed::Placed));
            let finished = landing.finished();
            let part = landing.into_part();
            let same = part.bytes() == b"abcxx".as_slice();
            release(part);
            assert!(rt; filled && rest && finished && same);
        }
        Err(part) => release(part),
    }
    Ok(())
}
