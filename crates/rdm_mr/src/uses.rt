//! Proved callers: two threads write one block side by side.
ghost use Rattle.std.specs.Prelude.{◌≡◌, ◌+◌, ◌++◌, length};
ghost use Rattle.rdm_mr.specs.Part.{Meets, end_of};

use crate::{Part, release};
use std::thread::{Threads, join_mut};

/// Writes all of the part.
pub fn write(part: &mut Part, bytes: &[u8])
    requires { length bytes.now ≡ length part.old.bytes }
    ensures { part.new ≡ record part.old { bytes = bytes.now } }
{
    part.bytes_mut().copy_from_slice(bytes);
}

/// Two threads write the two sides of the part.
pub fn write_both<R: Threads>(rt: &R, part: Part, left: &[u8], right: &[u8]) -> Part
    requires { length left.now + length right.now ≡ length part.bytes }
    ensures { result ≡ record part { bytes = left.now ++ right.now } }
{
    let (mut front, mut back) = part.split(left.len());
    join_mut(
        rt,
        &mut || write(&mut front, left),
        &mut || write(&mut back, right),
    );
    front.join(back)
}

/// Gives a block back whose two sides these are.
pub fn release_both(front: Part, back: Part)
    requires { Meets front back × (front.start ≡ 0) × (end_of back ≡ back.whole) }
{
    release(front.join(back));
}
