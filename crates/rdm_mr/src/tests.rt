// What no clause says: that memory is had, and that two threads write two parts of a block.
ghost use Rattle.std.specs.Prelude.{◌≡◌, ◌≤◌, length};

use crate::uses::{release_both, write_both};
use crate::{Block, Home, home_law, release};
use std::test::Fail;

/// The bytes of a block, the places of a part of it, and the bytes once that part is filled.
const FILLED: [(&[u8], usize, usize, &[u8]); 4] = [
    (b"abcdef", 1, 3, b"axxxef"),
    (b"ab", 0, 2, b"xx"),
    (b"ab", 2, 0, b"ab"),
    (b"", 0, 0, b""),
];

#[test]
fn a_part_is_filled_between_two_others(rt: HostRuntime) -> Result<(), Fail> {
    for (bytes, at, len, filled) in FILLED {
        let whole = Block::make(rt.alloc(), bytes)?;
        let at = at.min(whole.len());
        let (front, rest) = whole.split(at);
        let len = len.min(rest.len());
        let (mut middle, back) = rest.split(len);
        middle.bytes_mut().fill(b'x');
        let placed = middle.start() == at && back.start() == at + len;
        let whole = front.join(middle).join(back);
        let same = whole.bytes() == filled;
        release(whole);
        assert!(rt; placed && same, "at {at}");
    }
    Ok(())
}

#[test]
fn two_threads_write_two_parts(rt: HostRuntime) -> Result<(), Fail> {
    let whole = Block::make(rt.alloc(), b"hello world")?;
    let whole = write_both(&rt, whole, b"HELLO", b"-WORLD");
    let written = whole.bytes() == b"HELLO-WORLD".as_slice();
    let (front, back) = whole.split(5);
    release_both(front, back);
    assert!(rt; written);
    Ok(())
}

/// Takes a part out of what is at home, tells whether its range is at home then, and puts it back.
fn is_home_while_out(home: &mut Home) -> bool
    requires { 4 ≤ length home.old.cells }
    ensures { home.new ≡ home.old }
{
    match home.take_out(1, 3) {
        Ok(Some(part)) => {
            home_law();
            let is_home = home.get(1, 3).is_some();
            home.put_back(part);
            is_home
        }
        Ok(None) => true,
        Err(_error) => true,
    }
}

#[test]
fn a_part_is_out_and_at_home_again(rt: HostRuntime) -> Result<(), Fail> {
    let whole = Block::make(rt.alloc(), b"hello")?;
    match Home::new(rt.alloc(), whole) {
        Ok(mut home) => {
            let while_out = is_home_while_out(&mut home);
            let back = home.get(1, 3) == Some(b"ell".as_slice());
            release(home.close());
            assert!(rt; !while_out && back);
        }
        Err(whole) => release(whole),
    }
    Ok(())
}
