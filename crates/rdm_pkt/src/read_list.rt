//! Read lists.
ghost use Rattle.std.specs.Prelude.{◌≡◌, ◌≤◌, ◌+◌, ◌*◌, ◌^◌, ◌&&◌, nat_le, nat_lt, length};
ghost use Rattle.std.specs.Bool.{then_some};
ghost use Rattle.rdm_pkt.specs.Grammar as Grammar;
ghost use Rattle.rdm_pkt.specs.Reading.{iov_at};

use arrayvec::ArrayVec;
use rdm_hdr::u64_at;
use rdm_num::{Iov, IovEntry};

/// The read list at a place, if it has ranges.
pub fn read_iov(count: usize, place: usize, bytes: &[u8]) -> Option<Iov>
    requires few { count ≤ 4 }
    requires room { place + 24 * count ≤ length bytes.now }
    ensures { result ≡ then_some (nat_lt 0 count) (iov_at place count bytes.now) }
{
    let mut iov = ArrayVec::<IovEntry, 4>::new();
    for k in 0..count {
        let at = place + 24 * k;
        iov.push(IovEntry {
            offset: u64_at(bytes, at),
            length: u64_at(bytes, at + 8),
            key: u64_at(bytes, at + 16),
        });
    }
    Iov::from_array_vec(iov)
}

/// A read list has 1 to 4 ranges, none of them empty, and is as long as its message.
pub fn iov_fits(iov: &[IovEntry], size: u64) -> bool
    ensures { result ≡ Grammar.iov_fits iov.now size }
{
    if iov.is_empty() {
        return false;
    }
    if iov.len() > 4 {
        return false;
    }
    let mut left = size;
    for entry in iov {
        if !entry_fits(entry) {
            return false;
        }
        if entry.length > left {
            return false;
        }
        left -= entry.length;
    }
    left == 0
}

/// A range is not empty, and its end has room in 64 bits.
fn entry_fits(entry: &IovEntry) -> bool
    ensures { result ≡ (nat_le 1 entry.now.length && nat_lt (entry.now.offset + entry.now.length) (2 ^ 64)) }
{
    entry.length >= 1 && entry.offset <= u64::MAX - entry.length
}
