//! Regions and their ranges.
ghost use Rattle.std.specs.Prelude.{◌≡◌, ◌≤◌, ◌<◌, ◌+◌, [], length, take, drop, map, get_or, nat_lt, nat_le, MatchOption, IfOk, true, false};
ghost use Rattle.std.specs.List.{All};
ghost use Rattle.rdm_num.specs.Pieces as Pieces;
ghost use Rattle.rdm_model.specs.Jobs.{spans_length};
ghost use Rattle.rdm_model.specs.Sends.{bytes_of};
ghost use Rattle.rdm_ep.specs.Counts.{LiesIn};

use rdm_num::{Bytes, NoMemory, Parts, RegionNo};
use std::alloc::{AllocError, Global};

/// Two ranges share a place; an empty range shares none.
#[tactic(auto, unfolding(rdm_num::specs::Pieces::overlaps))]
pub fn overlaps(at: u64, len: u64, other_at: u64, other_len: u64) -> bool
    ensures { result ≡ Pieces.overlaps at len other_at other_len }
{
    0 < len
        && 0 < other_len
        && u128::from(at) < u128::from(other_at) + u128::from(other_len)
        && u128::from(other_at) < u128::from(at) + u128::from(len)
}

/// A range passes the end of a region.
pub fn passes_end(region: &[u8], at: u64, len: u64) -> bool
    ensures { result ≡ nat_lt (length region.now) (at + len) }
{
    (region.len() as u128) < u128::from(at) + u128::from(len)
}

/// A range of a region.
pub fn range(region: &[u8], at: u64, len: u64) -> &[u8]
    requires { at + len ≤ length region.now }
    ensures { result.now ≡ take len (drop at region.now) }
{
    let from = at as usize;
    let count = len as usize;
    &region[from..from + count]
}

/// The bytes of a region, if it was registered.
pub fn region_of(regions: &[Vec<u8>], number: RegionNo) -> Option<&[u8]>
    ensures { MatchOption result (nat_le (length (map (λ r. r.items) regions.now)) number.0 ≡ true) (λ r. (nat_le (length (map (λ r. r.items) regions.now)) number.0 ≡ false) × (r.now ≡ get_or (map (λ r. r.items) regions.now) number.0 [])) }
{
    match regions.get(number.0 as usize) {
        Some(region) => Some(region.as_slice()),
        None => None,
    }
}

/// How many bytes the ranges of a send have together.
#[tactic(auto, unfolding(rdm_model::specs::Jobs::spans_length))]
pub fn total_length(parts: &Parts) -> u128
    ensures total { result ≡ spans_length parts.now }
    ensures few { result ≤ 73786976294838206460 }
{
    let mut total = 0;
    for span in parts.as_slice() {
        total += u128::from(span.len);
    }
    total
}

/// The bytes of the ranges of a send, one after another. The memory for all of them is taken at once.
pub fn gather(alloc: Global, regions: &[Vec<u8>], parts: &Parts) -> Result<Bytes, NoMemory>
    requires { All (LiesIn (map (λ r. r.items) regions.now)) parts.now }
    ensures { IfOk result (λ b. b ≡ bytes_of (map (λ r. r.items) regions.now) parts.now) }
{
    let Ok(total) = usize::try_from(total_length(parts)) else {
        return Err(AllocError);
    };
    let mut bytes = Vec::with_capacity(alloc, total)?;
    for part in parts.as_slice() {
        let region = &regions[part.region.0 as usize];
        bytes.extend_from_slice(range(region, part.at, part.len))?;
    }
    Ok(Bytes::from_vec(bytes))
}
