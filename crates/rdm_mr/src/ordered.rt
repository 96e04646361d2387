//! Parts of one block in order, as a vector.
ghost use Rattle.std.specs.Prelude.{◌≡◌, ℕ, ◌+◌, ◌<◌, ◌≤◌, ◌∷◌, ◌++◌, length, take, drop, slice_index_or, vec_len, vec_capacity, MatchOption, OnOk, OnErr, IfOk};
ghost use Rattle.std.specs.List.{AllWithin};
ghost use Rattle.rdm_mr.specs.Part.{Piece, Meets, end_of};
ghost use Rattle.rdm_mr.specs.Ordered.{AreInOrder, AreOfOne, LacksOne, HasAll, unless_empty, IsLifted, overwritten_part, fused, put_at};

use crate::part::{NoMemory, Part};

/// The first part that ends after `place`.
pub(crate) fn find(parts: &[Part], place: usize) -> usize
    requires { AreInOrder parts.now }
    ensures within { result ≤ length parts.now }
    ensures before { AllWithin (λ p. end_of p ≤ place) parts.now 0 result }
    ensures after { AllWithin (λ p. place < end_of p) parts.now result (length parts.now) }
{
    parts.partition_point(|part| part.start() + part.len() <= place)
}

/// The part that has all of the places from `from` up to `end`.
pub(crate) fn locate(parts: &[Part], from: usize, end: usize) -> Option<usize>
    requires order { AreInOrder parts.now }
    requires some { from < end }
    ensures { MatchOption result (LacksOne from end parts.now) (HasAll from end parts.now) }
{
    let i = find(parts, from);
    if i < parts.len() {
        let part = &parts[i];
        if part.start() <= from && end <= part.start() + part.len() {
            return Some(i);
        }
    }
    None
}

/// Puts `rest`, which follows `part`, before the part at `i`, unless it is empty.
fn keep_back(parts: &mut Vec<Part>, i: usize, part: Part, rest: Part) -> Part
    requires at { i ≤ vec_len parts.old }
    requires room { vec_len parts.old < vec_capacity parts.old }
    requires meets { Meets part rest }
    ensures items { parts.new.items ≡ take i parts.old.items ++ (unless_empty rest ++ drop i parts.old.items) }
    ensures len { vec_len parts.new ≤ vec_len parts.old + 1 }
    ensures capacity { vec_capacity parts.old ≤ vec_capacity parts.new }
    ensures part { result ≡ part }
{
    if rest.len() == 0 {
        return part.join(rest);
    }
    match parts.insert(i, rest) {
        Ok(()) => part,
        Err(_) => unreachable!(),
    }
}

/// The same for `front`, which `part` follows.
fn keep_front(parts: &mut Vec<Part>, i: usize, front: Part, part: Part) -> Part
    requires at { i ≤ vec_len parts.old }
    requires room { vec_len parts.old < vec_capacity parts.old }
    requires meets { Meets front part }
    ensures items { parts.new.items ≡ take i parts.old.items ++ (unless_empty front ++ drop i parts.old.items) }
    ensures len { vec_len parts.new ≤ vec_len parts.old + 1 }
    ensures capacity { vec_capacity parts.old ≤ vec_capacity parts.new }
    ensures part { result ≡ part }
{
    if front.len() == 0 {
        return front.join(part);
    }
    match parts.insert(i, front) {
        Ok(()) => part,
        Err(_) => unreachable!(),
    }
}

/// Takes the `len` bytes from `from` on out of the part at `i`, and leaves room for one part more than `out`.
pub(crate) fn lift(
    parts: &mut Vec<Part>,
    i: usize,
    from: usize,
    len: usize,
    out: usize,
) -> Result<Part, NoMemory>
    requires at { i < vec_len parts.old }
    requires inside { (d : Piece) → let p = slice_index_or parts.old.items i d in (p.start ≤ from) × (from + len ≤ end_of p) }
    requires room { vec_len parts.old + out ≤ vec_capacity parts.old }
    ensures lifted { IfOk result (λ part. IsLifted i from len part parts.old.items parts.new.items) }
    ensures room { OnOk result (vec_len parts.new + (out + 1) ≤ vec_capacity parts.new) }
    ensures err { OnErr result ((parts.new.items ≡ parts.old.items) × (vec_len parts.new + out ≤ vec_capacity parts.new)) }
{
    parts.reserve(out + 2)?;
    let part = parts.remove(i);
    let at = from - part.start();
    let (front, rest) = part.split(at);
    let (part, back) = rest.split(len);
    let part = keep_back(parts, i, part, back);
    Ok(keep_front(parts, i, front, part))
}

/// Makes one part of the part at `i` and the next, if they touch.
fn fuse(parts: &mut Vec<Part>, i: usize)
    requires at { i < vec_len parts.old }
    requires same { AreOfOne parts.old.items }
    ensures items { parts.new.items ≡ fused i parts.old.items }
    ensures fewer { (vec_len parts.new ≤ vec_len parts.old) × (vec_len parts.old ≤ vec_len parts.new + 1) }
    ensures capacity { vec_capacity parts.old ≤ vec_capacity parts.new }
{
    if i + 1 < parts.len() {
        let low = &parts[i];
        let high = &parts[i + 1];
        if low.start() + low.len() == high.start() {
            let high = parts.remove(i + 1);
            let low = parts.remove(i);
            match parts.insert(i, low.join(high)) {
                Ok(()) => {}
                Err(_) => unreachable!(),
            }
        }
    }
}

/// Puts a part before the part at `i`, where there is room, as one with those that it touches.
pub(crate) fn put(parts: &mut Vec<Part>, i: usize, part: Part)
    requires at { i ≤ vec_len parts.old }
    requires room { vec_len parts.old < vec_capacity parts.old }
    requires same { AreOfOne (part ∷ parts.old.items) }
    ensures items { parts.new.items ≡ put_at parts.old.items i part }
    ensures more { vec_len parts.new ≤ vec_len parts.old + 1 }
    ensures capacity { vec_capacity parts.old ≤ vec_capacity parts.new }
{
    match parts.insert(i, part) {
        Ok(()) => {}
        Err(_) => unreachable!(),
    }
    fuse(parts, i);
    if i > 0 {
        fuse(parts, i - 1);
    }
}

/// The `len` bytes of a part from `at` on.
pub(crate) fn read(part: &Part, at: usize, len: usize) -> &[u8]
    requires { at + len ≤ length part.now.bytes }
    ensures { result.now ≡ take len (drop at part.now.bytes) }
{
    &part.bytes()[at..at + len]
}

/// Writes bytes over those of a part from `at` on.
pub(crate) fn overwrite(part: &mut Part, at: usize, bytes: &[u8])
    requires { at + length bytes.now ≤ length part.old.bytes }
    ensures { part.new ≡ overwritten_part part.old at bytes.now }
{
    let to = part.bytes_mut();
    to[at..at + bytes.len()].copy_from_slice(bytes);
}
