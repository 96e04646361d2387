// A part of a block, as a `Vec` that neither grows nor frees.
ghost use Rattle.std.specs.Prelude.{◌≡◌, ℕ, ◌+◌, ◌^◌, ◌<◌, ◌≤◌, ◌⊎◌, ◌++◌, length, take, drop, nat_eq, if◌then◌else◌, None, IfOk};
ghost use Rattle.std.specs.Borrow.{Lends, Array, sem, u8};
ghost use denote.RawPtr.{◌+ₚ◌};
ghost use Rattle.rdm_mr.specs.Part.{Whole, Meets, end_of, front_of, back_of, joined, with_bytes};
ghost use Rattle.rdm_mr.specs.contracts.part.Part.{the_row};

use crate::block::{Owner, attach, detach};
use crate::run::Run;
use std::alloc::{AllocError, Global};
use std::marker::Model;
use std_alloc::vec::Lodged;

/// Want of memory.
pub type NoMemory = AllocError;

/// A range of one block, with its bytes. It must be spent, by `join` or `release`.
pub struct Part {
    vec: Vec<u8, Lodged>,
    base: *mut u8,
    start: usize,
    whole: usize,
    owner: Option<Owner>,
}

impl Model for Part {
    ghost use Rattle.rdm_mr.specs.Part.{Piece, piece_code};

    ghost Value = { Piece };

    ghost coded = { piece_code };

    ghost use Rattle.rdm_mr.specs.Inside.{IsPart};

    ghost view = { λ p. record { block = p.base; start = p.start; whole = p.whole; bytes = p.vec.items } };

    ghost invariant = { IsPart };
}

unsafe impl Send for Part {}

unsafe impl Sync for Part {}

/// A run of bytes on the heap.
pub struct Block;

impl Block {
    /// The whole of a new block with these bytes.
    pub fn make(alloc: Global, bytes: &[u8]) -> Result<Part, NoMemory>
        ensures { IfOk result (λ p. Whole p × (p.bytes ≡ bytes.now)) }
    {
        let mut vec = Vec::from_slice(alloc, bytes)?;
        let whole = vec.len();
        if whole == 0 {
            return Ok(Part {
                vec: Vec::new(Lodged),
                base: std::ptr::null_mut(),
                start: 0,
                whole,
                owner: None,
            });
        }
        let base = vec.as_mut_ptr();
        let (run, owner) = detach(vec);
        Ok(Part {
            vec: run.into_vec(base, whole),
            base,
            start: 0,
            whole,
            owner: Some(owner),
        })
    }
}

impl Part {
    /// Where the part begins in its block.
    pub fn start(&self) -> usize
        ensures value { result ≡ self.now.start }
        ensures within { end_of self.now ≤ self.now.whole }
        ensures small { self.now.whole < 2 ^ 63 }
    {
        self.start
    }

    /// How many bytes it has.
    pub fn len(&self) -> usize
        ensures { result ≡ length self.now.bytes }
    {
        self.vec.len()
    }

    pub fn bytes(&self) -> &[u8]
        ensures { result.now ≡ self.now.bytes }
    {
        self.vec.as_slice()
    }

    pub fn bytes_mut(&mut self) -> &mut [u8]
        ensures* writes_back { sem 𝓛 (Lends the_row (Array u8 0) self.entry result (with_bytes self.old)) }
        ensures value { result.now ≡ self.old.bytes }
    {
        self.vec.as_mut_slice()
    }

    /// The first `at` bytes, and the others.
    pub fn split(self, at: usize) -> (Part, Part)
        requires { at ≤ length self.bytes }
        ensures left { result.0 ≡ front_of at self }
        ensures right { result.1 ≡ back_of at self }
    {
        let Part {
            vec,
            base,
            start,
            whole,
            owner,
        } = self;
        let (front, back) = cut(vec, at);
        let (first, rest) = handed_on(owner, at);
        let left = Part {
            vec: front,
            base,
            start,
            whole,
            owner: first,
        };
        let right = Part {
            vec: back,
            base,
            start: start + at,
            whole,
            owner: rest,
        };
        (left, right)
    }

    /// One part of two of one block that meet.
    pub fn join(self, right: Part) -> Part
        requires { Meets self right }
        ensures { result ≡ joined self right }
    {
        let Part {
            vec,
            base,
            start,
            whole,
            owner,
        } = self;
        let Part {
            vec: next,
            base: _,
            start: _,
            whole: _,
            owner: other,
        } = right;
        Part {
            vec: glue(vec, next),
            base,
            start,
            whole,
            owner: one_of(owner, other),
        }
    }
}

/// Gives the block back.
pub fn release(whole: Part)
    requires { Whole whole }
{
    let Part {
        vec,
        base: _,
        start: _,
        whole: _,
        owner,
    } = whole;
    match owner {
        None => drop(vec),
        Some(owner) => drop(attach(Run::from_vec(vec), owner)),
    }
}

/// The first `at` bytes of a `Vec` over a run, and the others.
fn cut(mut vec: Vec<u8, Lodged>, at: usize) -> (Vec<u8, Lodged>, Vec<u8, Lodged>)
    requires { at ≤ length vec.items }
    ensures items { (result.0.items ≡ take at vec.items) × (result.1.items ≡ drop at vec.items) }
    ensures front { 0 < at → result.0.ptr ≡ vec.ptr }
    ensures back { at < length vec.items → result.1.ptr ≡ vec.ptr +ₚ at }
{
    let len = vec.len();
    if at == 0 {
        return (Vec::new(Lodged), vec);
    }
    if at == len {
        return (vec, Vec::new(Lodged));
    }
    let ptr = vec.as_mut_ptr();
    let (front, back) = Run::from_vec(vec).cut(at);
    let next = unsafe { ptr.byte_add(at) };
    (front.into_vec(ptr, at), back.into_vec(next, len - at))
}

/// One `Vec` of two, the right one of which begins where the left one ends.
fn glue(mut left: Vec<u8, Lodged>, right: Vec<u8, Lodged>) -> Vec<u8, Lodged>
    requires small { length left.items + length right.items < 2 ^ 63 }
    requires meets { 0 < length left.items → 0 < length right.items
        → right.ptr ≡ left.ptr +ₚ length left.items }
    ensures items { result.items ≡ left.items ++ right.items }
    ensures left { 0 < length left.items → result.ptr ≡ left.ptr }
    ensures right { length left.items ≡ 0 → result.ptr ≡ right.ptr }
{
    if left.is_empty() {
        return right;
    }
    if right.is_empty() {
        return left;
    }
    let len = left.len() + right.len();
    let ptr = left.as_mut_ptr();
    let run = Run::from_vec(left).glue(Run::from_vec(right));
    run.into_vec(ptr, len)
}

/// The owner of the first `at` bytes, and that of the others. It stays with the first byte.
fn handed_on(owner: Option<Owner>, at: usize) -> (Option<Owner>, Option<Owner>)
    ensures { result ≡ (if nat_eq at 0 then (None, owner) else (owner, None)) }
{
    if at == 0 {
        (None, owner)
    } else {
        (owner, None)
    }
}

/// The one owner that two parts of a block have, if they have it.
fn one_of(owner: Option<Owner>, other: Option<Owner>) -> Option<Owner>
    requires { (owner ≡ None) ⊎ (other ≡ None) }
    ensures { (owner ≡ None → result ≡ other) × (other ≡ None → result ≡ owner) }
{
    match owner {
        None => other,
        Some(owner) => match other {
            None => Some(owner),
            Some(_) => unreachable!(),
        },
    }
}
