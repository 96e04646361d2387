//! Marked numbers from a moving first one on.
ghost use Rattle.std.specs.Prelude.{◌≡◌, ℕ, cond, nat_eq, ◌<◌, ◌≤◌, ◌+◌, ◌%◌, ◌^◌, true, false, replicate, if◌then◌else◌, OnOk, OnErr};
ghost use Rattle.std.specs.FinSet as set;
ghost use Rattle.std.specs.HashSet.{spare};
ghost use Rattle.rdm_window.specs.Marks.{none_marked, with_mark, with_room, with_spent, passed, has, ring_size, IsAdvanced, TakesOut};

use rdm_num::NoMemory;
use std::alloc::{AllocError, Global};
use std::collections::HashSet;
use std::marker::Model;

/// How many numbers the ring has a flag for.
const SIZE: usize = 1024;

/// Numbers of 32 bits that are marked. The numbers from `next` on have a flag each, at the place of
/// the number modulo the ring's size; later numbers stand in a set until the ring comes to them. Each
/// number that is marked may take one place there, so the set has at least `room` to spare.
#[derive(Drop)]
pub(crate) struct Ring {
    next: u64,
    flags: [bool; SIZE],
    later: HashSet<u32>,
    room: usize,
}

impl Model for Ring {
    ghost use Rattle.std.specs.Prelude.{◌≤◌};
    ghost use Rattle.std.specs.HashSet.{spare};
    ghost use Rattle.rdm_window.specs.Marks.{Marks, marks_code, marked_of, IsRing};

    ghost Value = { Marks };

    ghost coded = { marks_code };

    ghost view = { λ r. record { next = r.next; marked = marked_of r.next r.flags r.later.keys; room = r.room } };

    ghost invariant = { λ r. IsRing r.next r.flags r.later.keys × (r.room ≤ spare r.later) };
}

impl Ring {
    /// Nothing is marked.
    pub(crate) fn new(alloc: Global, next: u32) -> Ring
        ensures { result ≡ none_marked next }
    {
        Ring {
            next: u64::from(next),
            flags: no_flags(),
            later: HashSet::new(alloc),
            room: 0,
        }
    }

    /// The number at which the ring begins.
    pub(crate) fn next_number(&self) -> u64
        ensures next { result ≡ self.now.next }
        ensures fits { self.now.next ≤ 2 ^ 32 }
    {
        self.next
    }

    /// The number is marked.
    pub(crate) fn has(&self, number: u32) -> bool
        requires { self.now.next ≤ number }
        ensures answer { result ≡ set.contains self.now.marked number }
        ensures fits { number < 2 ^ 32 }
    {
        if u64::from(number) < self.next + SIZE as u64 {
            self.flags[slot(u64::from(number))]
        } else {
            self.later.contains(&number)
        }
    }

    /// Makes room for one more number to be marked without memory.
    pub(crate) fn reserve(&mut self) -> Result<(), NoMemory>
        ensures ok { OnOk result (self.new ≡ with_room self.old) }
        ensures err { OnErr result (self.new ≡ self.old) }
    {
        let room = self.room.checked_add(1).ok_or(AllocError)?;
        self.later.reserve(room)?;
        self.room = room;
        Ok(())
    }

    /// Gives a reservation back.
    pub(crate) fn give_back(&mut self)
        requires { 0 < self.old.room }
        ensures { self.new ≡ with_spent self.old }
    {
        self.room -= 1;
    }

    /// Marks a number. It wants no memory, and spends one reservation.
    pub(crate) fn mark_reserved(&mut self, number: u32)
        requires from { self.old.next ≤ number }
        requires room { 0 < self.old.room }
        ensures after { self.new ≡ with_spent (with_mark self.old number) }
        ensures fits { number < 2 ^ 32 }
    {
        if u64::from(number) < self.next + SIZE as u64 {
            self.flags[slot(u64::from(number))] = true;
        } else {
            put(&mut self.later, number);
        }
        self.room -= 1;
    }

    /// Passes all marked numbers up to the first one that is not marked, and tells how many.
    pub(crate) fn advance(&mut self) -> u64
        ensures count { self.new.next ≡ self.old.next + result }
        ensures advanced { IsAdvanced self.old self.new }
        ensures stops { set.contains self.new.marked self.new.next ≡ false }
        ensures fits { self.new.next ≤ 2 ^ 32 }
    {
        let from = self.next_number();
        while self.pass() {}
        self.next_number() - from
    }

    /// Passes the first number of the ring, if it is marked.
    fn pass(&mut self) -> bool
        ensures answer { result ≡ set.contains self.old.marked self.old.next }
        ensures after { self.new ≡ (if result then passed self.old else self.old) }
        ensures fits { self.new.next ≤ 2 ^ 32 }
    {
        let place = slot(self.next);
        let is_marked = self.flags[place];
        if is_marked {
            self.flags[place] = take_out(&mut self.later, self.next + SIZE as u64);
            self.next += 1;
        }
        is_marked
    }
}

/// No flag is set.
fn no_flags() -> [bool; SIZE]
    ensures { result ≡ replicate ring_size false }
{
    [false; SIZE]
}

/// Where the flag of a number of the ring stands.
fn slot(number: u64) -> usize
    ensures place { result ≡ number % ring_size }
    ensures inside { result < ring_size }
{
    (number % SIZE as u64) as usize
}

/// Puts a number into a set, where there is a place.
fn put(set: &mut HashSet<u32>, number: u32)
    requires { 0 < spare set.old }
    ensures numbers { (q : ℕ) → has set.new.keys q ≡ cond (nat_eq number q) true (has set.old.keys q) }
    ensures places { spare set.old ≤ spare set.new + 1 }
{
    let Ok(_added) = set.insert(number) else {
        unreachable!()
    };
}

/// Takes a number out of a set, and tells whether it was there.
fn take_out(set: &mut HashSet<u32>, number: u64) -> bool
    ensures answer { TakesOut set.old.keys set.new.keys number result }
    ensures places { spare set.old ≤ spare set.new }
{
    match u32::try_from(number) {
        Ok(number) => set.remove(&number),
        Err(_too_great) => false,
    }
}
