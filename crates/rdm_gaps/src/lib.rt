//! The missing places of a message.
#![tactic(auto)]

ghost use Rattle.std.specs.Prelude.{◌≡◌, ◌+◌, ◌<◌, ◌≤◌, ◌↔◌, ◌==◌, length, IfOk, IsTrue, OnOk, OnErr};
ghost use Rattle.rdm_gaps.specs.Places.{AreMissing, AreTaken, all_missing, count_missing, with_spare, with_untaken, after_take, after_reserved_take};
ghost use Rattle.rdm_gaps.specs.Places as Places;

mod ranges;

use ranges::{Gap, cut, find, gap_with, put};
use std::alloc::{AllocError, Global};
use std::marker::Model;

#[cfg(test)]
mod tests;

/// Want of memory.
pub type NoMemory = AllocError;

/// Which places of 0 up to a size are missing.
#[derive(Debug, Drop)]
pub struct Gaps {
    size: u64,
    /// How many places are missing.
    left: u64,
    /// For how many more gaps there is room at all times.
    spare: usize,
    gaps: Vec<Gap>,
}

impl Model for Gaps {
    ghost use Rattle.rdm_gaps.specs.Places.{Missing, missing_code};

    ghost Value = { Missing };

    ghost coded = { missing_code };

    ghost use Rattle.rdm_gaps.specs.Ranges.{places_of};
    ghost use Rattle.rdm_gaps.specs.Inside.{IsGaps};

    ghost view = { λ g. record { places = places_of 0 g.size g.gaps.items; spare = g.spare } };

    ghost invariant = { IsGaps };
}

/// The range ends by `size`.
fn is_within(size: u64, off: u64, len: u64) -> bool
    ensures { IsTrue result ↔ (off + len ≤ size) }
{
    len <= size && off <= size - len
}

impl Gaps {
    /// All of 0 up to `len` is missing.
    pub fn whole(alloc: Global, len: u64) -> Result<Gaps, NoMemory>
        ensures { IfOk result (λ gaps. gaps ≡ all_missing len) }
    {
        let mut gaps = Vec::new(alloc);
        if len > 0 {
            gaps.push(Gap { start: 0, end: len })?;
        }
        Ok(Gaps {
            size: len,
            left: len,
            spare: 0,
            gaps,
        })
    }

    /// Nothing is missing.
    pub fn is_empty(&self) -> bool
        ensures { result ≡ (count_missing self.now == 0) }
    {
        self.left == 0
    }

    /// How many places the message has, missing or not.
    pub fn places(&self) -> u64
        ensures { result ≡ length self.now.places }
    {
        self.size
    }

    /// For how many ranges there is room to be taken or put back.
    pub fn spare(&self) -> u64
        ensures { result ≡ self.now.spare }
    {
        self.spare as u64
    }

    /// How many places are missing.
    pub fn missing(&self) -> u64
        ensures { result ≡ count_missing self.now }
    {
        self.left
    }

    /// How many places from `at` on are missing, up to the first that isn't.
    pub fn missing_from(&self, at: u64) -> u64
        ensures { result ≡ Places.missing_from self.now at }
    {
        match gap_with(&self.gaps, at) {
            Some(i) => self.gaps[i].end - at,
            None => 0,
        }
    }

    /// How many places from `at` on have come, up to the first that is missing or the end.
    pub fn came_from(&self, at: u64) -> u64
        ensures { result ≡ Places.came_from self.now at }
    {
        let i = find(&self.gaps, at);
        let next = if i < self.gaps.len() {
            self.gaps[i].start
        } else {
            self.size
        };
        next.saturating_sub(at)
    }

    /// Takes the range, if all of it is missing.
    pub fn take(&mut self, off: u64, len: u64) -> Result<bool, NoMemory>
        ensures answer { IfOk result (λ taken. IsTrue taken ↔ AreMissing off len self.old.places) }
        ensures after { self.new ≡ after_take self.old off len result }
    {
        let spare = self.spare;
        self.gaps.reserve(spare + 1)?;
        self.spare = spare + 1;
        let taken = self.take_reserved(off, len);
        self.spare = spare;
        Ok(taken)
    }

    /// Takes the range, if all of it is missing. It can't fail, since there is room.
    pub fn take_reserved(&mut self, off: u64, len: u64) -> bool
        requires { 0 < self.old.spare }
        ensures answer { IsTrue result ↔ AreMissing off len self.old.places }
        ensures after { self.new ≡ after_reserved_take self.old off len result }
    {
        if !is_within(self.size, off, len) {
            return false;
        }
        if len == 0 {
            self.spare -= 1;
            return true;
        }
        let end = off + len;
        let Some(i) = gap_with(&self.gaps, off) else {
            return false;
        };
        if self.gaps[i].end < end {
            return false;
        }
        cut(&mut self.gaps, i, off, end);
        self.spare -= 1;
        self.left -= len;
        true
    }

    /// Makes room to take or put back `n` ranges.
    pub fn reserve(&mut self, n: u64) -> Result<(), NoMemory>
        ensures ok { OnOk result (self.new ≡ with_spare self.old n) }
        ensures err { OnErr result (self.new ≡ self.old) }
    {
        let n = n as usize;
        if self.spare < n {
            self.gaps.reserve(n)?;
            self.spare = n;
        }
        Ok(())
    }

    /// Puts the range back, of which no place is missing.
    pub fn untake(&mut self, off: u64, len: u64)
        requires some { 0 < len }
        requires taken { AreTaken off len self.old.places }
        requires room { 0 < self.old.spare }
        ensures { self.new ≡ with_untaken self.old off len }
    {
        let _size = self.size;
        let end = off + len;
        let i = find(&self.gaps, off);
        put(&mut self.gaps, i, Gap { start: off, end });
        self.spare -= 1;
        self.left += len;
    }
}
