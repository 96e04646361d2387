//! One region: what is at home of its block, and where the ranges begin and end that sends hold.
ghost use Rattle.std.specs.Prelude.{◌≡◌, ◌↔◌, ℕ, ◌+◌, ◌<◌, ◌≤◌, ◌^◌, ltb, leb, [], Some, true, length, map, IfOk, OnErr, IsTrue, MatchResult};
ghost use Rattle.std.specs.List.{All, count_by};
ghost use Rattle.std.specs.List.Sorted.{IsNonDecreasing};
ghost use Rattle.rdm_mr.specs.Part.{Whole};
ghost use Rattle.rdm_mr.specs.Tiles.{AreHome, IsWhole};
ghost use Rattle.rdm_regions.specs.Weights.{is_in};
ghost use Rattle.rdm_regions.specs.Steps.{IsNew, home_bytes, Marked, Unmarked, MayMark, MayUnmark, MayLift, IsLifted, IsLiftedPart, IsOut, IsPutBack};

use crate::rising::{count_below, count_upto, put, remove};
use rdm_mr::{Block, Home, Part, release};
use rdm_num::{NoMemory, Span};
use std::alloc::{AllocError, Global};

/// A registered region. It must be spent, by `close`.
pub(crate) struct Region {
    home: Home,
    /// Where the held ranges that are not empty begin, in rising order.
    starts: Vec<u64>,
    /// Where they end.
    ends: Vec<u64>,
}

impl Region {
    /// A new block with these bytes, all at home, of which nothing is held.
    pub(crate) fn new(alloc: Global, bytes: &[u8]) -> Result<Region, NoMemory>
        ensures { IfOk result (IsNew bytes.now) }
    {
        let part = Block::make(alloc, bytes)?;
        match Home::new(alloc, part) {
            Ok(home) => Ok(Region {
                home,
                starts: Vec::new(alloc),
                ends: Vec::new(alloc),
            }),
            Err(part) => {
                release(part);
                Err(AllocError)
            }
        }
    }

    /// The range does not pass the region's end.
    pub(crate) fn fits(&self, at: u64, len: u64) -> bool
        ensures { IsTrue result ↔ (at + len ≤ length self.now.home.cells) }
    {
        let size = self.home.len() as u64;
        match at.checked_add(len) {
            Some(end) => end <= size,
            None => false,
        }
    }

    /// The range overlaps a leased one.
    pub(crate) fn meets_leased(&self, at: u64, len: u64) -> bool
        requires { at + len ≤ length self.now.home.cells }
        ensures { IsTrue result ↔ (AreHome at len self.now.home.cells → ⊥) }
    {
        let _size = self.home.len();
        self.home.get(at as usize, len as usize).is_none()
    }

    /// The range overlaps a held one: more of them begin before its end than end by its begin.
    pub(crate) fn meets_held(&self, at: u64, len: u64) -> bool
        requires fits { at + len ≤ length self.now.home.cells }
        requires starts_rise { IsNonDecreasing self.now.starts.items }
        requires ends_rise { IsNonDecreasing self.now.ends.items }
        ensures { IsTrue result ↔ ((0 < len) × (count_by (λ n. leb n at) self.now.ends.items < count_by (λ n. ltb n (at + len)) self.now.starts.items)) }
    {
        let _size = self.home.len();
        len > 0 && count_upto(&self.ends, at) < count_below(&self.starts, at + len)
    }

    /// Makes room to mark one range more.
    pub(crate) fn reserve(&mut self) -> Result<(), NoMemory>
        ensures same { (self.new.home ≡ self.old.home) × (self.new.starts.items ≡ self.old.starts.items) × (self.new.ends.items ≡ self.old.ends.items) }
        ensures room { IfOk result (λ _. MayMark self.new) }
    {
        self.starts.reserve(1)?;
        self.ends.reserve(1)?;
        Ok(())
    }

    /// Marks where a held range begins and ends, unless it is empty.
    pub(crate) fn mark(&mut self, range: &Span)
        requires room { MayMark self.old }
        requires fits { range.now.at + range.now.len ≤ length self.old.home.cells }
        requires starts_rise { IsNonDecreasing self.old.starts.items }
        requires ends_rise { IsNonDecreasing self.old.ends.items }
        ensures { Marked range.now self.old self.new }
    {
        let _size = self.home.len();
        if range.len > 0 {
            put(&mut self.starts, range.at);
            put(&mut self.ends, range.at + range.len);
        }
    }

    /// Takes the marks of a held range out.
    pub(crate) fn unmark(&mut self, range: &Span)
        requires there { MayUnmark range.now self.old }
        requires fits { range.now.at + range.now.len ≤ length self.old.home.cells }
        requires starts_rise { IsNonDecreasing self.old.starts.items }
        requires ends_rise { IsNonDecreasing self.old.ends.items }
        ensures { Unmarked range.now self.old self.new }
    {
        let _size = self.home.len();
        if range.len > 0 {
            remove(&mut self.starts, range.at);
            remove(&mut self.ends, range.at + range.len);
        }
    }

    /// The bytes of a range that is at home.
    pub(crate) fn bytes(&self, at: u64, len: u64) -> &[u8]
        requires fits { at + len ≤ length self.now.home.cells }
        requires home { AreHome at len self.now.home.cells }
        ensures { result.now ≡ home_bytes at len self.now.home.cells }
    {
        let _size = self.home.len();
        match self.home.get(at as usize, len as usize) {
            Some(bytes) => bytes,
            None => unreachable!(),
        }
    }

    /// Takes the part of a range out. That of an empty range is a block of its own.
    pub(crate) fn lift(&mut self, alloc: Global, range: &Span) -> Result<Part, NoMemory>
        requires { MayLift range.now self.old }
        ensures ok { IfOk result (λ part. IsLiftedPart range.now self.old part × IsLifted range.now self.old self.new) }
        ensures err { OnErr result (self.new ≡ self.old) }
    {
        if range.len == 0 {
            return Block::make(alloc, &[]);
        }
        let _size = self.home.len();
        match self.home.take_out(range.at as usize, range.len as usize) {
            Ok(Some(part)) => Ok(part),
            Ok(None) => unreachable!(),
            Err(error) => Err(error),
        }
    }

    /// Puts the part of a range back.
    pub(crate) fn put_back(&mut self, range: &Span, part: Part)
        requires { IsOut range.now self.old part }
        ensures { IsPutBack range.now part.bytes self.old self.new }
    {
        if range.len == 0 {
            release(part);
        } else {
            self.home.put_back(part);
        }
    }

    /// Gives the block back, once nothing is out.
    pub(crate) fn close(self)
        requires home { IsWhole self.home.cells }
        requires start { self.home.start ≡ 0 }
        requires whole { self.home.whole ≡ length self.home.cells }
    {
        let Region {
            home,
            starts: _,
            ends: _,
        } = self;
        release(home.close());
    }
}
