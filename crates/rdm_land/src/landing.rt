//! What came of a message.
ghost use Rattle.std.specs.Prelude.{◌≡◌, ◌+◌, ◌-◌, ◌<◌, ◌≤◌, [], min, length, take, IfOk, OnOk, OnErr, MatchOption, MatchResult};
ghost use Rattle.rdm_gaps.specs.Places.{AreMissing};
ghost use Rattle.rdm_mr.specs.Tiles.{AreBytes, AreHome, IsAll, IsWhole, overwritten};
ghost use Rattle.rdm_land.specs.Landed.{Says, awaiting, resumed, with_room, after_place, after_fill, is_finished};
ghost use Rattle.rdm_land.specs.Landed as Landed;

use crate::spans::Span;
use rdm_gaps::{Gaps, NoMemory};
use rdm_mr::{Home, Part};
use std::alloc::{AllocError, Global};
use std::marker::Model;

/// The bytes of a message so far, in a part that may be shorter than the message. It must be spent,
/// by `into_part`.
pub struct Landing {
    pub(crate) length: u64,
    pub(crate) home: Home,
    pub(crate) gaps: Gaps,
    pub(crate) lent: Vec<Span>,
    /// For how many ranges there is room to be filled. Beside it there is room to make each lent range
    /// missing again.
    pub(crate) room: u64,
}

impl Model for Landing {
    ghost use Rattle.rdm_land.specs.Landed.{Landed, landed_code};

    ghost Value = { Landed };

    ghost coded = { landed_code };

    ghost use Rattle.rdm_land.specs.Inside.{IsLanding};

    ghost view = { λ l. record { tiles = l.home; missing = l.gaps.places; lent = l.lent.items; room = l.room } };

    ghost invariant = { IsLanding };
}

/// Whether bytes were placed.
#[derive(Clone, Copy, Debug, PartialEq, Eq)]
pub enum Placed {
    /// They were.
    Placed,
    /// Some place of their range is not missing.
    Overlap,
}

/// Writes what of the bytes lies below the capacity, where that is at home.
fn write(home: &mut Home, off: u64, bytes: &[u8])
    requires { off < length home.old.cells → AreHome off (min (length bytes.now) (length home.old.cells - off)) home.old.cells }
    ensures { home.new ≡ overwritten home.old off (take (length home.old.cells - off) bytes.now) }
{
    let capacity = home.len();
    if off < capacity as u64 {
        let at = off as usize;
        let fitting = bytes.len().min(capacity - at);
        home.write(at, &bytes[..fitting]);
    }
}

impl Landing {
    /// Of a message of `length` bytes nothing has come yet. Where memory is wanting the part comes back.
    pub fn new(alloc: Global, part: Part, length: u64) -> Result<Landing, Part>
        ensures { MatchResult result (λ landing. landing ≡ awaiting part length) (λ back. back ≡ part) }
    {
        match Gaps::whole(alloc, length) {
            Ok(gaps) => match Home::new(alloc, part) {
                Ok(home) => Ok(Landing::of(alloc, home, gaps)),
                Err(part) => Err(part),
            },
            Err(_) => Err(part),
        }
    }

    /// A message lands in a home of which nothing is out, and the gaps are what is missing of it.
    pub fn of(alloc: Global, home: Home, gaps: Gaps) -> Landing
        requires whole { IsWhole home.cells }
        requires none_out { home.out ≡ 0 }
        ensures { result ≡ resumed home gaps }
    {
        let length = gaps.places();
        let room = gaps.spare();
        Landing {
            length,
            home,
            gaps,
            lent: Vec::new(alloc),
            room,
        }
    }

    /// Makes room to fill `n` ranges.
    pub fn reserve(&mut self, n: u64) -> Result<(), NoMemory>
        ensures ok { OnOk result (self.new ≡ with_room self.old n) }
        ensures err { OnErr result (self.new ≡ self.old) }
    {
        if self.room < n {
            let Some(all) = (self.lent.len() as u64).checked_add(n) else {
                return Err(AllocError);
            };
            self.gaps.reserve(all)?;
            self.room = n;
        }
        Ok(())
    }

    /// Places bytes, if all of their range is missing. What lies past the capacity is discarded.
    pub fn place(&mut self, off: u64, bytes: &[u8]) -> Result<Placed, NoMemory>
        ensures answer { IfOk result (λ placed. Says placed (AreMissing off (length bytes.now) self.old.missing)) }
        ensures after { self.new ≡ after_place self.old off bytes.now result }
    {
        if !self.gaps.take(off, bytes.len() as u64)? {
            return Ok(Placed::Overlap);
        }
        write(&mut self.home, off, bytes);
        Ok(Placed::Placed)
    }

    /// The same where there is room, which can't fail.
    pub fn fill(&mut self, off: u64, bytes: &[u8]) -> Placed
        requires { 0 < self.old.room }
        ensures answer { Says result (AreMissing off (length bytes.now) self.old.missing) }
        ensures after { self.new ≡ after_fill self.old off bytes.now result }
    {
        if !self.gaps.take_reserved(off, bytes.len() as u64) {
            return Placed::Overlap;
        }
        self.room -= 1;
        write(&mut self.home, off, bytes);
        Placed::Placed
    }

    /// Nothing is missing, and nothing is lent.
    pub fn finished(&self) -> bool
        ensures { result ≡ is_finished self.now }
    {
        self.gaps.is_empty() && self.lent.is_empty()
    }

    /// How many places of the message are missing.
    pub fn missing(&self) -> u64
        ensures { result ≡ Landed.missing_places self.now }
    {
        self.gaps.missing()
    }

    /// How many ranges are lent.
    pub fn lent(&self) -> usize
        ensures { result ≡ length self.now.lent }
    {
        self.lent.len()
    }

    /// The bytes of a range below the capacity, if all of it is at home. They aren't copied.
    pub fn bytes(&self, at: usize, len: usize) -> Option<&[u8]>
        requires { at + len ≤ Landed.capacity self.now }
        ensures { MatchOption result (AreHome at len self.now.tiles.cells → ⊥) (λ bytes. (length bytes.now ≡ len) × AreBytes at bytes.now self.now.tiles.cells) }
    {
        self.home.get(at, len)
    }

    /// How many bytes of the message lie past the capacity.
    pub fn excess(&self) -> u64
        ensures { result ≡ Landed.excess self.now }
    {
        self.length.saturating_sub(self.home.len() as u64)
    }

    /// The part, once nothing is lent.
    pub fn into_part(self) -> Part
        requires { self.lent ≡ [] }
        ensures { IsAll self.tiles result }
    {
        let Landing {
            length: _,
            home,
            gaps: _,
            lent: _,
            room: _,
        } = self;
        home.close()
    }
}
