//! Which places of a message wait for their bytes.
ghost use Rattle.std.specs.Prelude.{◌↔◌, IsTrue};
ghost use Rattle.rdm_land.specs.Inside.{Agrees};
ghost use Rattle.rdm_land.specs.Arrivals.{IsFront, AreWaiting, IsFree};

use crate::landing::Landing;
use crate::loans::all_wait;
use crate::spans::find;

impl Landing {
    /// The first place that is missing or lent, or the length where there is none.
    pub fn front(&self) -> u64
        ensures { IsFront self.now result }
    {
        let missing = self.gaps.came_from(0);
        match self.lent.first() {
            Some(span) => missing.min(span.start),
            None => missing,
        }
    }

    /// The range lies in the message, and each place of it is missing or lent.
    pub fn awaits(&self, off: u64, len: u64) -> bool
        ensures { IsTrue result ↔ AreWaiting self.now off len }
    {
        let length = self.length;
        let Some(end) = off.checked_add(len) else {
            return false;
        };
        if length < end {
            return false;
        }
        all_wait(&self.gaps, &self.lent, off, end)
    }

    /// The range has no place that is lent.
    pub fn is_free(&self, off: u64, len: u64) -> bool
        ensures { IsTrue result ↔ IsFree self.now off len }
    {
        let _room = self.room;
        let i = find(&self.lent, off);
        if i < self.lent.len() {
            self.lent[i].start.saturating_sub(off) >= len
        } else {
            true
        }
    }

    /// What is lent is not missing, and its places below the capacity are out, and no others.
    pub fn agrees_law(&self)
        ensures { Agrees self.now.missing self.now.tiles.cells self.now.lent }
    {
        let _room = self.room;
    }
}
