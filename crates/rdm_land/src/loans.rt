//! Ranges of a message that are lent.
ghost use Rattle.std.specs.Prelude.{◌≡◌, ◌↔◌, ◌+◌, ◌<◌, ◌≤◌, ◌^◌, ◌||◌, ℕ, true, false, length, get_or, vec_len, vec_capacity, IfOk, OnErr, IsTrue, MatchOption};
ghost use Rattle.rdm_gaps.specs.Places.{AreMissing, AreTaken, after_take, with_untaken};
ghost use Rattle.rdm_mr.specs.Tiles.{AreHome, IsPartAt, without};
ghost use Rattle.rdm_land.specs.Spans.{AreInOrder, have};
ghost use Rattle.rdm_land.specs.Landed.{MayLend, IsPartOf, IsLent, OnlyLent, after_lend, landed, unlent};
ghost use Rattle.rdm_land.specs.Loans.{LentAreLoans, LoansAreApart};

use crate::landing::Landing;
use crate::spans::{Span, end_of, put, remove};
use rdm_gaps::{Gaps, NoMemory};
use rdm_mr::{Home, Part};
use std::alloc::AllocError;

/// Takes the range, if all of it is missing, and makes room to lend one range more beside `room`.
fn claim(
    gaps: &mut Gaps,
    lent: &mut Vec<Span>,
    room: u64,
    off: u64,
    len: u64,
) -> Result<bool, NoMemory>
    ensures answer { IfOk result (λ claimed. IsTrue claimed ↔ AreMissing off len gaps.old.places) }
    ensures places { gaps.new.places ≡ (after_take gaps.old off len result).places }
    ensures spare { gaps.old.spare ≤ gaps.new.spare }
    ensures items { lent.new.items ≡ lent.old.items }
    ensures len { vec_len lent.new ≡ vec_len lent.old }
    ensures room { IfOk result (λ _. (vec_len lent.new + room < gaps.new.spare) × (vec_len lent.new < vec_capacity lent.new)) }
{
    lent.reserve(1)?;
    let Some(all) = (lent.len() as u64 + 1).checked_add(room) else {
        return Err(AllocError);
    };
    gaps.reserve(all)?;
    gaps.take(off, len)
}

/// Takes a part out of what is at home. Where memory is wanting, the range is missing again.
fn pick(
    home: &mut Home,
    gaps: &mut Gaps,
    off: u64,
    len: u64,
    count: usize,
) -> Result<Part, NoMemory>
    requires some { (0 < count) × (count ≤ len) }
    requires home { AreHome off count home.old.cells }
    requires taken { AreTaken off len gaps.old.places }
    requires spare { 0 < gaps.old.spare }
    ensures part { IfOk result (IsPartAt home.old off count) }
    ensures ok { IfOk result (λ part. (home.new ≡ without home.old part) × (gaps.new ≡ gaps.old)) }
    ensures err { OnErr result ((home.new ≡ home.old) × (gaps.new ≡ with_untaken gaps.old off len)) }
{
    match home.take_out(off as usize, count) {
        Ok(Some(part)) => Ok(part),
        Ok(None) => unreachable!(),
        Err(error) => {
            gaps.untake(off, len);
            Err(error)
        }
    }
}

/// Up to where the places from `at` on are missing, or else are lent.
fn waiting_until(gaps: &Gaps, lent: &[Span], at: u64) -> Option<u64>
    requires order { AreInOrder lent.now }
    requires fits { length gaps.now.places < 2 ^ 64 }
    ensures { MatchOption result ((have at lent.now || get_or gaps.now.places at false) ≡ false) (λ end. (at < end) × ((k : ℕ) → at ≤ k → k < end → (have k lent.now || get_or gaps.now.places k false) ≡ true)) }
{
    let missing = gaps.missing_from(at);
    if missing > 0 {
        Some(at + missing)
    } else {
        end_of(lent, at)
    }
}

/// Each place from `off` up to `end` is missing or lent.
pub(crate) fn all_wait(gaps: &Gaps, lent: &[Span], off: u64, end: u64) -> bool
    requires order { AreInOrder lent.now }
    requires fits { length gaps.now.places < 2 ^ 64 }
    ensures { IsTrue result ↔ ((k : ℕ) → off ≤ k → k < end → (have k lent.now || get_or gaps.now.places k false) ≡ true) }
{
    let mut at = off;
    while at < end {
        match waiting_until(gaps, lent, at) {
            Some(next) => at = next,
            None => return false,
        }
    }
    true
}

impl Landing {
    /// Lends the part that a range of the message fills, if all of the range is missing.
    pub fn lend(&mut self, off: u64, len: u64) -> Result<Option<Part>, NoMemory>
        ensures answer { IfOk result (λ out. MatchOption out (MayLend self.old off len → ⊥) (λ part. MayLend self.old off len × IsPartOf self.old off len part)) }
        ensures after { self.new ≡ after_lend self.old off len result }
    {
        let capacity = self.home.len();
        if len == 0 || capacity as u64 <= off {
            return Ok(None);
        }
        if !claim(&mut self.gaps, &mut self.lent, self.room, off, len)? {
            return Ok(None);
        }
        let count = (len as usize).min(capacity - off as usize);
        match pick(&mut self.home, &mut self.gaps, off, len, count) {
            Ok(part) => {
                put(&mut self.lent, Span::of(off, len));
                Ok(Some(part))
            }
            Err(error) => Err(error),
        }
    }

    /// Takes the part of a range that is lent back, with its bytes.
    pub fn land(&mut self, off: u64, len: u64, part: Part)
        requires { IsLent self.old off len part }
        ensures { self.new ≡ landed self.old off len part }
    {
        self.home.put_back(part);
        remove(&mut self.lent, Span::of(off, len));
    }

    /// Takes the part of a range that is lent back, and the range is missing again.
    pub fn unlend(&mut self, off: u64, len: u64, part: Part)
        requires { IsLent self.old off len part }
        ensures { self.new ≡ unlent self.old off len part }
    {
        self.home.put_back(part);
        let span = Span::of(off, len);
        remove(&mut self.lent, span);
        self.gaps.untake(off, len);
    }

    /// The range is not missing, and would be if what is lent were.
    pub fn only_lent(&self, off: u64, len: u64) -> bool
        ensures { IsTrue result ↔ OnlyLent self.now off len }
    {
        let length = self.length;
        let Some(end) = off.checked_add(len) else {
            return false;
        };
        if length < end || len <= self.gaps.missing_from(off) {
            return false;
        }
        all_wait(&self.gaps, &self.lent, off, end)
    }

    /// What is lent is a loan, and no two loans share a place.
    pub fn lent_law(&self)
        ensures loans { LentAreLoans self.now }
        ensures apart { LoansAreApart self.now }
    {
        let _room = self.room;
    }
}
