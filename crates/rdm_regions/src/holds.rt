//! The ranges that sends hold.
ghost use Rattle.std.specs.Prelude.{◌≡◌, ◌≤◌, length, None, OnOk, OnErr};
ghost use Rattle.std.specs.FinMap as finite;
ghost use Rattle.rdm_regions.specs.Ranges.{range, hold_key};
ghost use Rattle.rdm_regions.specs.Registry.{Answers, with_hold, without_hold, after_hold};
ghost use Rattle.rdm_regions.specs.Registry as Registry;
ghost use Rattle.rdm_regions.specs.Holds.{HoldsNone, with_holds, without_holds, after_hold_all};
ghost use Rattle.rdm_regions.specs.Holds as Holds;

use crate::key::HoldKey;
use crate::refused::RegionRefused;
use crate::regions::Regions;
use rdm_num::{NoMemory, OpId, Parts, RegionNo, Span};

/// How many ranges a send may hold.
const PARTS_MAX: u32 = 4;

impl Regions {
    /// The send holds the range, unless that overlaps a leased one.
    pub fn hold(
        &mut self,
        send: OpId,
        region: RegionNo,
        at: u64,
        len: u64,
    ) -> Result<(), RegionRefused>
        requires { finite.get self.old.held (hold_key send.0 0) ≡ None }
        ensures answer { Answers (Registry.hold_refusal self.old (range region.0 at len)) (λ _. Unit {0}) result }
        ensures after { self.new ≡ after_hold self.old (hold_key send.0 0) (range region.0 at len) result }
    {
        let range = Span { region, at, len };
        match self.hold_refusal(&range) {
            Some(why) => Err(why),
            None => {
                self.keep(HoldKey::new(send, 0), range)?;
                Ok(())
            }
        }
    }

    /// The send holds all of the ranges, or none of them.
    pub fn hold_all(&mut self, send: OpId, parts: &Parts) -> Result<(), RegionRefused>
        requires { HoldsNone self.old send.0 }
        ensures answer { Answers (Holds.parts_refusal self.old parts.now) (λ _. Unit {0}) result }
        ensures after { self.new ≡ after_hold_all self.old send.0 parts.now result }
    {
        let ranges = parts.as_slice();
        match self.parts_refusal(ranges) {
            Some(why) => Err(why),
            None => {
                self.keep_all(send, ranges)?;
                Ok(())
            }
        }
    }

    /// The send holds nothing any more.
    pub fn drop_hold(&mut self, send: OpId)
        ensures { self.new ≡ without_holds self.old send.0 4 }
    {
        self.release_all(send, PARTS_MAX);
    }

    /// The gravest refusal of one of the ranges.
    fn parts_refusal(&self, ranges: &[Span]) -> Option<RegionRefused>
        ensures { result ≡ Holds.parts_refusal self.now ranges.now }
    {
        let mut refusal = None;
        for range in ranges {
            refusal = graver(refusal, self.hold_refusal(range));
        }
        refusal
    }

    /// Holds ranges that are not refused.
    fn keep_all(&mut self, send: OpId, ranges: &[Span]) -> Result<(), NoMemory>
        requires few { length ranges.now ≤ 4 }
        requires free { HoldsNone self.old send.0 }
        requires allowed { Holds.parts_refusal self.old ranges.now ≡ None }
        ensures ok { OnOk result (self.new ≡ with_holds self.old send.0 ranges.now) }
        ensures err { OnErr result (self.new ≡ self.old) }
    {
        for (i, range) in ranges.iter().enumerate() {
            let part = i as u32;
            match self.keep(HoldKey::new(send, part), *range) {
                Ok(()) => {}
                Err(error) => {
                    self.release_all(send, part);
                    return Err(error);
                }
            }
        }
        Ok(())
    }

    /// Nothing is held any more for the first `count` parts of the send.
    fn release_all(&mut self, send: OpId, count: u32)
        ensures { self.new ≡ without_holds self.old send.0 count }
    {
        let mut left = count;
        while left > 0 {
            left -= 1;
            self.release(HoldKey::new(send, left));
        }
    }

    /// Holds a range that is not refused under the key.
    fn keep(&mut self, key: HoldKey, range: Span) -> Result<(), NoMemory>
        requires free { finite.get self.old.held key ≡ None }
        requires allowed { Registry.hold_refusal self.old range ≡ None }
        ensures ok { OnOk result (self.new ≡ with_hold self.old key range) }
        ensures err { OnErr result (self.new ≡ self.old) }
    {
        let region = &mut self.regions[range.region.0 as usize];
        region.reserve()?;
        self.held.insert(key, range)?;
        let region = &mut self.regions[range.region.0 as usize];
        region.mark(&range);
        Ok(())
    }

    /// Nothing is held any more under the key.
    fn release(&mut self, key: HoldKey)
        ensures { self.new ≡ without_hold self.old key }
    {
        match self.held.remove(&key) {
            Some(range) => {
                let region = &mut self.regions[range.region.0 as usize];
                region.unmark(&range);
            }
            None => {}
        }
    }
}

/// The first of two refusals in the order of `rank`.
#[tactic(auto, unfolding(crate::specs::Holds::graver))]
fn graver(a: Option<RegionRefused>, b: Option<RegionRefused>) -> Option<RegionRefused>
    ensures { result ≡ Holds.graver a b }
{
    match (a, b) {
        (Some(v), Some(w)) => { if rank(w) < rank(v) { b } else { a } }
        (Some(_), None) => a,
        (None, _) => b,
    }
}

/// Which refusal is told, where several ranges are refused: the one of the lowest rank.
fn rank(why: RegionRefused) -> u8
    ensures { result ≡ Holds.rank why }
{
    match why {
        RegionRefused::NoRegion => 0,
        RegionRefused::Range => 1,
        RegionRefused::Busy => 2,
        RegionRefused::Memory => 3,
    }
}
