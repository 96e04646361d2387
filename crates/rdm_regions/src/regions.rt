//! All regions, and the ranges of them that are held and leased.
ghost use Rattle.std.specs.Prelude.{◌≡◌, ◌<◌, ◌++◌, length, is_none, None, Some, IfOk, OnOk, OnErr, MatchResult};
ghost use Rattle.std.specs.FinMap as finite;
ghost use denote.RawPtr.{Ptr};
ghost use Rattle.rdm_regions.specs.Ranges.{range};
ghost use Rattle.rdm_regions.specs.Registry.{Answers, IsLeased, IsLeaseOf, nothing, with_region, with_lease, bytes_at, after_lease, after_lease_back};
ghost use Rattle.rdm_regions.specs.Survival.{IsSound};
ghost use Rattle.rdm_regions.specs.Tallies.{IsRegionOf, LacksRegion};
ghost use Rattle.rdm_regions.specs.Registry as Registry;
ghost use Rattle.rdm_regions.specs.Tallies as Tallies;

use crate::key::HoldKey;
use crate::refused::RegionRefused;
use crate::region::Region;
use rdm_mr::Part;
use rdm_num::{NoMemory, OpId, RegionNo, Span};
use std::alloc::Global;
use std::collections::BTreeMap;
use std::marker::Model;

/// The registered regions, with the ranges that sends hold and those that receives have out. It must
/// be spent, by `close`.
pub struct Regions {
    alloc: Global,
    pub(crate) regions: Vec<Region>,
    pub(crate) held: BTreeMap<HoldKey, Span>,
    leased: BTreeMap<u32, Span>,
}

impl Model for Regions {
    ghost use Rattle.rdm_regions.specs.Registry.{Registry, registry_code};

    ghost Value = { Registry };

    ghost coded = { registry_code };

    ghost use Rattle.rdm_regions.specs.SoundRegions.{seen, IsKept};

    ghost view = { seen };

    ghost invariant = { IsKept };
}

impl Regions {
    /// No region is registered.
    pub fn new(alloc: Global) -> Regions
        ensures { result ≡ nothing }
    {
        Regions {
            alloc,
            regions: Vec::new(alloc),
            held: BTreeMap::new(alloc),
            leased: BTreeMap::new(alloc),
        }
    }

    /// Registers a block with these bytes, under the next number.
    pub fn reg(&mut self, alloc: Global, bytes: &[u8]) -> Result<RegionNo, NoMemory>
        requires { length self.old.areas < 4294967295 }
        ensures number { IfOk result (λ region. region.0 ≡ length self.old.areas) }
        ensures ok { IfOk result (λ _. (block : Ptr) × (self.new ≡ with_region self.old block bytes.now)) }
        ensures err { OnErr result (self.new ≡ self.old) }
    {
        self.regions.reserve(1)?;
        let region = Region::new(alloc, bytes)?;
        let number = self.regions.len() as u32;
        self.regions.push_reserved(region);
        Ok(RegionNo(number))
    }

    /// Takes the part of the range out for the receive, unless the range overlaps a leased or a held
    /// one.
    pub fn lease_out(
        &mut self,
        recv: OpId,
        region: RegionNo,
        at: u64,
        len: u64,
    ) -> Result<Part, RegionRefused>
        requires { finite.get self.old.leased recv.0 ≡ None }
        ensures answer { Answers (Registry.lease_refusal self.old (range region.0 at len)) (IsLeased self.old (range region.0 at len)) result }
        ensures after { self.new ≡ after_lease self.old recv.0 (range region.0 at len) result }
        ensures lease { IfOk result (IsLeaseOf self.new recv.0) }
    {
        let range = Span { region, at, len };
        match self.lease_refusal(&range) {
            Some(why) => Err(why),
            None => Ok(self.take_out(recv, range)?),
        }
    }

    /// Takes the part of the receive's range back, with its bytes.
    pub fn lease_back(&mut self, recv: OpId, part: Part)
        requires { IsLeaseOf self.old recv.0 part }
        ensures { self.new ≡ after_lease_back self.old recv.0 part }
    {
        match self.leased.remove(&recv.0) {
            Some(range) => {
                let region = &mut self.regions[range.region.0 as usize];
                region.put_back(&range, part);
            }
            None => unreachable!(),
        }
    }

    /// The bytes of the range, unless it overlaps a leased one. They aren't copied.
    pub fn bytes(&self, region: RegionNo, at: u64, len: u64) -> Result<&[u8], RegionRefused>
        ensures { MatchResult result (λ bytes. (Registry.hold_refusal self.now (range region.0 at len) ≡ None) × (bytes.now ≡ bytes_at self.now (range region.0 at len))) (λ why. Registry.hold_refusal self.now (range region.0 at len) ≡ Some why) }
    {
        let range = Span { region, at, len };
        match self.hold_refusal(&range) {
            Some(why) => Err(why),
            None => Ok(self.regions[range.region.0 as usize].bytes(at, len)),
        }
    }

    /// Appends the bytes of the range, unless it overlaps a leased one.
    pub fn read_range(
        &self,
        region: RegionNo,
        at: u64,
        len: u64,
        to: &mut Vec<u8>,
    ) -> Result<(), RegionRefused>
        ensures answer { Answers (Registry.hold_refusal self.now (range region.0 at len)) (λ _. to.new.items ≡ to.old.items ++ bytes_at self.now (range region.0 at len)) result }
        ensures err { OnErr result (to.new.items ≡ to.old.items) }
    {
        match self.bytes(region, at, len) {
            Ok(bytes) => {
                to.extend_from_slice(bytes)?;
                Ok(())
            }
            Err(why) => Err(why),
        }
    }

    /// A `hold` of the range would not be refused.
    pub fn may_hold(&self, region: RegionNo, at: u64, len: u64) -> bool
        ensures { result ≡ is_none (Registry.hold_refusal self.now (range region.0 at len)) }
    {
        let range = Span { region, at, len };
        self.hold_refusal(&range).is_none()
    }

    /// A `lease_out` of the range would not be refused.
    pub fn may_lease(&self, region: RegionNo, at: u64, len: u64) -> bool
        ensures { result ≡ is_none (Registry.lease_refusal self.now (range region.0 at len)) }
    {
        let range = Span { region, at, len };
        self.lease_refusal(&range).is_none()
    }

    /// What is true at all times.
    pub fn sound_law(&self)
        ensures { IsSound self.now }
    {
        let _alloc = self.alloc;
    }

    /// Gives all blocks back, once nothing is leased.
    pub fn close(self)
        requires { self.leased ≡ finite.empty }
    {
        let Regions {
            alloc: _,
            mut regions,
            held: _,
            leased: _,
        } = self;
        while let Some(region) = regions.pop() {
            region.close();
        }
        regions.destroy_empty();
    }

    /// Why a range that is to be held or read is refused, if it is.
    pub(crate) fn hold_refusal(&self, range: &Span) -> Option<RegionRefused>
        ensures { result ≡ Registry.hold_refusal self.now range.now }
    {
        match region_of(&self.regions, range) {
            Ok(region) => busy_if(region.meets_leased(range.at, range.len)),
            Err(why) => Some(why),
        }
    }

    /// Why a range that is to be leased is refused, if it is.
    fn lease_refusal(&self, range: &Span) -> Option<RegionRefused>
        ensures { result ≡ Registry.lease_refusal self.now range.now }
    {
        match region_of(&self.regions, range) {
            Ok(region) => {
                let leased = region.meets_leased(range.at, range.len);
                let held = region.meets_held(range.at, range.len);
                busy_if(leased | held)
            }
            Err(why) => Some(why),
        }
    }

    /// Takes the part of a range out that is not refused.
    fn take_out(&mut self, recv: OpId, range: Span) -> Result<Part, NoMemory>
        requires free { finite.get self.old.leased recv.0 ≡ None }
        requires allowed { Registry.lease_refusal self.old range ≡ None }
        ensures part { IfOk result (IsLeased self.old range) }
        ensures lease { IfOk result (IsLeaseOf self.new recv.0) }
        ensures ok { OnOk result (self.new ≡ with_lease self.old recv.0 range) }
        ensures err { OnErr result (self.new ≡ self.old) }
    {
        self.leased.insert(recv.0, range)?;
        let region = &mut self.regions[range.region.0 as usize];
        match region.lift(self.alloc, &range) {
            Ok(part) => Ok(part),
            Err(error) => {
                self.leased.remove(&recv.0);
                Err(error)
            }
        }
    }
}

/// The region of a range, if there is one in which the range lies.
fn region_of<'a>(regions: &'a [Region], range: &Span) -> Result<&'a Region, RegionRefused>
    ensures { MatchResult result (λ region. IsRegionOf range.now regions.now region.now) (LacksRegion range.now regions.now) }
{
    match regions.get(range.region.0 as usize) {
        Some(region) => {
            if region.fits(range.at, range.len) {
                Ok(region)
            } else {
                Err(RegionRefused::Range)
            }
        }
        None => Err(RegionRefused::NoRegion),
    }
}

/// The refusal of a range that overlaps what it must not.
fn busy_if(busy: bool) -> Option<RegionRefused>
    ensures { result ≡ Tallies.busy_if busy }
{
    if busy {
        Some(RegionRefused::Busy)
    } else {
        None
    }
}
