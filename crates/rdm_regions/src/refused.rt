//! Why a call refuses a range.
use rdm_num::NoMemory;

/// Why a range is refused.
#[derive(Clone, Copy, Debug, PartialEq, Eq)]
pub enum RegionRefused {
    /// No region has that number.
    NoRegion,
    /// The range passes the end of the region.
    Range,
    /// The range overlaps one that it must not.
    Busy,
    /// Want of memory.
    Memory,
}

impl From<NoMemory> for RegionRefused {
    ghost use Rattle.std.specs.Prelude.{◌≡◌};
    ghost use Rattle.rdm_regions.specs.declared.refused.RegionRefused.TheVariants.{Memory};

    ghost from_gives = { λ _ r. r ≡ Memory };

    fn from(_error: NoMemory) -> RegionRefused {
        RegionRefused::Memory
    }
}
