//! What came of a message before it had a range to land in.
ghost use Rattle.std.specs.Prelude.{◌≡◌, [], length};
ghost use Rattle.rdm_mr.specs.Tiles.{IsWhole};
ghost use Rattle.rdm_land.specs.Arrivals.{with_came, arrived};

use crate::landing::Landing;
use rdm_gaps::Gaps;
use rdm_mr::Home;

/// Writes the bytes of the places that came, where they lie below the capacity.
fn write_came(home: &mut Home, gaps: &Gaps, bytes: &[u8])
    requires whole { IsWhole home.old.cells }
    requires long { length bytes.now ≡ length gaps.now.places }
    ensures { home.new ≡ with_came home.old gaps.now.places bytes.now }
{
    let end = bytes.len().min(home.len());
    let mut at = 0;
    while at < end {
        let came = gaps.came_from(at as u64) as usize;
        let stop = (at + came).min(end);
        home.write(at, &bytes[at..stop]);
        let missing = gaps.missing_from(stop as u64) as usize;
        at = stop + missing;
    }
}

impl Landing {
    /// From now on it is of a message of which these places are missing, and the bytes of the others
    /// are written. It wants no memory.
    pub fn arrive(&mut self, gaps: Gaps, bytes: &[u8])
        requires none_lent { self.old.lent ≡ [] }
        requires long { length bytes.now ≡ length gaps.places }
        ensures { self.new ≡ arrived self.old gaps bytes.now }
    {
        write_came(&mut self.home, &gaps, bytes);
        self.length = gaps.places();
        self.room = gaps.spare();
        self.gaps = gaps;
    }
}
