//! What holds are kept under.
ghost use Rattle.std.specs.Prelude.{◌≡◌};
ghost use Rattle.rdm_regions.specs.Ranges.{hold_key};

use rdm_num::OpId;

/// One of the parts of a send. The keys of a send stand beside each other.
#[derive(Clone, Copy, Debug, PartialEq, Eq, PartialOrd, Ord)]
pub struct HoldKey {
    pub send: u32,
    pub part: u32,
}

impl HoldKey {
    /// The key of that part of the send.
    pub fn new(send: OpId, part: u32) -> HoldKey
        ensures { result ≡ hold_key send.0 part }
    {
        HoldKey { send: send.0, part }
    }
}
