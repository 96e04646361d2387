//! What holds and leases are over the calls for others.
ghost use Rattle.rdm_regions.specs.Holds.{EachIsHeld, NoneIsHeld};
ghost use Rattle.rdm_regions.specs.Survival.{StayRegistered, StayHeld, StayDropped, StayLeased, StayReturned, BackUndoesLease};

/// A hold and a lease survive every call for another: the hold with its bytes, the lease with its part.
/// A part that comes back with the bytes that it went out with leaves no trace.
pub fn survival_law()
    ensures registered { StayRegistered }
    ensures held { StayHeld }
    ensures dropped { StayDropped }
    ensures leased { StayLeased }
    ensures returned { StayReturned }
    ensures undone { BackUndoesLease }
{}

/// Each range of a `hold_all` is held, and after a `drop_hold` none is.
pub fn holds_law()
    ensures held { EachIsHeld }
    ensures dropped { NoneIsHeld }
{}
