//! That registered regions and inserted lives are those of an endpoint's record.
#![tactic(auto)]

ghost use Rattle.rdm_shown.specs.GroundLaws.{NothingShows, RegShows, LeaseShows, PartIsOut, BackShows, HoldShows, DropShows, NamesCount, HoldRefusals, LeaseRefusals, BytesShow, BytesStay};
ghost use Rattle.rdm_shown.specs.LifeLaws.{NoLivesShow, InsertShows, SourceShows, OriginsShow};

/// The regions show the record's, with what live receives have out and what live sends hold, before any is registered and after
/// each change; and each refusal and each byte is the record's.
pub fn grounds_law()
    ensures nothing { NothingShows }
    ensures reg { RegShows }
    ensures lease { LeaseShows }
    ensures out { PartIsOut }
    ensures back { BackShows }
    ensures hold { HoldShows }
    ensures drop { DropShows }
    ensures names { NamesCount }
    ensures hold_refusals { HoldRefusals }
    ensures lease_refusals { LeaseRefusals }
    ensures bytes { BytesShow }
    ensures bytes_stay { BytesStay }
{}

/// The lives show the record's current and superseded ones, before any came and after each change.
pub fn lives_law()
    ensures none { NoLivesShow }
    ensures insert { InsertShows }
    ensures source { SourceShows }
    ensures origins { OriginsShow }
{}
