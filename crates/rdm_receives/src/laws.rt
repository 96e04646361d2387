//! What the calls come to in the words of what an endpoint keeps.
ghost use Rattle.rdm_receives.specs.Laws.{NewShows, MessageShows, RoomShows, FillShows};
ghost use Rattle.rdm_receives.specs.Laws.{MissingShows, FullShows, LandedShows, GrantShows, OwesShow};
ghost use Rattle.rdm_receives.specs.Laws.{BytesShow, ExcessShows, PartShows, ZerosShow};
ghost use Rattle.rdm_receives.specs.Laws.{LendShows, UnlendShows, LandShows, FreeIsMissing};

/// Each call makes of a receive that shows a live receive one that shows what the record makes of it.
pub fn receives_law()
    ensures new { NewShows }
    ensures message { MessageShows }
    ensures room { RoomShows }
    ensures fill { FillShows }
{}

/// What a receive answers is what the record of the live receive that it shows says.
pub fn answers_law()
    ensures missing { MissingShows }
    ensures full { FullShows }
    ensures landed { LandedShows }
    ensures grant { GrantShows }
    ensures owes { OwesShow }
{}

/// What comes back of a receive that is over is what the record says.
pub fn ends_law()
    ensures bytes { BytesShow }
    ensures excess { ExcessShows }
    ensures part { PartShows }
    ensures zeros { ZerosShow }
{}

/// A loan changes nothing of the record, and what lands is a piece that came. A range that waits and of
/// which nothing is lent may be filled.
pub fn loans_law()
    ensures lend { LendShows }
    ensures unlend { UnlendShows }
    ensures land { LandShows }
    ensures free { FreeIsMissing }
{}
