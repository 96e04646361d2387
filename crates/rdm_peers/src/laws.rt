//! What the table shows of an endpoint's record.
ghost use Rattle.rdm_peers.specs.Laws.{NobodyShows, OpeningShows, RoomShows, MeetingShows, PassingShows, AnsweringShows, LearningShows, NumberingShows, HearingShows, ForgettingShows};

/// The accounts show what the record keeps of lives, before any is known and after each change.
pub fn peers_law()
    ensures nobody { NobodyShows }
    ensures opening { OpeningShows }
    ensures room { RoomShows }
    ensures meeting { MeetingShows }
    ensures passing { PassingShows }
    ensures answering { AnsweringShows }
    ensures learning { LearningShows }
    ensures numbering { NumberingShows }
    ensures hearing { HearingShows }
    ensures forgetting { ForgettingShows }
{}
