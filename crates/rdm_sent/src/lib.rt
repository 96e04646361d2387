//! That a live send, whole, is the one that an endpoint's record keeps.
#![tactic(auto)]

ghost use Rattle.rdm_sent.specs.Laws.{BeginsAsKept, NextIsKept, GoesOut, PushesAsKept};
ghost use Rattle.rdm_sent.specs.Laws.{MayBeGranted, GrantsAsKept, MayBeAsked, RoomIsKept, AsksAsKept, GivesAsKept, AnswersAsKept, FactsAreKept};

/// A new send is the one that the record has last, and what goes out of it and is left then is what
/// the record says.
pub fn pushes_law()
    ensures begins { BeginsAsKept }
    ensures next { NextIsKept }
    ensures goes_out { GoesOut }
    ensures pushes { PushesAsKept }
{}

/// Grants, asks and answers make of a send what the record makes of it.
pub fn comings_law()
    ensures may_be_granted { MayBeGranted }
    ensures grants { GrantsAsKept }
    ensures may_be_asked { MayBeAsked }
    ensures room { RoomIsKept }
    ensures asks { AsksAsKept }
    ensures gives { GivesAsKept }
    ensures answers { AnswersAsKept }
{}

/// What a send tells of itself is what the record's facts ask of it.
pub fn facts_law()
    ensures facts { FactsAreKept }
{}
