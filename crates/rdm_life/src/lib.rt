//! What an endpoint keeps, and that it is what the definitions make of the deeds of its life.
#![tactic(auto)]

ghost use Rattle.rdm_life.specs.Laws.{
  FactsAreKept,
  LandingStands,
  LendingStands,
  LoansBegin,
  LoansLast,
  RecordIsKept,
  UnlendingStands,
};

/// After every log that is right by itself, each field of an endpoint's record is what the definitions say of the deeds of
/// its life.
pub fn record_is_kept()
    ensures { RecordIsKept }
{}

/// What the record of an open life answers, drops, lets wait, lets enter, sends and completes next is what the definitions say.
pub fn facts_are_kept()
    ensures { FactsAreKept }
{}

/// Bytes of a datagram that no class fits may be lent while they are copied. The range stays missing, and the datagram one that
/// no class fits and that has those bytes for that receive, over each deed that brings none of them and forgets none of the
/// lives that the receive concerns: so it lands as it could have when it was lent.
pub fn loans_last()
    ensures begins { LoansBegin }
    ensures lasts { LoansLast }
{}

/// Ranges that are out are missing, and no two of them share a place: so it stays as one more is lent, as one is given back,
/// and as the datagram of one lands.
pub fn loans_stand()
    ensures lends { LendingStands }
    ensures unlends { UnlendingStands }
    ensures lands { LandingStands }
{}
