//! That a matcher keeps what an endpoint's record says of receives and messages that wait.
#![tactic(auto)]

ghost use Rattle.rdm_tie.specs.Laws.{NothingWaits, RecvPosts, RecvTakes, EnterArrives, EnterTakes, EachArrives, CancelCancels, ForgetForgets, EachIsForgotten, PostedTold, MetTold, NextIsFree};

/// What waits by the record waits in a matcher to which the same came: before any deed, and after a receive is posted or taken
/// back, a message enters, and lives are forgotten. A receive or a message takes what the matcher answers, and what the record
/// tells of those that wait is what the matcher tells.
pub fn tie_law()
    ensures nothing { NothingWaits }
    ensures posts { RecvPosts }
    ensures post_takes { RecvTakes }
    ensures arrives { EnterArrives }
    ensures arrival_takes { EnterTakes }
    ensures each_arrives { EachArrives }
    ensures cancels { CancelCancels }
    ensures forgets { ForgetForgets }
    ensures each_forgotten { EachIsForgotten }
    ensures posted { PostedTold }
    ensures met { MetTold }
    ensures free { NextIsFree }
{}
