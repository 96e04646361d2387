//! The record of an endpoint, one receive or one message at a time.
#![tactic(auto)]

ghost use Rattle.rdm_sound.specs.Forgets.{ForgetsEach, ForgetsNone, ForgetsReceive, ForgetsRest, ForgetsSend, StaysOrderlyByLosses};
ghost use Rattle.rdm_sound.specs.Heard.{BeginsHeard, EntersEarly, EntersNext, EntersNone, EntersUntil, EntersWhile, KeptIsHeard, StaysHeard, StaysHeardInSteps};
ghost use Rattle.rdm_sound.specs.Laws.{EntersEach, LandsInOne, MeetsEach, PostsOne, SettlesEach};
ghost use Rattle.rdm_sound.specs.Orders.{AnswersAllow, BeginsOrderly, KeptIsOrderly, StaysOrderly, StaysOrderlyInSteps};
ghost use Rattle.rdm_sound.specs.Waiting.{AcceptsFree, BeginsWaiting, KeptIsWaiting, StaysWaiting, StaysWaitingInSteps};

/// What happens to an endpoint's record at once is what happens to it one step at a time: a call may settle, land, meet, post
/// and let enter one receive or one message after another.
pub fn steps_law()
    ensures settles { SettlesEach }
    ensures meets { MeetsEach }
    ensures posts { PostsOne }
    ensures lands { LandsInOne }
    ensures enters { EntersEach }
{}

/// A record that is orderly stays so, by each deed and by each step of which deeds are made: an endpoint that keeps it so at
/// each call may take every step of `steps_law`. What is kept of each life of a port whose log is right by itself is such a record.
pub fn orders_law()
    ensures begins { BeginsOrderly }
    ensures stays { StaysOrderly }
    ensures steps { StaysOrderlyInSteps }
    ensures allows { AnswersAllow }
    ensures kept { KeptIsOrderly }
{}

/// A life is forgotten as the receives that concern it are lost, then the sends to it, each in a step of its own, and then what
/// else is kept of it. A record stays orderly by each of these steps.
pub fn losses_law()
    ensures forgets { ForgetsEach }
    ensures receives { ForgetsReceive }
    ensures sends { ForgetsSend }
    ensures rest { ForgetsRest }
    ensures none { ForgetsNone }
    ensures stays { StaysOrderlyByLosses }
{}

/// What was heard of is early until a receive takes it, by each deed and by each step. So the messages of a life enter while
/// the next one was heard of, and each is early as it enters.
pub fn heard_law()
    ensures begins { BeginsHeard }
    ensures stays { StaysHeard }
    ensures steps { StaysHeardInSteps }
    ensures early { EntersEarly }
    ensures enters { EntersWhile }
    ensures ends { EntersUntil }
    ensures next { EntersNext }
    ensures none { EntersNone }
    ensures kept { KeptIsHeard }
{}

/// A receive that waits is live under its number and has no message, by each deed and by each step: so a message that a waiting
/// receive accepts finds one that may take it.
pub fn waiting_law()
    ensures begins { BeginsWaiting }
    ensures stays { StaysWaiting }
    ensures steps { StaysWaitingInSteps }
    ensures accepts { AcceptsFree }
    ensures kept { KeptIsWaiting }
{}
