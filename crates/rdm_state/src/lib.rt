//! That the parts of an endpoint, each changed as its calls change it, show what an endpoint's record makes of the same step.
#![tactic(auto)]

ghost use Rattle.rdm_state.specs.Counted.{BeginsCounted, StaysCounted, TellsCounts};
ghost use Rattle.rdm_state.specs.Fitting.{BeginsFitting, StaysFitting};
ghost use Rattle.rdm_state.specs.Giving.{BeginsGiving, OwesNone, StaysGiving};
ghost use Rattle.rdm_state.specs.LifeLaws.{Accepts, Begins, Greets, Inserts, Knows, Learns, Passes, Supersedes};
ghost use Rattle.rdm_state.specs.MessageLaws.{Adds, Arrives, EntersAside, Hears, IsTaken, Meets, Owes, Posts, Takes};
ghost use Rattle.rdm_state.specs.SendLaws.{AnswersGo, AsksCome, GrantsCome, PacketsGo, RepliesGo, SendsEnd, SendsLost};
ghost use Rattle.rdm_state.specs.Laws.{Cancels, Ends, Fills, Grants, Loses, Polls, Registers, Starts};

/// The parts of a new endpoint show a record of which nothing is kept, and show what is kept once a region is registered and
/// once a completion is polled.
pub fn state_law()
    ensures starts { Starts }
    ensures registers { Registers }
    ensures polls { Polls }
{}

/// A receive that is granted a window or comes to have bytes shows what the record makes of it. So do the parts once a receive is
/// over, whether it took its message, was taken back or is lost.
pub fn receives_law()
    ensures grants { Grants }
    ensures fills { Fills }
    ensures ends { Ends }
    ensures cancels { Cancels }
    ensures loses { Loses }
{}

/// A send that is granted or asked for, or of which an answer went out, shows what the record makes of it. So do the parts once a
/// send is over, whether its receiver ended it or its life is lost.
pub fn sends_law()
    ensures grants { GrantsCome }
    ensures asks { AsksCome }
    ensures answers { AnswersGo }
    ensures ends { SendsEnd }
    ensures lost { SendsLost }
{}

/// What goes out, a packet of a send or an answer, leaves what the record says.
pub fn pushes_law()
    ensures packets { PacketsGo }
    ensures replies { RepliesGo }
{}

/// A receive that is posted and a message that arrives wait, or one takes the other, as the matcher answers; and the receive that
/// takes an early message, and what it makes owed, show what the record makes of the match.
pub fn messages_law()
    ensures posts { Posts }
    ensures takes { Takes }
    ensures arrives { Arrives }
    ensures is_taken { IsTaken }
    ensures meets { Meets }
    ensures owes { Owes }
    ensures hears { Hears }
    ensures adds { Adds }
    ensures enters { EntersAside }
{}

/// A receive and a send that are accepted show what the record makes of them; so does what is known of a life that is met,
/// greeted, or tells of its features.
pub fn lives_law()
    ensures accepts { Accepts }
    ensures begins { Begins }
    ensures knows { Knows }
    ensures greets { Greets }
    ensures passes { Passes }
    ensures learns { Learns }
{}

/// A life that is inserted is current. The one whose place it takes is forgotten, once no live operation concerns it.
pub fn inserts_law()
    ensures inserts { Inserts }
    ensures supersedes { Supersedes }
{}

/// Each operation that was accepted is live, or its completion waits or was polled: before any deed, and after each deed that may be
/// done. So the places of completions that are taken are those that the record's facts count.
pub fn counted_law()
    ensures begins { BeginsCounted }
    ensures stays { StaysCounted }
    ensures tells { TellsCounts }
{}

/// What is owed that gives bytes of a send goes to the life of that send, which is live and owes as many answers: before any deed, and
/// after each deed that may be done. So nothing that is owed gives bytes of a send that owes no answer.
pub fn giving_law()
    ensures begins { BeginsGiving }
    ensures stays { StaysGiving }
    ensures none { OwesNone }
{}

/// The heads of early messages, and of messages that live receives take, are heads that packets carry: before any deed, and after each
/// deed that may be done in which a packet that opens a message carries one.
pub fn fitting_law()
    ensures begins { BeginsFitting }
    ensures stays { StaysFitting }
{}
