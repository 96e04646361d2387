//! A matcher that keeps receives and messages in bins by tag.
#![tactic(auto)]

ghost use Rattle.std.specs.Prelude.{◌≡◌, find, option_map, Some, IfNone};
ghost use Rattle.rdm_lists.specs.Lists.{without_first};
ghost use Rattle.rdm_match.specs.Matcher as Plain;
ghost use Rattle.rdm_match.specs.Kept.{nothing_kept};
ghost use Rattle.rdm_bins.specs.Shelf.{entries_on, values_on, first_passing};
ghost use Rattle.rdm_bins.specs.Shelf as Shelves;
ghost use Rattle.rdm_bins.specs.Calls.{EventsTell, RunsTell, RunsGoOn, CancelsTakeOut, ForgetsLeave, TakenWhereAny, NumbersStayFree};

use rdm_match::{Arrived, ArrivedList, PostedList, PostedRecv, TagMatcher};
use rdm_num::{Life, NoMemory, RecvNo};
use shelf::Shelf;
use std::alloc::Global;
use std::marker::Model;
use waiting::{AcceptedBy, Accepting, ComingFrom, Naming, Numbered};

mod chains;
mod shelf;
#[cfg(test)]
mod tests;
mod waiting;
mod walks;

/// The receives and the messages that wait, each in order. A receive from any source with an exact
/// tag stands in the bin of that tag, each other one in the bin without a tag; a message stands in
/// the bin of its tag. Links chain what waits in a bin, in order. So a receive and a message of one
/// tag meet, and a receive is taken back, in expected time that does not grow with what waits under
/// other tags.
#[derive(Drop)]
pub struct Bins {
    posted: Shelf<PostedRecv>,
    arrived: Shelf<Arrived>,
}

impl Model for Bins {
    ghost use Rattle.rdm_match.specs.Kept.{Kept};
    ghost use Rattle.rdm_bins.specs.Shelf.{values_on};

    ghost Value = { Kept };

    ghost view = { λ b. record { waiting = record { posted = values_on b.posted; arrived = values_on b.arrived }; posts = b.posted.room; arrivals = b.arrived.room } };
}

impl Bins {
    pub fn new(alloc: Global) -> Bins
        ensures { result ≡ nothing_kept }
    {
        Bins {
            posted: Shelf::new(alloc),
            arrived: Shelf::new(alloc),
        }
    }
}

#[tactic(auto, unfolding(rdm_match::specs::Waiting::taken_by, rdm_match::specs::Waiting::taker_of, rdm_match::specs::Waiting::is_posted, rdm_match::specs::Waiting::messages_of, rdm_match::specs::Waiting::receives_naming, rdm_match::specs::Waiting::waiting_after, rdm_match::specs::Waiting::waiting_in, rdm_match::specs::Waiting::with_pairs, rdm_match::specs::Matcher::after, rdm_match::specs::Matcher::after_post, rdm_match::specs::Matcher::after_arrive))]
impl TagMatcher for Bins {
    ghost kept = { λ b. b };

    fn reserve_post(&mut self) -> Result<(), NoMemory> {
        self.posted.reserve()
    }

    fn reserve_arrival(&mut self) -> Result<(), NoMemory> {
        self.arrived.reserve()
    }

    fn post_reserved(&mut self, r: PostedRecv) -> Option<Arrived> {
        let taken = take_message(&mut self.arrived, r);
        match taken {
            None => self.posted.push_reserved(r),
            Some(_message) => self.posted.give_back(),
        }
        taken
    }

    fn arrive_reserved(&mut self, a: Arrived) -> Option<PostedRecv> {
        let taker = take_receive(&mut self.posted, a);
        match taker {
            None => self.arrived.push_reserved(a),
            Some(_receive) => self.arrived.give_back(),
        }
        taker
    }

    fn would_meet(&self, r: &PostedRecv) -> Option<Arrived> {
        first_accepted(&self.arrived, *r)
    }

    fn would_take(&self, a: &Arrived) -> Option<RecvNo> {
        first_taker(&self.posted, *a).map(|receive| receive.id)
    }

    fn cancel(&mut self, id: RecvNo) -> bool {
        take_number(&mut self.posted, id).is_some()
    }

    fn forget_life(&mut self, life: Life) {
        self.arrived.drop_passing(&ComingFrom(life));
        self.posted.drop_passing(&Naming(life));
    }

    fn copy_messages(&self, alloc: Global, life: Life) -> Result<ArrivedList, NoMemory> {
        let messages = self.arrived.passing(alloc, &ComingFrom(life))?;
        Ok(ArrivedList::from_vec(messages))
    }

    fn copy_receives(&self, alloc: Global, life: Life) -> Result<PostedList, NoMemory> {
        let receives = self.posted.passing(alloc, &Naming(life))?;
        Ok(PostedList::from_vec(receives))
    }
}

/// The first message that a receive accepts, with its place. Only those are looked at that have the
/// wanted tag, or that come from the wanted port, where one of both is known.
fn first_message(arrived: &Shelf<Arrived>, r: PostedRecv) -> Option<(usize, Arrived)>
    ensures { result ≡ first_passing (Plain.accepts r) (entries_on arrived.now) }
{
    let accepted = AcceptedBy(r);
    match r.want {
        None => arrived.first_in_bin(None, &accepted),
        Some(want) => {
            if want.ignore == 0 {
                return arrived.first_in_bin(Some(want.tag), &accepted);
            }
            match r.from {
                None => arrived.first(&accepted),
                Some(source) => {
                    let port = u64::from(source.port.0);
                    arrived.first_in_group(Some(port), &accepted)
                }
            }
        }
    }
}

/// The first receive that accepts a message, with its place.
fn first_receive(posted: &Shelf<PostedRecv>, a: Arrived) -> Option<(usize, PostedRecv)>
    ensures { result ≡ first_passing (λ r. Plain.accepts r a) (entries_on posted.now) }
{
    match a.tag {
        None => posted.first_in_bin(None, &Accepting(a)),
        Some(tag) => first_tagged(posted, a, tag),
    }
}

/// The first receive that accepts a tagged message, with its place: the first of the tag's
/// bin or the first of the others that accepts it, whichever came earlier. The others are searched
/// no further than the first of the tag's bin.
fn first_tagged(posted: &Shelf<PostedRecv>, a: Arrived, tag: u64) -> Option<(usize, PostedRecv)>
    requires { a.tag ≡ Some tag }
    ensures { result ≡ first_passing (λ r. Plain.accepts r a) (entries_on posted.now) }
{
    let accepting = Accepting(a);
    let exact = posted.first_in_bin(Some(tag), &accepting);
    let other = posted.first_in_bin_before(None, &accepting, place_of(exact));
    earlier(exact, other)
}

/// The place of a receive that was found.
fn place_of(found: Option<(usize, PostedRecv)>) -> Option<usize>
    ensures { result ≡ option_map (λ e. e.0) found }
{
    match found {
        None => None,
        Some((place, _receive)) => Some(place),
    }
}

/// The first receive of a number, with its place.
fn first_numbered(posted: &Shelf<PostedRecv>, id: RecvNo) -> Option<(usize, PostedRecv)>
    ensures { result ≡ first_passing (Plain.is_recv id.0) (entries_on posted.now) }
{
    posted.first_in_group(Some(id.0), &Numbered(id))
}

/// The one of two receives with the lesser place.
#[tactic(auto, unfolding(crate::specs::Shelf::earlier))]
fn earlier(
    one: Option<(usize, PostedRecv)>,
    other: Option<(usize, PostedRecv)>,
) -> Option<(usize, PostedRecv)>
    ensures { result ≡ Shelves.earlier one other }
{
    match (one, other) {
        (Some(a), Some(b)) => { if b.0 < a.0 { Some(b) } else { Some(a) } }
        (Some(a), None) => Some(a),
        (None, other) => other,
    }
}

/// The first message that a receive accepts.
fn first_accepted(arrived: &Shelf<Arrived>, r: PostedRecv) -> Option<Arrived>
    ensures { result ≡ find (Plain.accepts r) (values_on arrived.now) }
{
    match first_message(arrived, r) {
        None => None,
        Some((_place, message)) => Some(message),
    }
}

/// The first receive that accepts a message.
fn first_taker(posted: &Shelf<PostedRecv>, a: Arrived) -> Option<PostedRecv>
    ensures { result ≡ find (λ r. Plain.accepts r a) (values_on posted.now) }
{
    match first_receive(posted, a) {
        None => None,
        Some((_place, receive)) => Some(receive),
    }
}

/// Takes out the first message that the receive accepts.
fn take_message(arrived: &mut Shelf<Arrived>, r: PostedRecv) -> Option<Arrived>
    ensures answer { result ≡ find (Plain.accepts r) (values_on arrived.old) }
    ensures after { values_on arrived.new ≡ without_first (Plain.accepts r) (values_on arrived.old) }
    ensures none { IfNone result (values_on arrived.new ≡ values_on arrived.old) }
    ensures room { arrived.new.room ≡ arrived.old.room }
{
    let found = first_message(arrived, r);
    arrived.take(found)
}

/// Takes out the first receive that accepts the message.
fn take_receive(posted: &mut Shelf<PostedRecv>, a: Arrived) -> Option<PostedRecv>
    ensures answer { result ≡ find (λ r. Plain.accepts r a) (values_on posted.old) }
    ensures after { values_on posted.new ≡ without_first (λ r. Plain.accepts r a) (values_on posted.old) }
    ensures none { IfNone result (values_on posted.new ≡ values_on posted.old) }
    ensures room { posted.new.room ≡ posted.old.room }
{
    let found = first_receive(posted, a);
    posted.take(found)
}

/// Takes out the receive of that number.
fn take_number(posted: &mut Shelf<PostedRecv>, id: RecvNo) -> Option<PostedRecv>
    ensures answer { result ≡ find (Plain.is_recv id.0) (values_on posted.old) }
    ensures after { values_on posted.new ≡ without_first (Plain.is_recv id.0) (values_on posted.old) }
    ensures room { posted.new.room ≡ posted.old.room }
{
    let found = first_numbered(posted, id);
    posted.take(found)
}

/// What the calls say of what waits and of their answers is what the plain matcher makes of its
/// lists.
pub fn calls_law()
    ensures tell { EventsTell × RunsTell }
    ensures go_on { RunsGoOn }
    ensures cancels { CancelsTakeOut }
    ensures forgets { ForgetsLeave }
    ensures taken { TakenWhereAny }
    ensures free { NumbersStayFree }
{}
