//! The plain matcher: two lists, of receives and of messages that wait for each other.
ghost use Rattle.std.specs.Prelude.{◌≡◌, ◌+◌, ◌≤◌, not, find, filter, IfNone, IfOk};
ghost use Rattle.std.specs.List.{position_from};
ghost use Rattle.std.specs.Vec.{vec_len, vec_capacity};
ghost use Rattle.rdm_lists.specs.Lists.{without_first};
ghost use Rattle.rdm_num.specs.Lives.{same_life, is_life};
ghost use Rattle.rdm_match.specs.Matcher as Plain;
ghost use Rattle.rdm_match.specs.Waiting.{CallsAreThePlainMatcher};
ghost use Rattle.rdm_match.specs.Kept.{nothing_kept};

use crate::{Arrived, ArrivedList, PostedList, PostedRecv, TagMatcher, accepts};
use rdm_num::{Life, NoMemory, RecvNo, is_same_life};
use std::alloc::{AllocError, Global};
use std::marker::Model;

/// The receives and the messages that wait, each in order, and for how many more the two lists have
/// room.
#[derive(Drop)]
pub struct Matcher {
    posted: Vec<PostedRecv>,
    arrived: Vec<Arrived>,
    posts: usize,
    arrivals: usize,
}

impl Model for Matcher {
    ghost use Rattle.std.specs.Prelude.{◌+◌, ◌≤◌};
    ghost use Rattle.std.specs.Vec.{vec_len, vec_capacity};
    ghost use Rattle.rdm_match.specs.Kept.{Kept};

    ghost Value = { Kept };

    ghost view = { λ m. record { waiting = record { posted = m.posted.items; arrived = m.arrived.items }; posts = m.posts; arrivals = m.arrivals } };

    ghost invariant = { λ m. (vec_len m.posted + m.posts ≤ vec_capacity m.posted) × (vec_len m.arrived + m.arrivals ≤ vec_capacity m.arrived) };
}

impl Matcher {
    pub fn new(alloc: Global) -> Matcher
        ensures { result ≡ nothing_kept }
    {
        Matcher {
            posted: Vec::new(alloc),
            arrived: Vec::new(alloc),
            posts: 0,
            arrivals: 0,
        }
    }
}

#[tactic(auto, unfolding(crate::specs::Waiting::taken_by, crate::specs::Waiting::taker_of, crate::specs::Waiting::is_posted, crate::specs::Waiting::messages_of, crate::specs::Waiting::receives_naming, crate::specs::Waiting::waiting_after, crate::specs::Waiting::waiting_in, crate::specs::Waiting::with_pairs, crate::specs::Matcher::after, crate::specs::Matcher::after_post, crate::specs::Matcher::after_arrive))]
impl TagMatcher for Matcher {
    ghost kept = { λ m. m };

    fn reserve_post(&mut self) -> Result<(), NoMemory> {
        self.posts = reserve_one(&mut self.posted, self.posts)?;
        Ok(())
    }

    fn reserve_arrival(&mut self) -> Result<(), NoMemory> {
        self.arrivals = reserve_one(&mut self.arrived, self.arrivals)?;
        Ok(())
    }

    fn post_reserved(&mut self, r: PostedRecv) -> Option<Arrived> {
        self.posts -= 1;
        let taken = take_message(&mut self.arrived, &r);
        if taken.is_none() {
            self.posted.push_reserved(r);
        }
        taken
    }

    fn arrive_reserved(&mut self, a: Arrived) -> Option<PostedRecv> {
        self.arrivals -= 1;
        let taker = take_receive(&mut self.posted, &a);
        if taker.is_none() {
            self.arrived.push_reserved(a);
        }
        taker
    }

    fn would_meet(&self, r: &PostedRecv) -> Option<Arrived> {
        first_accepted(&self.arrived, r)
    }

    fn would_take(&self, a: &Arrived) -> Option<RecvNo> {
        first_taker(&self.posted, a).map(|receive| receive.id)
    }

    fn cancel(&mut self, id: RecvNo) -> bool {
        take_number(&mut self.posted, id).is_some()
    }

    fn forget_life(&mut self, life: Life) {
        drop_messages(&mut self.arrived, life);
        drop_receives(&mut self.posted, life);
    }

    fn copy_messages(&self, alloc: Global, life: Life) -> Result<ArrivedList, NoMemory> {
        Ok(ArrivedList::from_vec(copy_messages(alloc, &self.arrived, life)?))
    }

    fn copy_receives(&self, alloc: Global, life: Life) -> Result<PostedList, NoMemory> {
        Ok(PostedList::from_vec(copy_receives(alloc, &self.posted, life)?))
    }
}

/// Makes room for one element more than there is room for, and gives for how many that is.
fn reserve_one<T>(items: &mut Vec<T>, room: usize) -> Result<usize, NoMemory>
    ensures items { items.new.items ≡ items.old.items }
    ensures len { vec_len items.new ≡ vec_len items.old }
    ensures capacity { vec_capacity items.old ≤ vec_capacity items.new }
    ensures more { IfOk result (λ n. n ≡ room + 1) }
    ensures room { IfOk result (λ n. vec_len items.new + n ≤ vec_capacity items.new) }
{
    let more = room.checked_add(1).ok_or(AllocError)?;
    items.reserve(more)?;
    Ok(more)
}

/// The first message that the receive accepts.
fn first_accepted(arrived: &[Arrived], r: &PostedRecv) -> Option<Arrived>
    ensures { result ≡ find (Plain.accepts r.now) arrived.now }
{
    arrived.iter().find(|a| accepts(r, a)).copied()
}

/// The first receive that accepts the message.
fn first_taker(posted: &[PostedRecv], a: &Arrived) -> Option<PostedRecv>
    ensures { result ≡ find (λ r. Plain.accepts r a.now) posted.now }
{
    posted.iter().find(|r| accepts(r, a)).copied()
}

/// Where the first message stands that the receive accepts.
fn place_of_message(arrived: &[Arrived], r: &PostedRecv) -> Option<usize>
    ensures { result ≡ position_from (Plain.accepts r.now) 0 arrived.now }
{
    arrived.iter().position(|a| accepts(r, a))
}

/// Where the first receive stands that accepts the message.
fn place_of_taker(posted: &[PostedRecv], a: &Arrived) -> Option<usize>
    ensures { result ≡ position_from (λ r. Plain.accepts r a.now) 0 posted.now }
{
    posted.iter().position(|r| accepts(r, a))
}

/// Where the receive of that number stands.
#[tactic(auto, unfolding(crate::specs::Matcher::is_recv))]
fn place_of_number(posted: &[PostedRecv], id: RecvNo) -> Option<usize>
    ensures { result ≡ position_from (Plain.is_recv id.0) 0 posted.now }
{
    posted.iter().position(|r| r.id.0 == id.0)
}

/// Takes out the first message that the receive accepts.
fn take_message(arrived: &mut Vec<Arrived>, r: &PostedRecv) -> Option<Arrived>
    ensures answer { result ≡ find (Plain.accepts r.now) arrived.old.items }
    ensures after { arrived.new.items ≡ without_first (Plain.accepts r.now) arrived.old.items }
    ensures none { IfNone result (arrived.new.items ≡ arrived.old.items) }
    ensures len { vec_len arrived.new ≤ vec_len arrived.old }
    ensures capacity { vec_capacity arrived.new ≡ vec_capacity arrived.old }
{
    let at = place_of_message(arrived, r)?;
    Some(arrived.remove(at))
}

/// Takes out the first receive that accepts the message.
fn take_receive(posted: &mut Vec<PostedRecv>, a: &Arrived) -> Option<PostedRecv>
    ensures answer { result ≡ find (λ r. Plain.accepts r a.now) posted.old.items }
    ensures after { posted.new.items ≡ without_first (λ r. Plain.accepts r a.now) posted.old.items }
    ensures none { IfNone result (posted.new.items ≡ posted.old.items) }
    ensures len { vec_len posted.new ≤ vec_len posted.old }
    ensures capacity { vec_capacity posted.new ≡ vec_capacity posted.old }
{
    let at = place_of_taker(posted, a)?;
    Some(posted.remove(at))
}

/// Takes out the receive of that number.
fn take_number(posted: &mut Vec<PostedRecv>, id: RecvNo) -> Option<PostedRecv>
    ensures answer { result ≡ find (Plain.is_recv id.0) posted.old.items }
    ensures after { posted.new.items ≡ without_first (Plain.is_recv id.0) posted.old.items }
    ensures len { vec_len posted.new ≤ vec_len posted.old }
    ensures capacity { vec_capacity posted.new ≡ vec_capacity posted.old }
{
    let at = place_of_number(posted, id)?;
    Some(posted.remove(at))
}

/// The receive names that life.
#[tactic(auto, unfolding(rdm_num::specs::Lives::is_life))]
fn names(r: &PostedRecv, life: Life) -> bool
    ensures { result ≡ is_life r.now.from life }
{
    match r.from {
        None => false,
        Some(from) => is_same_life(from, life),
    }
}

/// Copies the messages of a life, in order.
fn copy_messages(alloc: Global, arrived: &[Arrived], life: Life) -> Result<Vec<Arrived>, NoMemory>
    ensures { IfOk result (λ v. v.items ≡ filter (λ a. same_life a.life life) arrived.now) }
{
    arrived
        .iter()
        .copied()
        .filter(|a| is_same_life(a.life, life))
        .collect(alloc)
}

/// Copies the receives that name a life, in order.
fn copy_receives(
    alloc: Global,
    posted: &[PostedRecv],
    life: Life,
) -> Result<Vec<PostedRecv>, NoMemory>
    ensures { IfOk result (λ v. v.items ≡ filter (λ r. is_life r.from life) posted.now) }
{
    posted
        .iter()
        .copied()
        .filter(|r| names(r, life))
        .collect(alloc)
}

/// Takes out the messages of a life.
fn drop_messages(arrived: &mut Vec<Arrived>, life: Life)
    ensures after { arrived.new.items ≡ filter (λ a. not (same_life a.life life)) arrived.old.items }
    ensures len { vec_len arrived.new ≤ vec_len arrived.old }
    ensures capacity { vec_capacity arrived.new ≡ vec_capacity arrived.old }
{
    arrived.retain(|a| !is_same_life(a.life, life));
}

/// Takes out the receives that name a life.
fn drop_receives(posted: &mut Vec<PostedRecv>, life: Life)
    ensures after { posted.new.items ≡ filter (λ r. not (is_life r.from life)) posted.old.items }
    ensures len { vec_len posted.new ≤ vec_len posted.old }
    ensures capacity { vec_capacity posted.new ≡ vec_capacity posted.old }
{
    posted.retain(|r| !names(r, life));
}

/// Over any calls, what waits and the pairs that the answers tell are the plain matcher's.
pub fn matcher_law()
    ensures { CallsAreThePlainMatcher }
{}
