//! Answers that an endpoint owes to other lives, first in first out, in room that was kept for them.
#![tactic(auto)]

ghost use Rattle.std.specs.Prelude.{◌≡◌, ◌<◌, ◌≤◌, not, filter, slice_get, OnOk, OnErr};
ghost use Rattle.std.specs.Option.{option_copied};
ghost use Rattle.std.specs.VecDeque.{deque_len, deque_capacity};
ghost use Rattle.rdm_num.specs.Lives.{same_life};
ghost use Rattle.rdm_owed.specs.Owing.{nothing_owed, with_room, with_rooms, without_room, without_rooms, with_answer, first_left, with_first, without_first, without_life};

use rdm_num::{Life, NoMemory, is_same_life};
use std::alloc::{AllocError, Global};
use std::collections::VecDeque;
use std::marker::Model;

#[cfg(test)]
mod tests;

/// An answer, and the life that it is owed to.
#[derive(Clone, Copy, Debug, PartialEq, Eq)]
pub struct Owed<T> {
    pub to: Life,
    pub answer: T,
}

/// The answers that are owed, in the order in which they came to be. One answer may stand for
/// several datagrams, as for the asks of a read that are left.
#[derive(Drop)]
pub struct Answers<T> {
    queue: VecDeque<Owed<T>>,
    room: usize,
}

impl<T> Model for Answers<T> {
    ghost use Rattle.std.specs.Prelude.{◌≤◌, ◌+◌};
    ghost use Rattle.std.specs.VecDeque.{deque_len, deque_capacity};
    ghost use Rattle.rdm_owed.specs.Owing.{Owing};

    ghost Value = { Owing T };

    ghost view = { λ a. record { owed = a.queue.items; room = a.room } };

    ghost invariant = { λ a. deque_len a.queue + a.room ≤ deque_capacity a.queue };
}

impl<T: Copy> Answers<T> {
    pub fn new(alloc: Global) -> Answers<T>
        ensures { result ≡ nothing_owed }
    {
        Answers {
            queue: VecDeque::new(alloc),
            room: 0,
        }
    }

    /// Makes room for one answer more.
    pub fn reserve(&mut self) -> Result<(), NoMemory>
        ensures ok { OnOk result (self.new ≡ with_room self.old) }
        ensures err { OnErr result (self.new ≡ self.old) }
    {
        self.reserve_many(1)
    }

    /// Makes room for so many answers more, or for none.
    pub fn reserve_many(&mut self, more: usize) -> Result<(), NoMemory>
        ensures ok { OnOk result (self.new ≡ with_rooms self.old more) }
        ensures err { OnErr result (self.new ≡ self.old) }
    {
        let room = self.room.checked_add(more).ok_or(AllocError)?;
        self.queue.reserve(room)?;
        self.room = room;
        Ok(())
    }

    /// Gives the room for one answer back.
    pub fn give_back(&mut self)
        requires { 0 < self.old.room }
        ensures { self.new ≡ without_room self.old }
    {
        self.room -= 1;
    }

    /// Gives the room for so many answers back.
    pub fn give_back_many(&mut self, count: usize)
        requires { count ≤ self.old.room }
        ensures { self.new ≡ without_rooms self.old count }
    {
        self.room -= count;
    }

    /// Owes an answer, after the others, in room that was made.
    pub fn push(&mut self, to: Life, answer: T)
        requires { 0 < self.old.room }
        ensures { self.new ≡ with_answer self.old to answer }
    {
        self.queue.push_back_reserved(Owed { to, answer });
        self.room -= 1;
    }

    /// The answer that goes out first.
    pub fn first(&self) -> Option<&Owed<T>>
        ensures { option_copied result ≡ slice_get self.now.owed 0 }
    {
        self.queue.front()
    }

    /// Puts what is left of the first answer in its place, if there is one.
    pub fn replace_first(&mut self, answer: T)
        ensures { self.new ≡ with_first self.old answer }
    {
        put_first(&mut self.queue, answer);
    }

    /// Takes the first answer out.
    pub fn pop(&mut self) -> Option<Owed<T>>
        ensures answer { result ≡ slice_get self.old.owed 0 }
        ensures after { self.new ≡ without_first self.old }
    {
        self.queue.pop_front()
    }

    /// Nothing is owed to the life any more.
    pub fn forget(&mut self, life: Life)
        ensures { self.new ≡ without_life self.old life }
    {
        drop_answers(&mut self.queue, life);
    }
}

/// Puts what is left of the first answer in its place.
fn put_first<T: Copy>(queue: &mut VecDeque<Owed<T>>, answer: T)
    ensures items { queue.new.items ≡ first_left queue.old.items answer }
    ensures len { deque_len queue.new ≡ deque_len queue.old }
    ensures capacity { deque_capacity queue.new ≡ deque_capacity queue.old }
{
    match queue.pop_front() {
        None => (),
        Some(first) => queue.push_front_reserved(Owed {
            to: first.to,
            answer,
        }),
    }
}

/// Takes out the answers to a life.
fn drop_answers<T: Copy>(queue: &mut VecDeque<Owed<T>>, life: Life)
    ensures items { queue.new.items ≡ filter (λ a. not (same_life a.to life)) queue.old.items }
    ensures bound { deque_len queue.new ≤ deque_len queue.old }
    ensures capacity { deque_capacity queue.new ≡ deque_capacity queue.old }
{
    queue.retain(|owed| !is_same_life(owed.to, life));
}
