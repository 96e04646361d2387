//! Which message numbers of a sending life were heard.
ghost use Rattle.std.specs.Prelude.{◌≡◌, ◌+◌, ◌<◌, IfOk, OnOk, OnErr};
ghost use Rattle.rdm_window.specs.Window.{none_heard, state_of, after_hear, with_room, with_spent, IsLeastMissing, NextIsTold};

use crate::ring::Ring;
use rdm_num::{MsgNo, NoMemory};
use std::alloc::Global;
use std::marker::Model;

/// What a message number is to a window.
#[derive(Clone, Copy, Debug, PartialEq, Eq)]
pub enum Heard {
    /// It was not heard.
    New,
    /// It was heard, and a number before it was not.
    Waiting,
    /// It and all numbers before it were heard.
    Entered,
}

/// The heard numbers of the messages from one life. All numbers from `first` on that are below the
/// ring were heard, and those that are marked in it.
#[derive(Drop)]
pub struct Window {
    /// No call reads it; it tells which numbers below the ring were heard.
    first: u32,
    ring: Ring,
}

impl Model for Window {
    ghost use Rattle.rdm_window.specs.Window.{Hearing, hearing_code};
    ghost use Rattle.rdm_window.specs.HeardFlags.{heard_of, IsWindow};

    ghost Value = { Hearing };

    ghost coded = { hearing_code };

    ghost view = { λ w. record { first = w.first; heard = heard_of w.first w.ring; next = w.ring.next; room = w.ring.room } };

    ghost invariant = { λ w. IsWindow w.first w.ring };
}

impl Window {
    /// No number is heard, and the messages are numbered from `first` on.
    pub fn new(alloc: Global, first: u32) -> Window
        ensures start { result ≡ none_heard first }
        ensures least { IsLeastMissing result }
    {
        Window {
            first,
            ring: Ring::new(alloc, first),
        }
    }

    /// What a number is: entered below the least number that was not heard, waiting where it was heard,
    /// else new.
    #[tactic(auto, unfolding(crate::specs::Window::state_of))]
    pub fn state(&self, no: MsgNo) -> Heard
        ensures answer { result ≡ state_of self.now no.0 }
        ensures least { IsLeastMissing self.now }
    {
        if u64::from(no.0) < self.ring.next_number() {
            Heard::Entered
        } else if self.ring.has(no.0) {
            Heard::Waiting
        } else {
            Heard::New
        }
    }

    /// The least number that was not heard.
    pub fn next_number(&self) -> u64
        ensures answer { result ≡ self.now.next }
        ensures least { IsLeastMissing self.now }
    {
        self.ring.next_number()
    }

    /// Makes room for one more number to be heard without memory.
    pub fn reserve(&mut self) -> Result<(), NoMemory>
        ensures ok { OnOk result (self.new ≡ with_room self.old) }
        ensures err { OnErr result (self.new ≡ self.old) }
        ensures least { IsLeastMissing self.new }
    {
        self.ring.reserve()
    }

    /// Gives a reservation back.
    pub fn give_back(&mut self)
        requires { 0 < self.old.room }
        ensures after { self.new ≡ with_spent self.old }
        ensures least { IsLeastMissing self.new }
    {
        self.ring.give_back();
    }

    /// Hears a number, and tells by how much the least number that was not heard rose.
    pub fn hear(&mut self, no: MsgNo) -> Result<u64, NoMemory>
        requires { state_of self.old no.0 ≡ Heard.New }
        ensures ok { IfOk result (λ risen. self.new ≡ after_hear self.old no.0 risen) }
        ensures err { OnErr result (self.new ≡ self.old) }
        ensures least { IsLeastMissing self.new }
    {
        self.reserve()?;
        Ok(self.hear_reserved(no))
    }

    /// Hears a number, and tells by how much the least number that was not heard rose. It wants no
    /// memory, and spends one reservation.
    pub fn hear_reserved(&mut self, no: MsgNo) -> u64
        requires state { state_of self.old no.0 ≡ Heard.New }
        requires room { 0 < self.old.room }
        ensures after { self.new ≡ with_spent (after_hear self.old no.0 result) }
        ensures least { IsLeastMissing self.new }
    {
        self.ring.mark_reserved(no.0);
        self.ring.advance()
    }
}

/// Two windows with the same first and the same heard numbers have the same least missing number.
pub fn next_is_told()
    ensures { NextIsTold }
{}
