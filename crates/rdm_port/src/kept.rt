//! What a port keeps beside its log and its stash.
ghost use Rattle.std.specs.Prelude.{◌≡◌, ◌+◌, ◌-◌, [], IfSome};
ghost use Rattle.rdm_port.specs.Kept.{new_kept, places_of};

use rdm_ep::Endpoint;
use rdm_num::{Life, PortNo};
use rdm_wire::NoteBody;
use std::alloc::Global;
use std::marker::Model;

/// A note that is to be pushed.
#[derive(Clone, Copy, Debug, PartialEq, Eq)]
pub struct QueuedNote {
    pub to: PortNo,
    pub body: NoteBody,
}

/// A word that a port was told.
#[derive(Clone, Copy, Debug, PartialEq, Eq)]
pub struct Told {
    pub from: PortNo,
    pub what: u64,
}

/// What a port keeps beside its log and its stash. It must be spent.
pub struct State {
    pub done: u64,
    pub clock: u64,
    pub pushed: u64,
    pub notes: Vec<QueuedNote>,
    pub opened: Vec<Life>,
    pub told: Vec<Told>,
    pub endpoint: Option<Endpoint>,
    pub to_other: u64,
    pub from_other: u64,
}

impl Model for State {
    ghost use Rattle.rdm_port.specs.Kept.{Kept};

    ghost Value = { Kept };

    ghost view = { λ s. record {
      done = s.done;
      clock = s.clock;
      pushed = s.pushed;
      notes = s.notes.items;
      opened = s.opened.items;
      told = s.told.items;
      endpoint = s.endpoint;
      to_other = s.to_other;
      from_other = s.from_other;
    } };
}

impl State {
    /// Before any step, where the clock shows that.
    pub fn new(alloc: Global, clock: u64) -> State
        ensures { result ≡ new_kept clock }
    {
        State {
            done: 0,
            clock,
            pushed: 0,
            notes: Vec::new(alloc),
            opened: Vec::new(alloc),
            told: Vec::new(alloc),
            endpoint: None,
            to_other: 0,
            from_other: 0,
        }
    }

    /// Ends the endpoint, if there is one.
    pub fn end(self) {
        let State {
            done: _,
            clock: _,
            pushed: _,
            notes: _,
            opened: _,
            told: _,
            endpoint,
            to_other: _,
            from_other: _,
        } = self;
        if let Some(endpoint) = endpoint {
            endpoint.close();
        }
    }

    /// How many completions may still come or wait.
    #[tactic(auto, unfolding(crate::specs::Kept::places_of))]
    pub fn outstanding(&self) -> usize
        ensures { result ≡ places_of self.now.endpoint }
    {
        match &self.endpoint {
            None => 0,
            Some(endpoint) => endpoint.outstanding(),
        }
    }

    /// How many entries may still come that must not want memory, and one more, where the program
    /// has so many instructions.
    pub fn entries_and_one(&self, all: usize) -> Option<usize>
        ensures { IfSome result (λ n. n ≡ places_of self.now.endpoint + (all - self.now.done) + 1) }
    {
        let left = (all as u64).saturating_sub(self.done) as usize;
        self.outstanding().checked_add(left)?.checked_add(1)
    }
}
