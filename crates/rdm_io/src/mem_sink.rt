ghost use Rattle.std.specs.Prelude.{◌≡◌, ◌↔◌, ◌⊎◌, ◌<◌, ◌≤◌, ◌++◌, Some, [], min, length, take, drop, IfOk, IsErr, OnErr, Contains};
ghost use Rattle.std.specs.Io.KnownBytes.{WriteAppends};
ghost use Rattle.rdm_io.specs.Faults.{HasCause};
ghost use Rattle.rdm_io.specs.Memory.{SinkFails, sink_moves, sink_after, sink_failed};

use crate::stream::{Failed, NoMemory, Sink};
use std::alloc::Global;
use std::marker::Model;

/// A sink in memory. It holds at most `room` bytes, takes at most `step` of them at a call, and the
/// calls whose numbers are in `fails`, counted from 0, fail.
#[derive(Drop)]
pub struct MemSink {
    given: Vec<u8>,
    room: usize,
    step: usize,
    fails: Vec<u64>,
    calls: u64,
    faults: u64,
}

impl Model for MemSink {
    ghost use Rattle.std.specs.Prelude.{◌≤◌, vec_len, vec_capacity};
    ghost use Rattle.rdm_io.specs.Memory.{SinkState};

    ghost Value = { SinkState };

    ghost view = { λ s. record { given = s.given.items; room = s.room; step = s.step; fails = s.fails.items; calls = s.calls; faults = s.faults } };

    ghost invariant = { λ s. (vec_len s.given ≤ s.room) × (s.room ≤ vec_capacity s.given) × (1 ≤ s.step) };
}

impl MemSink {
    /// Takes all the memory that the sink will need.
    pub fn new(
        alloc: Global,
        room: usize,
        step: usize,
        fails: Vec<u64>,
    ) -> Result<MemSink, NoMemory>
        requires { 1 ≤ step }
        ensures { IfOk result (λ s. s ≡ record { given = []; room = room; step = step; fails = fails.items; calls = 0; faults = 0 }) }
    {
        let given = Vec::with_capacity(alloc, room)?;
        Ok(MemSink {
            given,
            room,
            step,
            fails,
            calls: 0,
            faults: 0,
        })
    }

    /// What was given.
    pub fn given(&self) -> &[u8]
        ensures { result.now ≡ self.now.given }
    {
        self.given.as_slice()
    }
}

impl Sink for MemSink {
    ghost given = { λ s. Some s.given };

    ghost faults = { λ s. s.faults };

    fn write(&mut self, piece: &[u8]) -> Result<usize, Failed>
        requires { 0 < length piece.now }
        ensures some { IfOk result (λ n. 1 ≤ n) }
        ensures bound { IfOk result (λ n. n ≤ length piece.now) }
        ensures bytes { WriteAppends (Some self.old.given) (Some self.new.given) result piece.now }
        ensures cause { HasCause self.old.faults self.new.faults result }
        // A call fails exactly where its number is in the list, or where the sink is full.
        ensures fails { IsErr result ↔ SinkFails self.old }
        ensures moves { IfOk result (λ n. n ≡ sink_moves self.old (length piece.now)) }
        ensures after { IfOk result (λ n. self.new ≡ sink_after self.old (take n piece.now)) }
        ensures failed { OnErr result (self.new ≡ sink_failed self.old) }
    {
        let number = self.calls;
        self.calls = number.saturating_add(1);
        let full = self.given.len() == self.room;
        if full || self.fails.contains(&number) {
            self.faults = self.faults.saturating_add(1);
            return Err(Failed);
        }
        let count = self.step.min(piece.len()).min(self.room - self.given.len());
        match self.given.extend_from_slice(&piece[..count]) {
            Ok(()) => Ok(count),
            Err(_) => unreachable!(),
        }
    }
}
