ghost use Rattle.std.specs.Prelude.{◌≡◌, ◌↔◌, ◌<◌, ◌≤◌, ◌++◌, min, length, take, drop, IfOk, IsErr, OnErr};
ghost use Rattle.std.specs.Io.{ReadsAtMost};
ghost use Rattle.std.specs.Io.KnownBytes.{ReadConsumes};
ghost use Rattle.rdm_io.specs.Faults.{HasCause};
ghost use Rattle.rdm_io.specs.Memory.{SourceFails, source_moves, source_after, source_failed};

use crate::stream::{Failed, Source};
use std::marker::Model;

/// A source in memory. It gives at most `step` bytes at a call, and the calls whose numbers are in
/// `fails`, counted from 0, fail.
#[derive(Drop)]
pub struct MemSource {
    content: Vec<u8>,
    at: usize,
    step: usize,
    fails: Vec<u64>,
    calls: u64,
    faults: u64,
}

impl Model for MemSource {
    ghost use Rattle.std.specs.Prelude.{◌≤◌, length, drop, vec_len};
    ghost use Rattle.rdm_io.specs.Memory.{SourceState};

    ghost Value = { SourceState };

    ghost view = { λ s. record { left = drop s.at s.content.items; step = s.step; fails = s.fails.items; calls = s.calls; faults = s.faults } };

    ghost invariant = { λ s. (s.at ≤ vec_len s.content) × (1 ≤ s.step) };
}

impl MemSource {
    pub fn new(content: Vec<u8>, step: usize, fails: Vec<u64>) -> MemSource
        requires { 1 ≤ step }
        ensures { result ≡ record { left = content.items; step = step; fails = fails.items; calls = 0; faults = 0 } }
    {
        MemSource {
            content,
            at: 0,
            step,
            fails,
            calls: 0,
            faults: 0,
        }
    }
}

impl Source for MemSource {
    ghost use Rattle.std.specs.Prelude.{Some};

    ghost left = { λ s. Some s.left };

    ghost faults = { λ s. s.faults };

    fn read(&mut self, room: &mut [u8]) -> Result<usize, Failed>
        requires { 0 < length room.old }
        ensures bound { ReadsAtMost result room.new }
        ensures bytes { ReadConsumes (Some self.old.left) (Some self.new.left) result room.new }
        ensures cause { HasCause self.old.faults self.new.faults result }
        // A call fails exactly where its number is in the list.
        ensures fails { IsErr result ↔ SourceFails self.old }
        ensures moves { IfOk result (λ n. n ≡ source_moves self.old (length room.old)) }
        ensures after { IfOk result (λ n. self.new ≡ source_after self.old n) }
        ensures failed { OnErr result (self.new ≡ source_failed self.old) }
    {
        let number = self.calls;
        self.calls = number.saturating_add(1);
        if self.fails.contains(&number) {
            self.faults = self.faults.saturating_add(1);
            return Err(Failed);
        }
        let count = copy_front(&self.content[self.at..], room, self.step);
        self.at += count;
        Ok(count)
    }
}

/// Copies from the front of `from` to that of `to`, at most `step` bytes.
fn copy_front(from: &[u8], to: &mut [u8], step: usize) -> usize
    ensures count { result ≡ min step (min (length to.old) (length from.now)) }
    ensures front { take result to.new ≡ take result from.now }
{
    let count = step.min(to.len()).min(from.len());
    to[..count].copy_from_slice(&from[..count]);
    count
}
