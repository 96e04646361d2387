//! What was asked for of a send that its receiver reads.
ghost use Rattle.std.specs.Prelude.{◌≡◌, ◌-◌, ◌≤◌, ◌<◌, ◌↔◌, IsTrue, IfOk, OnOk, OnErr};
ghost use Rattle.rdm_model.specs.Targets.{is_in_entry, is_in_iov};
ghost use Rattle.rdm_tx.specs.Asks.{MayAsk, all_unasked, with_ask, with_reserved_ask, with_room, with_answer, ends_early};

use rdm_gaps::Gaps;
use rdm_num::{Iov, IovEntry, NoMemory};
use rdm_wire::ReadAsk;
use std::alloc::Global;
use std::marker::Model;

/// The asks that came for one send, which its receiver reads from a byte of the message on, and the
/// answers to them that were not pushed.
#[derive(Debug, Drop)]
pub struct Asked {
    from: u64,
    iov: Iov,
    /// The places that were not asked for, counted from `from` on.
    unasked: Gaps,
    owed: u64,
}

impl Model for Asked {
    ghost use Rattle.rdm_tx.specs.Asks.{Asks};

    ghost Value = { Asks };

    ghost use Rattle.rdm_tx.specs.Inside.{IsAsked};

    ghost view = { λ a. record { from = a.from; iov = a.iov; unasked = a.unasked; owes = a.owed } };

    ghost invariant = { IsAsked };
}

impl Asked {
    /// Nothing was asked for yet of a message of so many bytes, which is read from that byte on, by
    /// that read list.
    pub fn new(alloc: Global, from: u64, length: u64, iov: Iov) -> Result<Asked, NoMemory>
        requires { from ≤ length }
        ensures { IfOk result (λ asked. asked ≡ all_unasked from length iov) }
    {
        Ok(Asked {
            from,
            iov,
            unasked: Gaps::whole(alloc, length - from)?,
            owed: 0,
        })
    }

    /// Whether the ask is for bytes that are to be read and were not asked for, at a place where one
    /// range of the read list has them all. An ask for which it is not is an error of its sender.
    pub fn may_ask(&self, ask: &ReadAsk) -> bool
        ensures { IsTrue result ↔ MayAsk self.now ask.now }
    {
        let Some(into) = ask.at.checked_sub(self.from) else {
            return false;
        };
        let unasked = self.unasked.missing_from(into);
        if ask.length == 0 || unasked < ask.length {
            return false;
        }
        is_in_ranges(self.iov.as_slice(), ask)
    }

    /// The bytes are asked for, and one more answer is owed.
    pub fn ask(&mut self, ask: &ReadAsk) -> Result<(), NoMemory>
        requires { MayAsk self.old ask.now }
        ensures ok { OnOk result (self.new ≡ with_ask self.old ask.now) }
        ensures err { OnErr result (self.new ≡ self.old) }
    {
        self.unasked.take(ask.at - self.from, ask.length)?;
        self.owed += 1;
        Ok(())
    }

    /// For how many asks there is room that was made.
    pub fn room(&self) -> u64
        ensures { result ≡ self.now.unasked.spare }
    {
        self.unasked.spare()
    }

    /// Makes room for one ask, where there is none.
    pub fn reserve_ask(&mut self) -> Result<(), NoMemory>
        ensures ok { OnOk result (self.new ≡ with_room self.old) }
        ensures err { OnErr result (self.new ≡ self.old) }
    {
        self.unasked.reserve(1)
    }

    /// The same as `ask`, in room that was made.
    pub fn ask_reserved(&mut self, ask: &ReadAsk)
        requires may { MayAsk self.old ask.now }
        requires room { 0 < self.old.unasked.spare }
        ensures { self.new ≡ with_reserved_ask self.old ask.now }
    {
        self.unasked.take_reserved(ask.at - self.from, ask.length);
        self.owed += 1;
    }

    /// How many answers were not pushed.
    pub fn owes(&self) -> u64
        ensures { result ≡ self.now.owes }
    {
        self.owed
    }

    /// An answer was pushed.
    pub fn answer(&mut self)
        requires { 0 < self.old.owes }
        ensures { self.new ≡ with_answer self.old }
    {
        self.owed -= 1;
    }

    /// Whether an end of the read would come early: some byte was not asked for, or some answer was
    /// not pushed.
    pub fn is_early_end(&self) -> bool
        ensures { result ≡ ends_early self.now }
    {
        !self.unasked.is_empty() || self.owed > 0
    }
}

/// One of the ranges has the bytes, where the ask says.
fn is_in_ranges(ranges: &[IovEntry], ask: &ReadAsk) -> bool
    ensures { result ≡ is_in_iov ask.now 0 ranges.now }
{
    let mut into = ask.at;
    for range in ranges {
        if is_in_range(range, into, ask) {
            return true;
        }
        if into < range.length {
            return false;
        }
        into -= range.length;
    }
    false
}

/// The range has the bytes, where the ask says, if the first of them lies so far into it.
#[tactic(auto, using(std::proofs::lemmas::Bool::Decides::nat_tests), unfolding(rdm_model::specs::Targets::is_in_entry))]
fn is_in_range(range: &IovEntry, into: u64, ask: &ReadAsk) -> bool
    requires { into ≤ ask.now.at }
    ensures { result ≡ is_in_entry ask.now (ask.now.at - into) range.now }
{
    let Some(room) = range.length.checked_sub(into) else {
        return false;
    };
    let Some(skipped) = ask.offset.checked_sub(range.offset) else {
        return false;
    };
    ask.length <= room && ask.key == range.key && skipped == into
}
