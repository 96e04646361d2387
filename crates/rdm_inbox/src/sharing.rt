//! How the passes of all ports are dealt out, and gathered again.
ghost use Rattle.std.specs.Prelude.{◌≡◌, ◌<◌, ◌≤◌, ◌-◌, ℕ, ◌++◌, [], Some, length, map, slice_get, vec_len, vec_capacity, IfOk};
ghost use Rattle.rdm_inbox.specs.Letters.{but_last};
ghost use Rattle.rdm_inbox.specs.Queues.{PassesState, with_reader, AreGathered, AreAllPasses};
ghost use Rattle.rdm_inbox.specs.Sharing.{AreNamed, KnowSome, parted, AreRows, AreDealt, AreNext, with_next, AreCollected, AreSettled, AreWhole, AreLeft};

use crate::inbox::SendPass;
use crate::passes::PortPasses;
use crate::queues::Queues;
use rdm_num::NoMemory;
use std::alloc::Global;

/// A row for each port, with room for a pass for each inbox.
pub(crate) fn empty_rows(alloc: Global, ports: usize) -> Result<Vec<Vec<SendPass>>, NoMemory>
    ensures { IfOk result (λ rows. AreRows ports rows.items × (vec_len rows ≡ ports)) }
{
    let mut rows = Vec::with_capacity(alloc, ports)?;
    for _port in 0..ports {
        rows.push_reserved(Vec::with_capacity(alloc, ports)?);
    }
    Ok(rows)
}

impl Queues {
    /// In each inbox the last sender that the reader's pass has gets a pass of its own.
    fn part_row(&self, all: &mut [PortPasses], row: &mut Vec<SendPass>)
        requires named { AreNamed self.now.tables all.old }
        requires some { KnowSome all.old }
        requires room { (row.old.items ≡ []) × (length all.old ≤ vec_capacity row.old) }
        ensures left { (port : ℕ) (v : PassesState) → slice_get all.old port ≡ Some v → slice_get all.new port ≡ Some (with_reader but_last v) }
        ensures row { row.new.items ≡ map parted all.old }
    {
        for port in 0..all.len() {
            let pass = all[port].part(self.inbox(port));
            row.push_reserved(pass);
        }
    }

    /// Each port gets the passes by which it sends.
    pub(crate) fn deal(&self, all: &mut [PortPasses], mut rows: Vec<Vec<SendPass>>)
        requires gathered { AreGathered self.now.tables all.old }
        requires rows { AreRows (length all.old) rows.items × (vec_len rows ≡ length all.old) }
        ensures { AreDealt all.old 0 all.new }
    {
        while let Some(mut row) = rows.pop() {
            let port = rows.len();
            self.part_row(all, &mut row);
            all[port].give(row);
        }
    }

    /// In each inbox the reader's pass takes in the next sender.
    fn join_row(&self, all: &mut [PortPasses], mut row: Vec<SendPass>)
        requires named { AreNamed self.now.tables all.old }
        requires next { AreNext all.old row.items }
        ensures { (port : ℕ) (v : PassesState) → slice_get all.old port ≡ Some v → slice_get all.new port ≡ Some (with_next (slice_get row.items port) v) }
    {
        while let Some(pass) = row.pop() {
            let port = row.len();
            all[port].join(self.inbox(port), pass);
        }
    }

    /// The readers' passes take in all senders.
    fn collect(&self, all: &mut [PortPasses])
        requires { AreAllPasses self.now.tables all.old }
        ensures { AreCollected all.old (length all.old) all.new }
    {
        for port in 0..all.len() {
            let row = all[port].take();
            self.join_row(all, row);
        }
    }

    /// The readers' passes, which have all senders, forget what was taken, and know what is left.
    fn settle(&self, all: &mut [PortPasses])
        requires named { AreNamed self.now.tables all.old }
        requires whole { AreWhole all.old }
        ensures { AreSettled all.old (length all.old) all.new }
    {
        for port in 0..all.len() {
            all[port].settle(self.inbox(port));
        }
    }

    /// The readers' passes take in all senders, and know what is left of what they sent.
    pub(crate) fn gather(&self, all: &mut [PortPasses])
        requires { AreAllPasses self.now.tables all.old }
        ensures gathered { AreGathered self.now.tables all.new }
        ensures left { AreLeft all.old all.new }
    {
        self.collect(all);
        self.settle(all);
    }
}
