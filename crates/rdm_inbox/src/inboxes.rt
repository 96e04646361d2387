//! Queues of which all is known.
ghost use Rattle.std.specs.Prelude.{◌≡◌, ◌<◌, ◌≤◌, true, false, [], ◌∷◌, Some, length, nat_lt, option_map, IfOk, OnOk, OnErr, IfErr, IfSome, IfNone, MatchResult, MatchOption};
ghost use Rattle.rdm_wire.specs.Counts.{Rose};
ghost use Rattle.rdm_wire.specs.Accounts.{after_push, after_fetches};
ghost use Rattle.rdm_wire.specs.Flights.{Pushes, Fetches, Moves, IsFullAt, HasRoomAt, IsEmptyAt, HasSize};
ghost use Rattle.rdm_inbox.specs.Sharing.{AreOpened, AreClosed};
ghost use Rattle.rdm_inbox.specs.Queues.{AreNew, AreGathered, AreAllPasses, seen_by, flight_of, serves_all, no_account, after_put, after_taken_out, after_full_inbox, after_empty_inbox};

use crate::inbox::Inbox;
use crate::passes::PortPasses;
use crate::queues::Queues;
use crate::sharing::empty_rows;
use rdm_num::{NoMemory, PortNo};
use rdm_wire::{Datagram, Wire};
use std::alloc::Global;
use std::marker::Model;
use std::sync::Wait;

/// One queue for each port, and what is in flight in it: for each sender a list in order. It is a
/// wire that serves all ports.
#[derive(Drop)]
pub struct Inboxes<'r, R: Wait> {
    rt: &'r R,
    queues: Queues,
    all: Vec<PortPasses>,
}

impl<'r, R: Wait> Model for Inboxes<'r, R> {
    ghost use Rattle.rdm_inbox.specs.Queues.{InboxesState, seen_by, AreGathered};

    ghost Value = { InboxesState };

    ghost view = { λ w. seen_by w.queues w.all.items };

    ghost invariant = { λ w. AreGathered w.queues.tables w.all.items };
}

impl<'r, R: Wait> Inboxes<'r, R> {
    /// Empty inboxes of so many ports, each with places for `size` datagrams.
    pub fn new(rt: &'r R, alloc: Global, ports: u32, size: u32) -> Result<Inboxes<'r, R>, NoMemory>
        requires { 1 ≤ size }
        ensures { IfOk result (AreNew ports size) }
    {
        let mut inboxes = Vec::with_capacity(alloc, ports as usize)?;
        let mut all = Vec::with_capacity(alloc, ports as usize)?;
        for port in 0..ports {
            let (inbox, reader) = Inbox::new(alloc, port, ports, size as usize)?;
            inboxes.push_reserved(inbox);
            all.push_reserved(PortPasses::whole(PortNo(port), Vec::new(alloc), reader));
        }
        Ok(Inboxes {
            rt,
            queues: Queues::new(inboxes, size as usize),
            all,
        })
    }
}

impl<'r, R: Wait> Inboxes<'r, R> {
    /// Deals out the passes, so that each port has its own. All memory is taken first.
    pub fn open(self, alloc: Global) -> Result<(Queues, Vec<PortPasses>), Inboxes<'r, R>>
        ensures ok { IfOk result (λ o. AreOpened self.entry o.0 o.1.items) }
        ensures err { IfErr result (λ w. w ≡ self.entry) }
    {
        let Ok(rows) = empty_rows(alloc, self.all.len()) else {
            return Err(self);
        };
        let Inboxes {
            rt: _,
            queues,
            mut all,
        } = self;
        queues.deal(all.as_mut_slice(), rows);
        Ok((queues, all))
    }
}

impl Queues {
    /// Takes back the passes of all ports, and knows what is in flight. It takes no memory.
    pub fn close<'r, R: Wait>(self, rt: &'r R, mut all: Vec<PortPasses>) -> Inboxes<'r, R>
        requires { AreAllPasses self.tables all.items }
        ensures { AreClosed self all.items result }
    {
        self.gather(all.as_mut_slice());
        Inboxes {
            rt,
            queues: self,
            all,
        }
    }
}

impl<'r, R: Wait> Wire for Inboxes<'r, R> {
    ghost use Rattle.std.specs.Prelude.{[], Some, false, length};
    ghost use Rattle.std.proofs.Common.{ap};
    ghost use Rattle.std.proofs.lemmas.List.{get_or_past};
    ghost use Rattle.rdm_inbox.specs.Senders.{joined};
    ghost use Rattle.rdm_inbox.specs.Passes.{InboxState};
    ghost use Rattle.rdm_inbox.specs.Queues.{serves_all, no_account, flight_of};

    ghost ports = { λ w. length w.flights };

    ghost serves = { serves_all };

    ghost fulls = { λ w. w.fulls };

    ghost empties = { λ w. w.empties };

    ghost Table = { InboxState };

    ghost tables = { λ w. w.queues.tables };

    ghost account = { λ _. no_account };

    ghost held = { λ w. Some (flight_of w) };

    ghost in_order = { λ _. false };

    ghost within = { λ w p beyond. ap joined (get_or_past w.flights p [] beyond) };

    fn push(&mut self, d: Datagram) -> Result<(), Datagram>
        requires source { nat_lt d.src.0 (length self.old.flights) ≡ true }
        requires target { d.dst.0 < length self.old.flights }
        ensures after { MatchResult result (λ _. self.new ≡ after_put self.old d) (λ _. self.new ≡ after_full_inbox self.old) }
        ensures kept { (length self.new.flights ≡ length self.old.flights) × (serves_all self.new ≡ serves_all self.old) × (self.new.queues.tables ≡ self.old.queues.tables) × (false ≡ false) }
        ensures back { IfErr result (λ back. back ≡ d) }
        ensures full { OnErr result (Rose self.old.fulls self.new.fulls) }
        ensures uncounted { OnOk result (self.new.fulls ≡ self.old.fulls) }
        ensures counts { (self.old.fulls ≤ self.new.fulls) × (self.new.empties ≡ self.old.empties) }
        ensures exact { MatchResult result (λ _. HasRoomAt d.dst.0 (Some (flight_of self.old))) (λ _. IsFullAt d.dst.0 (Some (flight_of self.old))) }
        ensures account { OnOk result (no_account ≡ option_map (after_push d) no_account) }
        ensures held { OnOk result (Moves (Pushes false d) (Some (flight_of self.old)) (Some (flight_of self.new))) }
        ensures same { OnErr result ((no_account ≡ no_account) × (Some (flight_of self.new) ≡ Some (flight_of self.old))) }
        ensures size { HasSize (Some (flight_of self.new)) }
    {
        self.queues.put(self.rt, &mut self.all[d.dst.0 as usize], d)
    }

    fn fetch(&mut self, port: PortNo) -> Option<Datagram>
        requires { nat_lt port.0 (length self.old.flights) ≡ true }
        ensures after { MatchOption result (self.new ≡ after_empty_inbox self.old) (λ d. self.new ≡ after_taken_out self.old d) }
        ensures kept { (length self.new.flights ≡ length self.old.flights) × (serves_all self.new ≡ serves_all self.old) × (self.new.queues.tables ≡ self.old.queues.tables) × (false ≡ false) }
        ensures came { IfSome result (λ d. (d.dst ≡ port) × (d.src.0 < length self.old.flights)) }
        ensures none { IfNone result (Rose self.old.empties self.new.empties) }
        ensures uncounted { IfSome result (λ _. self.new.empties ≡ self.old.empties) }
        ensures counts { (self.new.fulls ≡ self.old.fulls) × (self.old.empties ≤ self.new.empties) }
        ensures exact { IfNone result (IsEmptyAt port.0 (Some (flight_of self.old))) }
        ensures account { IfSome result (λ d. no_account ≡ option_map (after_fetches port.0 (d ∷ [])) no_account) }
        ensures held { IfSome result (λ d. Moves (Fetches false port.0 (d ∷ [])) (Some (flight_of self.old)) (Some (flight_of self.new))) }
        ensures same { IfNone result ((no_account ≡ no_account) × (Some (flight_of self.new) ≡ Some (flight_of self.old))) }
        ensures size { HasSize (Some (flight_of self.new)) }
    {
        self.queues
            .take_out(self.rt, &mut self.all[port.0 as usize])
    }
}
