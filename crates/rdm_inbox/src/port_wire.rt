//! One port's own view of the queues.
ghost use Rattle.std.specs.Prelude.{◌≡◌, ◌<◌, ◌≤◌, ◌==◌, true, false, [], ◌∷◌, None, Some, length, option_map, OnOk, OnErr, IfErr, IfSome, IfNone, MatchResult, MatchOption};
ghost use Rattle.rdm_wire.specs.Counts.{Rose};
ghost use Rattle.rdm_wire.specs.Accounts.{after_push, after_fetches};
ghost use Rattle.rdm_wire.specs.Flights.{Pushes, Fetches, Moves, IsFullAt, HasRoomAt, IsEmptyAt, HasSize};
ghost use Rattle.rdm_inbox.specs.Letters.{with_taken, with_empty};
ghost use Rattle.rdm_inbox.specs.Queues.{ArePassesOf, account_of, fulls_of, empties_of, serves_of, no_flight, with_reader, after_sent, after_found_full, WasFullAt};

use crate::passes::PortPasses;
use crate::queues::Queues;
use rdm_num::PortNo;
use rdm_wire::{Datagram, Wire};
use std::marker::Model;
use std::sync::Wait;

/// The wire that serves one port, with the passes of that port.
#[derive(Drop)]
pub struct PortWire<'a, R: Wait> {
    rt: &'a R,
    queues: &'a Queues,
    passes: PortPasses,
}

impl<'a, R: Wait> Model for PortWire<'a, R> {
    ghost use Rattle.rdm_inbox.specs.Queues.{WireState, ArePassesOf};

    ghost Value = { WireState };

    ghost view = { λ w. record { queues = w.queues.now; passes = w.passes } };

    ghost invariant = { λ w. ArePassesOf w.queues.now.tables w.passes };
}

impl<'a, R: Wait> PortWire<'a, R> {
    pub(crate) fn new(rt: &'a R, queues: &'a Queues, passes: PortPasses) -> PortWire<'a, R>
        requires { ArePassesOf queues.now.tables passes }
        ensures { result ≡ record { queues = queues.now; passes = passes } }
    {
        PortWire { rt, queues, passes }
    }

    /// Ends the wire, and gives back the passes of its port.
    pub fn passes(self) -> PortPasses
        ensures same { result ≡ self.entry.passes }
        ensures of { ArePassesOf self.entry.queues.tables result }
    {
        let PortWire {
            rt: _,
            queues: _,
            passes,
        } = self;
        passes
    }
}

impl<'a, R: Wait> Wire for PortWire<'a, R> {
    ghost use Rattle.std.specs.Prelude.{Some, false, length};
    ghost use Rattle.rdm_inbox.specs.Passes.{InboxState};
    ghost use Rattle.rdm_inbox.specs.Queues.{account_of, fulls_of, empties_of, serves_of, no_flight};

    ghost ports = { λ w. length w.queues.tables };

    ghost serves = { serves_of };

    ghost fulls = { λ w. fulls_of w.passes };

    ghost empties = { λ w. empties_of w.passes };

    ghost Table = { InboxState };

    ghost tables = { λ w. w.queues.tables };

    ghost account = { λ w. Some (account_of w.passes) };

    ghost held = { λ _. no_flight };

    ghost in_order = { λ _. false };

    ghost within = { λ w. tt };

    fn push(&mut self, d: Datagram) -> Result<(), Datagram>
        requires source { (d.src.0 == self.old.passes.port) ≡ true }
        requires target { d.dst.0 < length self.old.queues.tables }
        ensures wire { (self.new.queues ≡ self.old.queues) × (self.new.passes.port ≡ self.old.passes.port) }
        ensures after { MatchResult result (λ _. self.new.passes ≡ after_sent self.old.passes d) (λ _. self.new.passes ≡ after_found_full self.old.passes d.dst.0) }
        // As many datagrams were found as there are places, of which this port's own were the last that it sent.
        ensures found { OnErr result (WasFullAt self.old.queues.size self.old.passes d.dst.0) }
        ensures kept { (length self.new.queues.tables ≡ length self.old.queues.tables) × (serves_of self.new ≡ serves_of self.old) × (self.new.queues.tables ≡ self.old.queues.tables) × (false ≡ false) }
        ensures back { IfErr result (λ back. back ≡ d) }
        ensures full { OnErr result (Rose (fulls_of self.old.passes) (fulls_of self.new.passes)) }
        ensures uncounted { OnOk result (fulls_of self.new.passes ≡ fulls_of self.old.passes) }
        ensures counts { (fulls_of self.old.passes ≤ fulls_of self.new.passes) × (empties_of self.new.passes ≡ empties_of self.old.passes) }
        ensures exact { MatchResult result (λ _. HasRoomAt d.dst.0 None) (λ _. IsFullAt d.dst.0 None) }
        ensures account { OnOk result (Some (account_of self.new.passes) ≡ option_map (after_push d) (Some (account_of self.old.passes))) }
        ensures held { OnOk result (Moves (Pushes false d) None None) }
        ensures same { OnErr result ((Some (account_of self.new.passes) ≡ Some (account_of self.old.passes)) × (no_flight ≡ no_flight)) }
        ensures size { HasSize None }
    {
        self.queues.send(self.rt, &mut self.passes, d)
    }

    fn fetch(&mut self, _port: PortNo) -> Option<Datagram>
        requires { (_port.0 == self.old.passes.port) ≡ true }
        ensures wire { (self.new.queues ≡ self.old.queues) × (self.new.passes.port ≡ self.old.passes.port) }
        ensures after { MatchOption result (self.new.passes ≡ with_reader with_empty self.old.passes) (λ d. self.new.passes ≡ with_reader (λ r. with_taken r d) self.old.passes) }
        ensures kept { (length self.new.queues.tables ≡ length self.old.queues.tables) × (serves_of self.new ≡ serves_of self.old) × (self.new.queues.tables ≡ self.old.queues.tables) × (false ≡ false) }
        ensures came { IfSome result (λ d. (d.dst ≡ _port) × (d.src.0 < length self.old.queues.tables)) }
        ensures none { IfNone result (Rose (empties_of self.old.passes) (empties_of self.new.passes)) }
        ensures uncounted { IfSome result (λ _. empties_of self.new.passes ≡ empties_of self.old.passes) }
        ensures counts { (fulls_of self.new.passes ≡ fulls_of self.old.passes) × (empties_of self.old.passes ≤ empties_of self.new.passes) }
        ensures exact { IfNone result (IsEmptyAt _port.0 None) }
        ensures account { IfSome result (λ d. Some (account_of self.new.passes) ≡ option_map (after_fetches _port.0 (d ∷ [])) (Some (account_of self.old.passes))) }
        ensures held { IfSome result (λ d. Moves (Fetches false _port.0 (d ∷ [])) None None) }
        ensures same { IfNone result ((Some (account_of self.new.passes) ≡ Some (account_of self.old.passes)) × (no_flight ≡ no_flight)) }
        ensures size { HasSize None }
    {
        self.queues.receive(self.rt, &mut self.passes)
    }
}
