//! What a datagram that is taken makes of an endpoint.
ghost use Rattle.std.specs.Prelude.{◌≡◌, ◌<◌, ◌≤◌, ◌+◌, true, false, IfOk, OnOk, OnErr, vec_len, vec_capacity};
ghost use Rattle.rdm_ep.specs.declared.state.Verdict.TheVariants.{Message, Features};
ghost use Rattle.rdm_ep.specs.Entering.{entered_by};
ghost use Rattle.rdm_ep.specs.Handling as Handling;
ghost use Rattle.rdm_ep.specs.Verdicts.{VerdictAs, verdict_effect, waits_in, is_next_in, currents_with, peers_with, owed_with};

use crate::answer::HandleAnswer;
use crate::current::current_of;
use crate::endpoint::Endpoint;
use crate::holding::take_following;
use crate::meeting::arrive_all;
use crate::peers::{peer_of, write_peer};
use crate::receiving::place_of_posted;
use crate::state::{Inbound, Peer};
use rdm_model::Entered;
use rdm_num::{Life, NoMemory};
use std::alloc::Global;

impl Endpoint {
    /// Takes a message, unless it would wait and as many wait as may: where it is next it arrives, and so do
    /// the held ones that follow it; else it is held.
    pub(crate) fn take_message(&mut self, alloc: Global, inbound: Inbound) -> HandleAnswer
        ensures { VerdictAs self.old self.new inbound.life (Message inbound) result }
    {
        if self.waits(&inbound) {
            return HandleAnswer::AgainEarly;
        }
        let taken = if self.is_next(&inbound) {
            self.take_next(alloc, inbound)
        } else {
            self.take_ahead(inbound)
        };
        match taken {
            Ok(entered) => HandleAnswer::Took(entered),
            Err(_) => HandleAnswer::Memory,
        }
    }

    /// The message would wait, and as many wait as may.
    #[tactic(auto, unfolding(crate::specs::Verdicts::waits_in, crate::specs::Handling::enters_at_once, crate::specs::Handling::early_is_full, crate::specs::Handling::is_met_in))]
    pub(crate) fn waits(&self, inbound: &Inbound) -> bool
        ensures { result ≡ waits_in self.now inbound.now }
    {
        let enters = self.is_next(inbound) && place_of_posted(&self.posted, inbound).is_some();
        !enters && self.early_is_full()
    }

    /// As many messages wait, for a receive or for those before them, as may.
    #[tactic(auto, unfolding(crate::specs::Handling::early_is_full))]
    fn early_is_full(&self) -> bool
        ensures { result ≡ Handling.early_is_full self.now }
    {
        self.limits.early as usize <= self.arrived.len() + self.held.len()
    }

    /// The message is the next one of its life.
    fn is_next(&self, inbound: &Inbound) -> bool
        ensures { result ≡ is_next_in self.now inbound.now }
    {
        self.limits.first <= inbound.no.0
            && (inbound.no.0 - self.limits.first) as u64
                == peer_of(&self.peers, inbound.life).entered
    }

    /// Takes a message that is next: it arrives, and so do the held ones that follow it.
    fn take_next(&mut self, alloc: Global, inbound: Inbound) -> Result<Option<Entered>, NoMemory>
        requires next { is_next_in self.old inbound ≡ true }
        ensures answer { IfOk result (λ e. e ≡ entered_by true inbound self.old.held) }
        ensures ok { OnOk result (self.new ≡ verdict_effect inbound.life (Message inbound) self.old) }
        ensures err { OnErr result (self.new ≡ self.old) }
    {
        let most = self.held.len() + 1;
        let mut entering = Vec::with_capacity(alloc, most)?;
        self.currents.reserve(1)?;
        self.peers.reserve(2)?;
        self.owed.reserve(1)?;
        self.arrived.reserve(most)?;
        let (life, first) = (inbound.life, inbound.no);
        entering.push_reserved(inbound);
        let next = take_following(&mut self.held, &mut entering, life, first.0 as u64 + 1);
        welcome(&mut self.currents, &mut self.peers, &mut self.owed, life);
        let peer = peer_of(&self.peers, life);
        write_peer(
            &mut self.peers,
            life,
            Peer {
                entered: next - self.limits.first as u64,
                ..peer
            },
        );
        arrive_all(
            &mut self.regions,
            &mut self.posted,
            &mut self.arrived,
            &mut self.completions,
            entering,
        );
        Ok(Some(Entered {
            first,
            count: next - first.0 as u64,
        }))
    }

    /// Takes a message that comes before it is next: it is held.
    fn take_ahead(&mut self, inbound: Inbound) -> Result<Option<Entered>, NoMemory>
        requires next { is_next_in self.old inbound ≡ false }
        ensures answer { IfOk result (λ e. e ≡ entered_by false inbound self.old.held) }
        ensures ok { OnOk result (self.new ≡ verdict_effect inbound.life (Message inbound) self.old) }
        ensures err { OnErr result (self.new ≡ self.old) }
    {
        self.currents.reserve(1)?;
        self.peers.reserve(1)?;
        self.owed.reserve(1)?;
        self.held.reserve(1)?;
        welcome(
            &mut self.currents,
            &mut self.peers,
            &mut self.owed,
            inbound.life,
        );
        self.held.push_reserved(inbound);
        Ok(None)
    }

    /// Takes the features of a life.
    pub(crate) fn take_features(&mut self, from: Life, word: Option<u64>) -> Result<(), NoMemory>
        ensures ok { OnOk result (self.new ≡ verdict_effect from (Features word) self.old) }
        ensures err { OnErr result (self.new ≡ self.old) }
    {
        self.currents.reserve(1)?;
        self.peers.reserve(2)?;
        self.owed.reserve(1)?;
        welcome(&mut self.currents, &mut self.peers, &mut self.owed, from);
        let peer = peer_of(&self.peers, from);
        write_peer(
            &mut self.peers,
            from,
            Peer {
                known: word,
                ..peer
            },
        );
        Ok(())
    }
}

/// Holds a life as current where none of its port was, and owes it a handshake where nothing of it
/// was taken before.
#[tactic(auto, using(crate::proofs::PeersLemmas::with_peer_put), unfolding(crate::specs::Verdicts::currents_with, crate::specs::Verdicts::peers_with, crate::specs::Verdicts::owed_with))]
fn welcome(currents: &mut Vec<Life>, peers: &mut Vec<Peer>, owed: &mut Vec<Life>, from: Life)
    requires currents { vec_len currents.old < vec_capacity currents.old }
    requires peers { vec_len peers.old < vec_capacity peers.old }
    requires owed { vec_len owed.old < vec_capacity owed.old }
    ensures currents { currents.new.items ≡ currents_with from currents.old.items }
    ensures peers { peers.new.items ≡ peers_with from peers.old.items }
    ensures owed { owed.new.items ≡ owed_with from peers.old.items owed.old.items }
    ensures room { vec_capacity peers.new ≡ vec_capacity peers.old }
    ensures count { vec_len peers.new ≤ vec_len peers.old + 1 }
{
    if current_of(currents, from.port).is_none() {
        currents.push_reserved(from);
    }
    let peer = peer_of(peers, from);
    if peer.greeted {
        return;
    }
    write_peer(
        peers,
        from,
        Peer {
            greeted: true,
            ..peer
        },
    );
    owed.push_reserved(from);
}
