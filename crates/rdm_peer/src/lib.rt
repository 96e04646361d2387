//! What is known of a life that messages go to, what is owed to it, and their numbers.
#![tactic(auto)]

ghost use Rattle.std.specs.Prelude.{◌≡◌, false, not, is_none};
ghost use Rattle.rdm_peer.specs.Account.{fresh, learnt, number_given, after_number, has_number};
ghost use Rattle.rdm_peer.specs.Account as Account;

use rdm_num::MsgNo;
use std::marker::Model;

#[cfg(test)]
mod tests;

/// The bit of a feature word that asks for the raw address in every packet.
const RAW_BIT: u64 = 4;

/// One life as another sees it: whether a handshake is owed to it, the word of features that it
/// told, and the number of the next message to it.
#[derive(Debug, Drop)]
pub struct Peer {
    owes: bool,
    known: Option<u64>,
    next: Option<u32>,
}

impl Model for Peer {
    ghost use Rattle.rdm_peer.specs.Account.{Account};
    ghost use Rattle.rdm_peer.specs.PeerNumbers.{number_or_end};

    ghost Value = { Account };

    ghost view = { λ p. record { owes = p.owes; known = p.known; next = number_or_end p.next } };
}

impl Peer {
    /// A life of which nothing is known; its messages are numbered from `first` on.
    pub fn new(first: u32) -> Peer
        ensures { result ≡ fresh first }
    {
        Peer {
            owes: true,
            known: None,
            next: Some(first),
        }
    }

    /// No handshake is owed.
    pub fn is_met(&self) -> bool
        ensures { result ≡ not self.now.owes }
    {
        !self.owes
    }

    /// A handshake is owed. It is so at the first call alone.
    pub fn owes(&mut self) -> bool
        ensures answer { result ≡ self.old.owes }
        ensures after { self.new ≡ record self.old { owes = false } }
    {
        std::mem::replace(&mut self.owes, false)
    }

    /// Keeps the first of the words, unless one was learnt before.
    #[tactic(auto, unfolding(crate::specs::Account::known_after))]
    pub fn learn(&mut self, words: &[u64]) -> bool
        ensures answer { result ≡ is_none self.old.known }
        ensures after { self.new ≡ learnt self.old words.now }
    {
        let is_first = self.known.is_none();
        if is_first {
            self.known = words.first().copied();
        }
        is_first
    }

    /// The first word that was learnt.
    pub fn known(&self) -> Option<u64>
        ensures { result ≡ self.now.known }
    {
        self.known
    }

    /// Packets to the life carry the raw address: nothing is known of it, or it asks for that.
    #[tactic(auto, unfolding(crate::specs::Account::wants_raw))]
    pub fn wants_raw(&self) -> bool
        ensures { result ≡ Account.wants_raw self.now.known }
    {
        match self.known {
            None => true,
            Some(word) => word / RAW_BIT % 2 == 1,
        }
    }

    /// The message number that comes next; none after the last number of 32 bits.
    pub fn next_no(&self) -> Option<MsgNo>
        ensures { result ≡ number_given self.now }
    {
        Some(MsgNo(self.next?))
    }

    /// Gives the next message number, each once; none after the last number of 32 bits.
    pub fn take_no(&mut self) -> Option<MsgNo>
        ensures answer { result ≡ number_given self.old }
        ensures after { self.new ≡ after_number self.old }
    {
        let no = self.next?;
        self.next = no.checked_add(1);
        Some(MsgNo(no))
    }

    /// No message number is left.
    pub fn is_used_up(&self) -> bool
        ensures { result ≡ not (has_number self.now) }
    {
        match self.next {
            Some(_no) => false,
            None => true,
        }
    }
}
