//! What is kept of one life.
ghost use Rattle.std.specs.Prelude.{◌≡◌, ◌<◌, not, OnOk, OnErr};
ghost use Rattle.rdm_peer.specs.Account as peer;
ghost use Rattle.rdm_window.specs.Window.{state_of, IsLeastMissing};
ghost use Rattle.rdm_peers.specs.Accounts.{stranger, greeted, told, numbered, with_room, with_spent, with_heard};
ghost use Rattle.rdm_peers.specs.Accounts as account;

use rdm_num::{MsgNo, NoMemory};
use rdm_peer::Peer;
use rdm_window::{Heard, Window};
use std::alloc::Global;
use std::marker::Model;

/// One life: what is known of it and owed to it, and which of its messages were heard.
#[derive(Drop)]
pub struct PeerAccount {
    peer: Peer,
    window: Window,
}

impl Model for PeerAccount {
    ghost use Rattle.rdm_peers.specs.Accounts.{Acquaintance};
    ghost use Rattle.rdm_peers.specs.Codes.{acquaintance_code};

    ghost Value = { Acquaintance };

    ghost coded = { acquaintance_code };

    ghost view = { λ a. record { peer = a.peer; hearing = a.window } };
}

impl PeerAccount {
    /// Nothing is known of the life; messages both ways are numbered from `first` on.
    pub(crate) fn new(alloc: Global, first: u32) -> PeerAccount
        ensures { result ≡ stranger first }
    {
        PeerAccount {
            peer: Peer::new(first),
            window: Window::new(alloc, first),
        }
    }

    /// The life was greeted.
    pub(crate) fn is_met(&self) -> bool
        ensures { result ≡ account.is_met self.now }
    {
        self.peer.is_met()
    }

    /// Greets the life, and tells whether a handshake was owed to it.
    pub(crate) fn meet(&mut self) -> bool
        ensures answer { result ≡ self.old.peer.owes }
        ensures after { self.new ≡ greeted self.old }
    {
        self.peer.owes()
    }

    /// The first word that the life told.
    pub(crate) fn known(&self) -> Option<u64>
        ensures { result ≡ self.now.peer.known }
    {
        self.peer.known()
    }

    /// The life tells words of its features.
    pub(crate) fn learn(&mut self, words: &[u64])
        ensures { self.new ≡ told words.now self.old }
    {
        let _ = self.peer.learn(words);
    }

    /// Packets to the life carry the raw address.
    pub(crate) fn wants_raw(&self) -> bool
        ensures { result ≡ peer.wants_raw self.now.peer.known }
    {
        self.peer.wants_raw()
    }

    /// The number of the next message to the life, if one is left.
    pub(crate) fn next_number(&self) -> Option<MsgNo>
        ensures { result ≡ peer.number_given self.now.peer }
    {
        self.peer.next_no()
    }

    /// Gives that number, each once.
    pub(crate) fn take_number(&mut self) -> Option<MsgNo>
        ensures answer { result ≡ peer.number_given self.old.peer }
        ensures after { self.new ≡ numbered self.old }
    {
        self.peer.take_no()
    }

    /// What a number is among those of the life's messages.
    pub(crate) fn heard(&self, no: MsgNo) -> Heard
        ensures { result ≡ state_of self.now.hearing no.0 }
    {
        self.window.state(no)
    }

    /// The least number that was not heard.
    pub(crate) fn next_entering(&self) -> u64
        ensures { result ≡ self.now.hearing.next }
    {
        self.window.next_number()
    }

    /// Makes room for one more message to be heard without memory.
    pub(crate) fn reserve_hear(&mut self) -> Result<(), NoMemory>
        ensures ok { OnOk result (self.new ≡ with_room self.old) }
        ensures err { OnErr result (self.new ≡ self.old) }
    {
        self.window.reserve()
    }

    /// Gives a reservation back.
    pub(crate) fn give_back_hear(&mut self)
        requires { 0 < self.old.hearing.room }
        ensures { self.new ≡ with_spent self.old }
    {
        self.window.give_back();
    }

    /// Hears a message, and tells by how much the least number that was not heard rose.
    pub(crate) fn hear(&mut self, no: MsgNo) -> u64
        requires state { state_of self.old.hearing no.0 ≡ Heard.New }
        requires room { 0 < self.old.hearing.room }
        ensures after { self.new ≡ with_heard no.0 result self.old }
        ensures least { IsLeastMissing self.new.hearing }
    {
        self.window.hear_reserved(no)
    }
}
