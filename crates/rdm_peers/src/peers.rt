//! The lives that an endpoint knows.
ghost use Rattle.std.specs.Prelude.{◌≡◌, ◌<◌, Some, IsSome, OnOk, OnErr, is_some, false};
ghost use Rattle.std.specs.Option.{option_copied};
ghost use Rattle.std.specs.Borrow.{sem, Lends};
ghost use Rattle.rdm_peer.specs.Account as peer;
ghost use Rattle.rdm_window.specs.Window.{state_of, IsLeastMissing};
ghost use Rattle.rdm_peers.specs.Accounts.{stranger, greeted, told, numbered, with_room, with_spent, with_heard};
ghost use Rattle.rdm_peers.specs.Accounts as account;
ghost use Rattle.rdm_peers.specs.Table.{nobody, account_at, account_of, with_account, changed, without_account};
ghost use Rattle.rdm_peers.specs.Table as table;
ghost use Rattle.rdm_peers.specs.contracts.peers.Peers.{the_row};
ghost use Rattle.rdm_peers.specs.contracts.account.PeerAccount.{the_row as account_row};

use crate::account::PeerAccount;
use rdm_num::{Life, MsgNo, NoMemory};
use rdm_window::Heard;
use std::alloc::Global;
use std::collections::BTreeMap;
use std::marker::Model;

/// The lives that an endpoint knows, each with its account. Of a life without an account nothing is known yet.
#[derive(Drop)]
pub struct Peers {
    alloc: Global,
    first: u32,
    accounts: BTreeMap<(u32, u32), PeerAccount>,
}

impl Model for Peers {
    ghost use Rattle.rdm_peers.specs.Codes.{known_code};
    ghost use Rattle.rdm_peers.specs.Table.{Known};
    ghost use Rattle.std.specs.FinMap.{from_entries};
    ghost use Rattle.std.specs.Prelude.{◌<◌, ◌^◌};

    ghost Value = { Known };

    ghost coded = { known_code };

    ghost view = { λ p. record { first = p.first; accounts = from_entries p.accounts.entries } };

    ghost invariant = { λ p. p.first < 2 ^ 32 };
}

impl Peers {
    /// No life is known; the messages of each, and those to it, are numbered from `first` on.
    pub fn new(alloc: Global, first: u32) -> Peers
        ensures { result ≡ nobody first }
    {
        Peers {
            alloc,
            first,
            accounts: BTreeMap::new(alloc),
        }
    }

    /// The life has an account.
    pub fn has(&self, life: Life) -> bool
        ensures { result ≡ is_some (account_at self.now life) }
    {
        self.get(life).is_some()
    }

    /// Opens the account of a life that has none.
    pub fn open(&mut self, life: Life) -> Result<(), NoMemory>
        requires { is_some (account_at self.old life) ≡ false }
        ensures ok { OnOk result (self.new ≡ with_account self.old life (stranger self.old.first)) }
        ensures err { OnErr result (self.new ≡ self.old) }
    {
        let account = PeerAccount::new(self.alloc, self.first);
        self.accounts.insert(key(life), account)?;
        Ok(())
    }

    /// The life has no account any more.
    pub fn forget(&mut self, life: Life)
        ensures { self.new ≡ without_account self.old life }
    {
        let _ = self.accounts.remove(&key(life));
    }

    /// The life was greeted.
    pub fn is_met(&self, life: Life) -> bool
        ensures { result ≡ account.is_met (account_of self.now life) }
    {
        match self.get(life) {
            Some(account) => account.is_met(),
            None => false,
        }
    }

    /// Greets the life, and tells whether a handshake was owed to it: it is so once.
    pub fn meet(&mut self, life: Life) -> bool
        requires { IsSome (account_at self.old life) }
        ensures answer { result ≡ (account_of self.old life).peer.owes }
        ensures after { self.new ≡ changed self.old life greeted }
    {
        self.account_mut(life).meet()
    }

    /// The first word that the life told.
    pub fn known(&self, life: Life) -> Option<u64>
        ensures { result ≡ (account_of self.now life).peer.known }
    {
        self.get(life)?.known()
    }

    /// The life tells words of its features.
    pub fn learn(&mut self, life: Life, words: &[u64])
        requires { IsSome (account_at self.old life) }
        ensures { self.new ≡ changed self.old life (told words.now) }
    {
        self.account_mut(life).learn(words);
    }

    /// Packets to the life carry the raw address.
    pub fn wants_raw(&self, life: Life) -> bool
        ensures { result ≡ peer.wants_raw (account_of self.now life).peer.known }
    {
        match self.get(life) {
            Some(account) => account.wants_raw(),
            None => true,
        }
    }

    /// The number of the next message to the life, if one is left.
    pub fn next_number(&self, life: Life) -> Option<MsgNo>
        ensures { result ≡ peer.number_given (account_of self.now life).peer }
    {
        match self.get(life) {
            Some(account) => account.next_number(),
            None => Some(MsgNo(self.first)),
        }
    }

    /// Gives that number, each once.
    pub fn take_number(&mut self, life: Life) -> Option<MsgNo>
        requires { IsSome (account_at self.old life) }
        ensures answer { result ≡ peer.number_given (account_of self.old life).peer }
        ensures after { self.new ≡ changed self.old life numbered }
    {
        self.account_mut(life).take_number()
    }

    /// What a number is among those of the life's messages.
    pub fn heard(&self, life: Life, no: MsgNo) -> Heard
        ensures { result ≡ state_of (account_of self.now life).hearing no.0 }
    {
        match self.get(life) {
            Some(account) => account.heard(no),
            None if no.0 < self.first => Heard::Entered,
            None => Heard::New,
        }
    }

    /// The number of the life's next message to enter: the least one that was not heard.
    pub fn next_entering(&self, life: Life) -> u64
        ensures { result ≡ (account_of self.now life).hearing.next }
    {
        match self.get(life) {
            Some(account) => account.next_entering(),
            None => u64::from(self.first),
        }
    }

    /// Makes room for one more message of the life to be heard without memory.
    pub fn reserve_hear(&mut self, life: Life) -> Result<(), NoMemory>
        requires { IsSome (account_at self.old life) }
        ensures ok { OnOk result (self.new ≡ changed self.old life with_room) }
        ensures room { OnOk result (0 < (account_of self.new life).hearing.room) }
        ensures err { OnErr result (self.new ≡ self.old) }
    {
        self.account_mut(life).reserve_hear()
    }

    /// Gives a reservation back.
    pub fn give_back_hear(&mut self, life: Life)
        requires { 0 < (account_of self.old life).hearing.room }
        ensures { self.new ≡ changed self.old life with_spent }
    {
        self.account_mut(life).give_back_hear();
    }

    /// Hears a message of the life, and tells by how much the number of the next one to enter rose. It wants no memory, and
    /// spends one reservation.
    pub fn hear(&mut self, life: Life, no: MsgNo) -> u64
        requires state { state_of (account_of self.old life).hearing no.0 ≡ Heard.New }
        requires room { 0 < (account_of self.old life).hearing.room }
        ensures after { self.new ≡ changed self.old life (with_heard no.0 result) }
        ensures least { IsLeastMissing (account_of self.new life).hearing }
    {
        self.account_mut(life).hear(no)
    }

    /// The account of a life that has one, for writing.
    #[inline(always)]
    fn account_mut(&mut self, life: Life) -> &mut PeerAccount
        requires { IsSome (account_at self.old life) }
        ensures* writes_back { sem 𝓛 (Lends the_row account_row self.entry result (with_account self.old life)) }
        ensures value { Some result.now ≡ account_at self.old life }
    {
        match self.accounts.get_mut(&key(life)) {
            Some(account) => account,
            None => unreachable!(),
        }
    }

    /// The account of a life, if it has one.
    fn get(&self, life: Life) -> Option<&PeerAccount>
        ensures { option_copied result ≡ account_at self.now life }
    {
        self.accounts.get(&key(life))
    }
}

/// What a life is known under.
fn key(life: Life) -> (u32, u32)
    ensures { result ≡ table.key_of life }
{
    (life.port.0, life.connid.0)
}
