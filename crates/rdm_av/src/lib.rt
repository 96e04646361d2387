//! Which life of a port is current, and which lives were superseded.
#![tactic(auto)]

ghost use Rattle.std.specs.Prelude.{◌≡◌, ◌⊎◌, ◌+◌, ◌<◌, ◌≤◌, None, Some, Err, OnOk, OnErr};
ghost use Rattle.std.specs.FinMap as map;
ghost use Rattle.std.specs.FinSet as set;
ghost use Rattle.std.specs.HashMap as hash_map;
ghost use Rattle.std.specs.HashSet as hash_set;
ghost use Rattle.rdm_av.specs.Lives.{no_lives, current_life, with_current, with_superseded, with_room, with_spent, insert_answer, reserved_answer, after_insert, kept_current, kept_superseded};
ghost use Rattle.rdm_av.specs.Lives as Lives;
ghost use Rattle.rdm_av.specs.Runs.{SupersededOnceCurrent};

use rdm_num::{Connid, Life, NoMemory, PortNo, is_same_life};
use std::alloc::{AllocError, Global};
use std::collections::{HashMap, HashSet};
use std::marker::Model;

#[cfg(test)]
mod tests;

/// How a life came to be current.
#[derive(Clone, Copy, Debug, PartialEq, Eq)]
pub enum Inserted {
    /// The port had no current life.
    Inserted,
    /// The life was current already.
    Same,
    /// This life was current before, and is no more.
    Supersedes(Life),
}

/// Why a life did not come to be current.
#[derive(Clone, Copy, Debug, PartialEq, Eq)]
pub enum InsertRefused {
    /// The life was current once and is not now.
    Superseded,
    /// Want of memory.
    Memory,
}

impl From<NoMemory> for InsertRefused {
    ghost use Rattle.rdm_av.specs.declared.InsertRefused.TheVariants.{Memory};

    ghost from_gives = { λ _ r. r ≡ Memory };

    fn from(_error: NoMemory) -> InsertRefused {
        InsertRefused::Memory
    }
}

/// A life was current once and is not now, so it does not come to be current.
#[derive(Clone, Copy, Debug, PartialEq, Eq)]
pub struct WasSuperseded;

impl From<WasSuperseded> for InsertRefused {
    ghost use Rattle.rdm_av.specs.declared.InsertRefused.TheVariants.{Superseded};

    ghost from_gives = { λ _ r. r ≡ Superseded };

    fn from(_refused: WasSuperseded) -> InsertRefused {
        InsertRefused::Superseded
    }
}

/// What the source of a datagram is.
#[derive(Clone, Copy, Debug, PartialEq, Eq)]
pub enum Origin {
    /// The current life of its port.
    Current,
    /// The port has no current life, and the datagram tells the raw address.
    FirstSeen,
    /// The port has another current life.
    FromOther,
    /// The port has no current life, and there is no raw address.
    Unknown,
}

/// The lives that an endpoint knows: the current life of each port, and the superseded ones. A life
/// that becomes current may take one place in each of the two, so each has at least `room` to spare.
#[derive(Drop)]
pub struct Av {
    current: HashMap<u32, Connid>,
    superseded: HashSet<(u32, u32)>,
    room: usize,
}

impl Model for Av {
    ghost use Rattle.std.specs.Prelude.{◌≤◌};
    ghost use Rattle.std.specs.HashMap as hash_map;
    ghost use Rattle.std.specs.HashSet as hash_set;
    ghost use Rattle.rdm_av.specs.Lives.{Lives, lives_code, kept_current, kept_superseded};

    ghost Value = { Lives };

    ghost coded = { lives_code };

    ghost view = { λ a. record { current = kept_current a.current; superseded = kept_superseded a.superseded; room = a.room } };

    ghost invariant = { λ a. (a.room ≤ hash_map.spare a.current) × (a.room ≤ hash_set.spare a.superseded) };
}

impl Av {
    pub fn new(alloc: Global) -> Av
        ensures { result ≡ no_lives }
    {
        Av {
            current: HashMap::new(alloc),
            superseded: HashSet::new(alloc),
            room: 0,
        }
    }

    /// Makes room for one more life to become current without memory.
    pub fn reserve(&mut self) -> Result<(), NoMemory>
        ensures ok { OnOk result (self.new ≡ with_room self.old) }
        ensures err { OnErr result (self.new ≡ self.old) }
    {
        let room = self.room.checked_add(1).ok_or(AllocError)?;
        self.current.reserve(room)?;
        self.superseded.reserve(room)?;
        self.room = room;
        Ok(())
    }

    /// Makes the life the current one of its port, unless it was superseded.
    pub fn insert(&mut self, life: Life) -> Result<Inserted, InsertRefused>
        ensures answer { (result ≡ Err InsertRefused.Memory) ⊎ (result ≡ insert_answer self.old life) }
        ensures after { self.new ≡ after_insert self.old life result }
    {
        self.reserve()?;
        Ok(self.insert_reserved(life)?)
    }

    /// Makes the life the current one of its port, unless it was superseded. It wants no memory, and
    /// spends one reservation whatever it answers.
    #[tactic(auto, unfolding(crate::specs::Lives::after_insert), using(crate::proofs::Answered::answers_new, crate::proofs::Answered::answers_same, crate::proofs::Answered::answers_supersedes))]
    pub fn insert_reserved(&mut self, life: Life) -> Result<Inserted, WasSuperseded>
        requires { 0 < self.old.room }
        ensures answer { result ≡ reserved_answer self.old life }
        ensures after { self.new ≡ with_spent (after_insert self.old life result) }
    {
        if self.is_superseded(life) {
            self.spend();
            return Err(WasSuperseded);
        }
        match self.current(life.port) {
            None => {
                self.implicit_reserved(life);
                Ok(Inserted::Inserted)
            }
            Some(old) => {
                if is_same_life(old, life) {
                    self.spend();
                    Ok(Inserted::Same)
                } else {
                    self.supersede(old, life);
                    Ok(Inserted::Supersedes(old))
                }
            }
        }
    }

    /// Makes the life of a port that has none yet the current one.
    pub fn implicit(&mut self, life: Life) -> Result<(), NoMemory>
        requires { current_life self.old life.port ≡ None }
        ensures ok { OnOk result (self.new ≡ with_current self.old life) }
        ensures err { OnErr result (self.new ≡ self.old) }
    {
        self.reserve()?;
        self.implicit_reserved(life);
        Ok(())
    }

    /// Makes the life of a port that has none yet the current one. It wants no memory, and spends one
    /// reservation.
    pub fn implicit_reserved(&mut self, life: Life)
        requires none { current_life self.old life.port ≡ None }
        requires room { 0 < self.old.room }
        ensures { self.new ≡ with_spent (with_current self.old life) }
    {
        put(&mut self.current, life);
        self.room -= 1;
    }

    /// The current life of a port.
    pub fn current(&self, port: PortNo) -> Option<Life>
        ensures { result ≡ current_life self.now port }
    {
        match self.current.get(&port.0) {
            Some(connid) => Some(Life {
                port,
                connid: *connid,
            }),
            None => None,
        }
    }

    /// What a datagram's source is, which says its life and has a raw address or not.
    pub fn classify(&self, life: Life, has_raw: bool) -> Origin
        ensures { result ≡ Lives.origin (current_life self.now life.port) life has_raw }
    {
        origin_beside(self.current(life.port), life, has_raw)
    }

    /// The life was current once and is not now.
    pub fn is_superseded(&self, life: Life) -> bool
        ensures { result ≡ Lives.is_superseded self.now life }
    {
        self.superseded.contains(&(life.port.0, life.connid.0))
    }

    /// Puts a life in the place of the current one of its port.
    fn supersede(&mut self, old: Life, life: Life)
        requires { 0 < self.old.room }
        ensures { self.new ≡ with_spent (with_current (with_superseded self.old old) life) }
    {
        add(&mut self.superseded, old);
        put(&mut self.current, life);
        self.room -= 1;
    }

    /// Spends one reservation.
    fn spend(&mut self)
        requires { 0 < self.old.room }
        ensures { self.new ≡ with_spent self.old }
    {
        self.room -= 1;
    }
}

/// Makes the life the current one of its port, where there is a place.
fn put(current: &mut HashMap<u32, Connid>, life: Life)
    requires { 0 < hash_map.spare current.old }
    ensures lives { kept_current current.new ≡ map.insert (kept_current current.old) life.port.0 life.connid }
    ensures places { hash_map.spare current.old ≤ hash_map.spare current.new + 1 }
{
    let Ok(_old) = current.insert(life.port.0, life.connid) else {
        unreachable!()
    };
}

/// Puts the life among the superseded ones, where there is a place.
fn add(superseded: &mut HashSet<(u32, u32)>, life: Life)
    requires { 0 < hash_set.spare superseded.old }
    ensures lives { kept_superseded superseded.new ≡ set.insert (kept_superseded superseded.old) (life.port.0, life.connid.0) }
    ensures places { hash_set.spare superseded.old ≤ hash_set.spare superseded.new + 1 }
{
    let Ok(_added) = superseded.insert((life.port.0, life.connid.0)) else {
        unreachable!()
    };
}

/// What a life is beside the current life of its port.
#[tactic(auto, unfolding(crate::specs::Lives::origin))]
fn origin_beside(current: Option<Life>, life: Life, has_raw: bool) -> Origin
    ensures { result ≡ Lives.origin current life has_raw }
{
    match current {
        Some(now) => {
            if is_same_life(now, life) {
                Origin::Current
            } else {
                Origin::FromOther
            }
        }
        None => {
            if has_raw {
                Origin::FirstSeen
            } else {
                Origin::Unknown
            }
        }
    }
}

/// Over any calls, the superseded lives are those that were current once and are not now.
pub fn superseded_law()
    ensures { SupersededOnceCurrent }
{}
