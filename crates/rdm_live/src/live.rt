//! Which receives live.
ghost use Rattle.std.specs.Prelude.{◌≡◌, ◌<◌, [], None, false, length, IfOk, OnOk, OnErr, option_copied};
ghost use Rattle.rdm_live.specs.View.{numbered, of_message, IsLive};
ghost use Rattle.rdm_live.specs.Table as Table;
ghost use Rattle.rdm_live.specs.Table.{nobody, with_room, with_spent, with_receive, without, first_concerned};

use rdm_matched::Matched;
use rdm_num::{Life, MsgNo, NoMemory, OpId};
use rdm_pool::Pool;
use rdm_receives::Receive;
use rdm_slots::Slots;
use std::alloc::{AllocError, Global};
use std::marker::Model;

/// The receives that were accepted and are not over. Each has its range out as a part, so they must be
/// spent: each by `take`, and what is left by `end`.
pub struct Live {
    // The place of each receive among the slots, by its number.
    pub(crate) places: Pool<usize>,
    pub(crate) slots: Slots<Receive>,
    // The receive of each message that is matched. It has room for the message of each receive that
    // waits for one.
    pub(crate) matched: Matched,
    pub(crate) room: usize,
}

impl Model for Live {
    ghost use Rattle.rdm_live.specs.View.{LiveView};
    ghost use Rattle.rdm_live.specs.Kept.{receives_at, IsKept};

    ghost Value = { LiveView };

    ghost view = { λ l. record { list = receives_at l.places.list l.slots; size = l.places.size; made = l.places.made; room = l.room } };

    ghost invariant = { λ l. IsKept l.places l.slots l.matched l.room };
}

impl Live {
    /// Takes the memory for so many receives. None lives.
    pub fn new(alloc: Global, size: usize) -> Result<Live, NoMemory>
        ensures { IfOk result (λ live. live ≡ nobody size) }
    {
        let places = Pool::new(alloc, size)?;
        let slots = Slots::new(alloc, size)?;
        Ok(Live {
            places,
            slots,
            matched: Matched::new(alloc),
            room: 0,
        })
    }

    /// As many live as may.
    pub fn is_full(&self) -> bool
        ensures value { result ≡ Table.is_full self.now }
        ensures live { IsLive self.now }
    {
        self.places.is_full()
    }

    /// How many live.
    pub fn len(&self) -> usize
        ensures { result ≡ length self.now.list }
    {
        self.places.len()
    }

    /// The number that the next receive has.
    pub fn next_number(&self) -> OpId
        ensures { result.0 ≡ self.now.made }
    {
        self.places.next_number()
    }

    /// Makes room for one more receive.
    pub fn reserve(&mut self) -> Result<(), NoMemory>
        ensures ok { OnOk result (self.new ≡ with_room self.old) }
        ensures err { OnErr result (self.new ≡ self.old) }
    {
        let room = self.room.checked_add(1).ok_or(AllocError)?;
        self.matched.reserve()?;
        self.room = room;
        Ok(())
    }

    /// Gives the room for one receive back.
    pub fn give_back(&mut self)
        requires { 0 < self.old.room }
        ensures { self.new ≡ with_spent self.old }
    {
        self.matched.give_back();
        self.room -= 1;
    }

    /// The receive of a number.
    pub fn get(&self, number: OpId) -> Option<&Receive>
        ensures { option_copied result ≡ numbered self.now number }
    {
        let place = *self.places.get(number)?;
        self.slots.get(place)
    }

    /// Ends with no receive left.
    pub fn end(self)
        requires { self.list ≡ [] }
    {
        let Live {
            places: _,
            slots,
            matched: _,
            room: _,
        } = self;
        slots.end();
    }
}
