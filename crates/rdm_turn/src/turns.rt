//! The table of turns and its seats.
ghost use Rattle.std.specs.Prelude.{◌≡◌, ℕ, ◌<◌, ◌≤◌, [], ◌∷◌, map, length, replicate, Some, IfOk, IfErr, IsTrue, IsFalse, vec_len};
ghost use Rattle.rdm_turn.specs.Slots.{EachFits, values_of, block_of};
ghost use Rattle.rdm_turn.specs.Seating.{IsSeatOf, has_taken, seat_with, after_take, after_give, after_split, after_join};

use crate::block::{EmptyVec, from_slots, into_slots, refill};
use crate::rule::{OnePart, Stand, Together, TurnRule};
use crate::steps::{Sitter, claim, lay, leave, lift};
use atomic_table::{Badge, Refused, Table};
use std::alloc::Global;
use std::marker::Model;
use std::mem;
use std::sync::Wait;

/// What fits a place is a fact of the value and of the number of the place alone.
pub trait Tagged {
    ghost fits: { Self → ℕ → Type 0 };
}

/// The right to take turns at a table. It has no bytes. Contracts see it as its table, its number of parts, and the places that it has taken.
#[derive(Drop)]
pub struct TurnSeat {
    badge: Badge<Stand>,
}

// Between two calls the seat has no place in hand.
impl Model for TurnSeat {
    ghost use Rattle.rdm_turn.specs.Seating.{SeatView, view_of, IsAtRest};

    ghost Value = { SeatView };

    ghost view = { λ s. record { table = s.badge.table_id; parts = (view_of s.badge.views).parts; taken = (view_of s.badge.views).taken } };

    ghost invariant = { λ s. IsAtRest s.badge.views };
}

/// Values that threads take in turns, one for each place.
pub struct Turns<V: Tagged> {
    table: Table<Option<V>, Stand, u32, TurnRule, Global>,
    vector: EmptyVec<V>,
}

impl<V: Tagged> Model for Turns<V> {
    ghost use Rattle.std.specs.Prelude.{◌≡◌, ◌<◌, ◌≤◌};
    ghost use Rattle.rdm_turn.specs.Seating.{TurnsView};

    ghost Value = { TurnsView };

    ghost view = { λ t. record { table = t.table.shared.table_id; count = t.table.shared.table_id.slots; seats = t.table.shared.key; block = t.vector } };

    ghost invariant = { λ t. (t.table.shared.table_id.words ≡ t.table.shared.table_id.slots) × (0 < t.table.shared.table_id.slots) × (t.table.shared.table_id.slots ≤ t.vector.room) };
}

impl<V: Tagged> Turns<V> {
    /// A table of these values, and its first seat, which has all parts. `Err` is want of memory, and gives the values back in their vector.
    pub fn new(
        alloc: Global,
        mut values: Vec<V>,
        seats: u32,
    ) -> Result<(Turns<V>, TurnSeat), Vec<V>>
        requires some { 0 < vec_len values }
        requires seats { 0 < seats }
        requires fits { EachFits V.fits values.items }
        ensures table { IfOk result (λ made. (made.0.count ≡ vec_len values) × (made.0.seats ≡ seats) × (made.0.block ≡ block_of values)) }
        ensures seat { IfOk result (λ made. made.1 ≡ seat_with made.0.table seats) }
        ensures err { IfErr result (λ back. (back.items ≡ values.items) × (block_of back ≡ block_of values)) }
    {
        let Ok(words) = Vec::from_elem(alloc, 0u64, values.len()) else {
            return Err(values);
        };
        let Ok(slots) = into_slots(alloc, &mut values) else {
            return Err(values);
        };
        match EmptyVec::keep(alloc, values) {
            Ok(vector) => open(alloc, words.as_slice(), slots, vector, seats),
            Err(values) => Err(from_slots(values, slots)),
        }
    }

    /// Waits until nobody has the place, and takes its value.
    pub fn take<R: Wait>(&self, rt: &R, seat: &mut TurnSeat, i: usize) -> V
        requires own { IsSeatOf self.now seat.old }
        requires place { i < self.now.count }
        requires free { IsFalse (has_taken seat.old i) }
        ensures seat { seat.new ≡ after_take seat.old i }
        ensures fits { V.fits result i }
    {
        let mut sitter = sit(&mut seat.badge);
        claim(rt, &self.table.shared, &mut sitter, i);
        let value = lift(&self.table.shared, &mut sitter, i);
        seat.badge = sitter.into_badge();
        value
    }

    /// Gives a value back to its place.
    pub fn give(&self, seat: &mut TurnSeat, i: usize, value: V)
        requires own { IsSeatOf self.now seat.old }
        requires place { i < self.now.count }
        requires taken { IsTrue (has_taken seat.old i) }
        requires fits { V.fits value i }
        ensures { seat.new ≡ after_give seat.old i }
    {
        let mut sitter = sit(&mut seat.badge);
        lay(&self.table.shared, &mut sitter, i, value);
        leave(&self.table.shared, &mut sitter, i);
        seat.badge = sitter.into_badge();
    }

    /// A new seat, to which one of this seat's parts goes.
    pub fn split(&self, seat: &mut TurnSeat) -> TurnSeat
        requires own { IsSeatOf self.now seat.old }
        requires parts { 2 ≤ seat.old.parts }
        ensures left { seat.new ≡ after_split seat.old }
        ensures right { result ≡ seat_with seat.old.table 1 }
    {
        let mut sitter = sit::<V>(&mut seat.badge);
        let other = self.table.shared.split_seat::<OnePart>(&mut sitter);
        seat.badge = sitter.into_badge();
        TurnSeat {
            badge: other.into_badge(),
        }
    }

    /// Adds the parts of the other seat, which has no place, to those of this one.
    pub fn join(&self, seat: &mut TurnSeat, other: TurnSeat)
        requires own { IsSeatOf self.now seat.old × IsSeatOf self.now other }
        requires none { other.taken ≡ [] }
        ensures { seat.new ≡ after_join seat.old other }
    {
        let mut sitter = sit::<V>(&mut seat.badge);
        let other = other.badge.into_seat();
        self.table.shared.join_seat::<Together>(&mut sitter, other);
        seat.badge = sitter.into_badge();
    }

    /// The values, in order, in the vector that `new` was given. It takes no memory.
    pub fn close(self, seat: TurnSeat) -> Vec<V>
        requires own { IsSeatOf self seat }
        requires parts { seat.parts ≡ self.seats }
        requires none { seat.taken ≡ [] }
        ensures fits { EachFits V.fits result.items }
        ensures count { vec_len result ≡ self.count }
        ensures refilled { block_of result ≡ self.block }
    {
        let Turns { table, vector } = self;
        let TurnSeat { badge } = seat;
        refill(vector.into_vec(), table.close_with(badge.into_seat()))
    }
}

/// A table of these slots, which keeps the vector that their values came in.
fn open<V: Tagged>(
    alloc: Global,
    words: &[u64],
    slots: Vec<Option<V>>,
    vector: EmptyVec<V>,
    seats: u32,
) -> Result<(Turns<V>, TurnSeat), Vec<V>>
    requires words { words.now ≡ replicate (length (values_of slots.items)) 0 }
    requires some { (0 < vec_len slots) × (0 < seats) }
    requires full { slots.items ≡ map Some (values_of slots.items) }
    requires fits { EachFits V.fits (values_of slots.items) }
    requires room { vec_len slots ≤ vector.room }
    ensures table { IfOk result (λ made. (made.0.count ≡ vec_len slots) × (made.0.seats ≡ seats) × (made.0.block ≡ vector)) }
    ensures seat { IfOk result (λ made. made.1 ≡ seat_with made.0.table seats) }
    ensures err { IfErr result (λ back. (back.items ≡ values_of slots.items) × (block_of back ≡ vector)) }
{
    match Table::new(alloc, words, slots, &seats) {
        Ok((table, seat)) => {
            let badge = seat.into_badge();
            Ok((Turns { table, vector }, TurnSeat { badge }))
        }
        Err(Refused { slots }) => Err(from_slots(vector.into_vec(), slots)),
    }
}

/// The seat of a badge, which is left blank.
fn sit<V: Tagged>(badge: &mut Badge<Stand>) -> Sitter<V>
    requires { (v : Stand) × (badge.old.views ≡ v ∷ []) }
    ensures { (result.table_id ≡ badge.old.table_id) × (result.id ≡ badge.old.id) × (badge.old.views ≡ result.me.0 ∷ []) × (result.me.1 ≡ []) }
{
    mem::replace(badge, Badge::blank()).into_seat()
}
