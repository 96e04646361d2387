//! The steps of a seat at one place.
ghost use Rattle.std.specs.Prelude.{◌≡◌, IsTrue, IsFalse};
ghost use Rattle.rdm_turn.specs.declared.rule.Hand.TheVariants.{Nothing, Full};
ghost use Rattle.rdm_turn.specs.Knowing.{is_among};
ghost use Rattle.rdm_turn.specs.Telling.{HasInHand, with_in_hand, with_taken, without_taken};
ghost use Rattle.rdm_turn.specs.Seating.{IsPlace};

use crate::Tagged;
use crate::rule::{Claims, Empties, Fills, Leaves, Lifts, Opens, Stand, TurnRule};
use atomic_table::{Seat, Shared};
use std::sync::Wait;

pub type Board<V> = Shared<Option<V>, Stand, u32, TurnRule>;

pub type Sitter<V> = Seat<Option<V>, Stand>;

/// Waits until nobody has the place, and takes it. Its slot has a value.
pub fn claim<V: Tagged, R: Wait>(rt: &R, board: &Board<V>, seat: &mut Sitter<V>, i: usize)
    requires own { seat.old.table_id ≡ board.now.table_id }
    requires place { IsPlace board.now.table_id i }
    requires seat { HasInHand Nothing seat.old.me }
    ensures same { (seat.new.table_id ≡ seat.old.table_id) × (seat.new.id ≡ seat.old.id) }
    ensures seat { seat.new.me ≡ with_in_hand (Full i) seat.old.me.0 }
{
    for _ in rt.forever() {
        if board.compare_exchange::<Claims>(seat, i, 0, 1) == 0 {
            return;
        }
        board.park(rt, i, 1);
    }
    unreachable!()
}

/// Takes the value out of the slot.
pub fn lift<V: Tagged>(board: &Board<V>, seat: &mut Sitter<V>, i: usize) -> V
    requires own { seat.old.table_id ≡ board.now.table_id }
    requires place { IsPlace board.now.table_id i }
    requires seat { HasInHand (Full i) seat.old.me }
    ensures same { (seat.new.table_id ≡ seat.old.table_id) × (seat.new.id ≡ seat.old.id) }
    ensures seat { seat.new.me ≡ with_in_hand Nothing (with_taken i seat.old.me.0) }
    ensures fits { V.fits result i }
{
    board.load::<Lifts>(seat, i);
    let value = board.exchange(seat, i, None);
    board.load::<Empties>(seat, i);
    match value {
        Some(value) => value,
        None => unreachable!(),
    }
}

/// Puts the value into the slot of a taken place.
pub fn lay<V: Tagged>(board: &Board<V>, seat: &mut Sitter<V>, i: usize, value: V)
    requires own { seat.old.table_id ≡ board.now.table_id }
    requires place { IsPlace board.now.table_id i }
    requires seat { HasInHand Nothing seat.old.me }
    requires taken { IsTrue (is_among i seat.old.me.0.taken) }
    requires fits { V.fits value i }
    ensures same { (seat.new.table_id ≡ seat.old.table_id) × (seat.new.id ≡ seat.old.id) }
    ensures seat { seat.new.me ≡ with_in_hand (Full i) (without_taken i seat.old.me.0) }
{
    board.load::<Opens>(seat, i);
    match board.exchange(seat, i, Some(value)) {
        None => {}
        Some(_) => unreachable!(),
    }
    board.load::<Fills>(seat, i);
}

/// Leaves the place, and wakes one who waits for it.
pub fn leave<V: Tagged>(board: &Board<V>, seat: &mut Sitter<V>, i: usize)
    requires own { seat.old.table_id ≡ board.now.table_id }
    requires place { IsPlace board.now.table_id i }
    requires seat { HasInHand (Full i) seat.old.me }
    requires once { IsFalse (is_among i seat.old.me.0.taken) }
    ensures same { (seat.new.table_id ≡ seat.old.table_id) × (seat.new.id ≡ seat.old.id) }
    ensures seat { seat.new.me ≡ with_in_hand Nothing seat.old.me.0 }
{
    board.store::<Leaves>(seat, i, 0);
    board.wake_one(i);
}
