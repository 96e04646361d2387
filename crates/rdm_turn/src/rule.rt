//! What a seat knows, the rule of the table, and what each step tells. It is for the proofs: no value of it is made.
ghost use Rattle.rdm_turn.specs.Telling.{one_fewer, newcomer, joined, spent, Claimed, Lifted, Emptied, Opened, Filled, Left};

use crate::Tagged;
use atomic_table::{Join, Play, Split, TableRule};
use std::collections::LinkedList;

/// The place that a seat is busy with, if there is one.
pub enum Hand {
    Nothing,
    /// Its slot is at home with a value.
    Full(usize),
    /// Its slot is out with the seat.
    Out(usize),
}

/// What a seat knows.
pub struct Stand {
    pub parts: u32,
    /// The places that it has taken, whose slots are at home and empty.
    pub taken: LinkedList<usize>,
    pub hand: Hand,
}

/// The table is told how many parts its seats have together, and its first seat has them all.
pub struct TurnRule;

impl<V: Tagged> TableRule<Option<V>, Stand, u32> for TurnRule {
    ghost use Rattle.std.specs.Prelude.{[]};
    ghost use Rattle.rdm_turn.specs.declared.rule.Hand.TheVariants.{Nothing};
    ghost use Rattle.rdm_turn.specs.Knowing.{stand};
    ghost use Rattle.rdm_turn.specs.Turning.{Turning};

    ghost holds = { Turning V.fits };

    ghost first = { λ seats. stand seats [] Nothing };
}

/// The word of a free place becomes 1.
pub struct Claims;

impl<V> Play<Option<V>, Stand> for Claims {
    ghost then = { Claimed };
}

/// The full slot goes out with the seat.
pub struct Lifts;

impl<V: Tagged> Play<Option<V>, Stand> for Lifts {
    ghost then = { Lifted V.fits };
}

/// The slot comes home empty.
pub struct Empties;

impl<V> Play<Option<V>, Stand> for Empties {
    ghost then = { Emptied };
}

/// The empty slot goes out with the seat.
pub struct Opens;

impl<V> Play<Option<V>, Stand> for Opens {
    ghost then = { Opened };
}

/// The slot comes home with a value that fits the place.
pub struct Fills;

impl<V> Play<Option<V>, Stand> for Fills {
    ghost then = { Filled };
}

/// The word of a place whose slot is full becomes 0.
pub struct Leaves;

impl<V> Play<Option<V>, Stand> for Leaves {
    ghost then = { Left };
}

/// A part goes to a new seat.
pub struct OnePart;

impl Split<Stand> for OnePart {
    ghost left = { one_fewer };

    ghost right = { λ _. newcomer };
}

/// A seat without places gives its parts to another.
pub struct Together;

impl Join<Stand> for Together {
    ghost both = { joined };

    ghost spent = { spent };
}
