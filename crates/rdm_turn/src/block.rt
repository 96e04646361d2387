//! The vector that the values came in, while they are in slots.
ghost use Rattle.std.specs.Prelude.{◌≡◌, ◌+◌, ◌<◌, ◌≤◌, ◌++◌, map, option_to_list, Some, IfOk, IfErr, OnErr, vec_len, vec_capacity};
ghost use Rattle.std.specs.Slots.{slots_items, slots_len, IsFull};
ghost use Rattle.rdm_turn.specs.Slots.{values_of, block_of};

use atomic_table::{Closed, Refused, Table, TableRule};
use std::alloc::{AllocError, Global};
use std::marker::Model;

/// A block of memory: where it lies, and for how many values it has room.
#[derive(Clone, Copy)]
pub struct Block {
    pub place: *const u8,
    pub room: usize,
}

/// The one slot keeps an empty vector that has the block of which the table is told. No step is made.
pub struct BlockRule;

impl<V> TableRule<Vec<V>, (), Block> for BlockRule {
    ghost use Rattle.rdm_turn.specs.Slots.{KeepsBlock};

    ghost holds = { KeepsBlock };

    ghost first = { λ _. tt };
}

/// An empty vector. Threads may share it where its values may only be sent, as a table lets them.
pub struct EmptyVec<V> {
    table: Table<Vec<V>, (), Block, BlockRule, Global>,
}

impl<V> Model for EmptyVec<V> {
    ghost use Rattle.std.specs.Prelude.{◌≡◌};
    ghost use Rattle.rdm_turn.specs.declared.block.Block.{Block};

    ghost Value = { Block };

    ghost view = { λ e. e.table.shared.key };

    ghost invariant = { λ e. e.table.shared.table_id.slots ≡ 1 };
}

impl<V> EmptyVec<V> {
    /// Keeps the vector, or gives it back where there is no memory.
    pub fn keep(alloc: Global, values: Vec<V>) -> Result<EmptyVec<V>, Vec<V>>
        requires { vec_len values ≡ 0 }
        ensures ok { IfOk result (λ e. e ≡ block_of values) }
        ensures err { IfErr result (λ back. back ≡ values) }
    {
        let block = Block {
            place: values.as_ptr() as *const u8,
            room: values.capacity(),
        };
        let Ok(mut slots) = Vec::with_capacity(alloc, 1) else {
            return Err(values);
        };
        slots.push_reserved(values);
        match Table::new(alloc, &[], slots, &block) {
            Ok((table, _seat)) => Ok(EmptyVec { table }),
            Err(Refused { mut slots }) => {
                let values = slots.take_last();
                slots.destroy_empty();
                Err(values)
            }
        }
    }

    /// The vector that was kept.
    pub fn into_vec(self) -> Vec<V>
        ensures empty { vec_len result ≡ 0 }
        ensures block { block_of result ≡ self }
    {
        let EmptyVec { table } = self;
        let mut closed = table.close();
        let values = closed.take(0);
        closed.free();
        values
    }
}

/// Moves the values into slots, in order. The vector keeps its block.
pub fn into_slots<V>(alloc: Global, values: &mut Vec<V>) -> Result<Vec<Option<V>>, AllocError>
    ensures slots { IfOk result (λ slots. (slots.items ≡ map Some values.old.items) × (vec_len values.new ≡ 0)) }
    ensures block { block_of values.new ≡ block_of values.old }
    ensures err { OnErr result (values.new.items ≡ values.old.items) }
{
    let mut slots = Vec::with_capacity(alloc, values.len())?;
    while !values.is_empty() {
        slots.push_reserved(Some(values.take_last()));
    }
    slots.as_mut_slice().reverse();
    Ok(slots)
}

/// Moves the values of the slots of a table back into the vector, in order. It takes no memory.
pub fn refill<V>(mut values: Vec<V>, mut closed: Closed<Option<V>, Global>) -> Vec<V>
    requires empty { vec_len values ≡ 0 }
    requires room { slots_len closed.slots ≤ vec_capacity values }
    requires full { IsFull closed.slots }
    ensures values { result.items ≡ values_of (slots_items closed.slots) }
    ensures block { block_of result ≡ block_of values }
{
    for i in 0..closed.slot_count() {
        add(&mut values, closed.take(i));
    }
    closed.free();
    values
}

/// The same, of slots that are in no table.
pub fn from_slots<V>(mut values: Vec<V>, mut slots: Vec<Option<V>>) -> Vec<V>
    requires empty { vec_len values ≡ 0 }
    requires room { vec_len slots ≤ vec_capacity values }
    ensures values { result.items ≡ values_of slots.items }
    ensures block { block_of result ≡ block_of values }
{
    while let Some(slot) = slots.pop() {
        add(&mut values, slot);
    }
    slots.destroy_empty();
    values.as_mut_slice().reverse();
    values
}

/// Adds the value of a slot, if it has one.
fn add<V>(values: &mut Vec<V>, slot: Option<V>)
    requires { vec_len values.old < vec_capacity values.old }
    ensures items { values.new.items ≡ values.old.items ++ option_to_list slot }
    ensures len { vec_len values.new ≤ vec_len values.old + 1 }
    ensures block { block_of values.new ≡ block_of values.old }
{
    if let Some(value) = slot {
        values.push_reserved(value);
    }
}
