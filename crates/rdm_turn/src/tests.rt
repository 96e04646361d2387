ghost use Rattle.std.specs.Prelude.{◌≡◌, ◌<◌, [], IfOk, vec_len};
ghost use Rattle.rdm_turn.specs.Slots.{EachFits};
ghost use Rattle.rdm_turn.specs.Seating.{IsSeatOf, seat_with};

use crate::{Tagged, TurnSeat, Turns};
use std::alloc::{AllocError, Global};
use std::cell::Cell;
use std::sync::Wait;
use std::test::Fail;
use std::thread::{self, Threads};

/// It counts its visits, and fits where its name is the place. It must be spent, and threads may not share it.
struct Counted {
    name: usize,
    visits: Cell<u64>,
}

impl Tagged for Counted {
    ghost use Rattle.std.specs.Prelude.{◌≡◌};

    ghost fits = { λ v i. v.name ≡ i };
}

fn unvisited(name: usize) -> Counted
    ensures { result.name ≡ name }
{
    Counted {
        name,
        visits: Cell::new(0),
    }
}

fn visit(value: &Counted) {
    value.visits.set(value.visits.get().wrapping_add(1));
}

/// The name and the visits of a value, which is spent.
fn spend(value: Counted) -> (usize, u64) {
    let Counted { name, visits } = value;
    (name, visits.get())
}

/// Spends values of which nothing is to be known.
fn spend_all(mut values: Vec<Counted>) {
    while let Some(value) = values.pop() {
        spend(value);
    }
    values.destroy_empty();
}

/// One value in a vector with room for more.
fn one_value(alloc: Global) -> Result<Vec<Counted>, AllocError>
    ensures fits { IfOk result (λ values. EachFits (λ value place. value.name ≡ place) values.items) }
    ensures count { IfOk result (λ values. vec_len values ≡ 1) }
{
    let mut values = Vec::with_capacity(alloc, 7)?;
    values.push_reserved(unvisited(0));
    Ok(values)
}

fn two_values(alloc: Global) -> Result<Vec<Counted>, AllocError>
    ensures fits { IfOk result (λ values. EachFits (λ value place. value.name ≡ place) values.items) }
    ensures count { IfOk result (λ values. vec_len values ≡ 2) }
{
    let mut values = Vec::with_capacity(alloc, 2)?;
    values.push_reserved(unvisited(0));
    values.push_reserved(unvisited(1));
    Ok(values)
}

/// A table of these values for two seats.
fn table_of(alloc: Global, values: Vec<Counted>) -> Result<(Turns<Counted>, TurnSeat), AllocError>
    requires fits { EachFits (λ value place. value.name ≡ place) values.items }
    requires some { 0 < vec_len values }
    ensures count { IfOk result (λ made. made.0.count ≡ vec_len values) }
    ensures seats { IfOk result (λ made. (made.0.seats ≡ 2) × (made.1 ≡ seat_with made.0.table 2)) }
{
    match Turns::new(alloc, values, 2) {
        Ok(made) => Ok(made),
        Err(values) => {
            spend_all(values);
            Err(AllocError)
        }
    }
}

#[test]
fn two_seats_give_both_values_back_in_order(rt: HostRuntime) -> Result<(), Fail> {
    let (turns, mut first) = table_of(rt.alloc(), two_values(rt.alloc())?)?;
    let mut second = turns.split(&mut first);
    let zero = turns.take(&rt, &mut first, 0);
    let one = turns.take(&rt, &mut second, 1);
    let names = (zero.name, one.name);
    visit(&zero);
    turns.give(&mut second, 1, one);
    turns.give(&mut first, 0, zero);
    turns.join(&mut first, second);
    let mut values = turns.close(first);
    let last = spend(values.take_last());
    let other = spend(values.take_last());
    values.destroy_empty();
    assert!(rt; names == (0, 1) && other == (0, 1) && last == (1, 0));
    Ok(())
}

/// Takes place 0 a hundred times, visits its value, and gives it back.
fn visit_often<R: Wait>(rt: &R, turns: &Turns<Counted>, mut seat: TurnSeat) -> TurnSeat
    requires { IsSeatOf turns.now seat × (seat.taken ≡ []) × (0 < turns.now.count) }
    ensures { result ≡ seat }
{
    for _ in 0..100 {
        let value = turns.take(rt, &mut seat, 0);
        visit(&value);
        turns.give(&mut seat, 0, value);
    }
    seat
}

/// The name and the visits of a value at which two threads took turns.
fn taken_by_two_threads<R: Threads + Wait + Sync>(
    rt: &R,
    alloc: Global,
) -> Result<(usize, u64), AllocError> {
    let (made, mut first) = table_of(alloc, one_value(alloc)?)?;
    let turns = &made;
    let second = turns.split(&mut first);
    let (mut first, second) = thread::join(
        rt,
        move ||
            requires { IsSeatOf turns.now first × (first.taken ≡ []) × (0 < turns.now.count) }
            ensures { result ≡ first }
        { visit_often(rt, turns, first) },
        move ||
            requires { IsSeatOf turns.now second × (second.taken ≡ []) × (0 < turns.now.count) }
            ensures { result ≡ second }
        { visit_often(rt, turns, second) },
    );
    turns.join(&mut first, second);
    let mut values = made.close(first);
    let only = spend(values.take_last());
    values.destroy_empty();
    Ok(only)
}

// A wake that is lost, or a park on the wrong word, shows in one run of many alone.
#[test]
fn two_threads_take_turns(rt: HostRuntime) -> Result<(), Fail> {
    for _ in 0..100 {
        assert!(rt; taken_by_two_threads(&rt, rt.alloc())? == (0, 200));
    }
    Ok(())
}

fn is_shared<T: Sync>(_value: &T) {}

fn is_sent<T: Send>(_value: &T) {}

/// A table may be shared and sent where its values may be sent, and a seat always.
fn crosses<V: Tagged + Send>(turns: &Turns<V>, seat: &TurnSeat) {
    is_shared(turns);
    is_sent(turns);
    is_sent(seat);
}

#[test]
fn the_vector_comes_back(rt: HostRuntime) -> Result<(), Fail> {
    let (turns, seat) = table_of(rt.alloc(), one_value(rt.alloc())?)?;
    crosses(&turns, &seat);
    let values = turns.close(seat);
    let room = values.capacity();
    spend_all(values);
    assert!(rt; room == 7);
    Ok(())
}
