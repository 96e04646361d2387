//! The threads of a launch.
ghost use Rattle.std.specs.Prelude.{◌≡◌, ◌<◌, ◌≤◌, []};
ghost use Rattle.std.specs.Thread.{IsSync};
ghost use Rattle.rdm_turn.specs.Seating.{IsSeatOf};

use crate::gate::{Gate, Who};
use crate::stations::{Naming, Station};
use crate::turns::{Outcome, Task, turn};
use rdm_inbox::Queues;
use rdm_turn::{TurnSeat, Turns};
use std::alloc::Global;
use std::sync::Wait;
use std::thread::{Threads, join, yield_now};

/// After so many turns in a row that made no entry a thread ends.
const MOST_IDLE: u32 = 1000;

/// The thread of that number and its port's place, where there are so many ports: first a poster for
/// each port, and then a progress thread for each, as often as there are.
fn who_of(thread: u32, ports: u32) -> (Who, usize)
    requires { 0 < ports }
    ensures { result.1 < ports }
{
    let rank = thread % ports;
    let row = thread / ports;
    let who = if row == 0 {
        Who::Poster(rank)
    } else {
        Who::Progress(rank, row - 1)
    };
    (who, rank as usize)
}

/// What a thread does in the turn of that number.
fn task_of(who: Who, turn: u64) -> Task {
    match who {
        Who::Poster(_) => Task::Next,
        Who::Progress(_, _) => match turn % 3 {
            0 => Task::Push,
            1 => Task::Handle(turn),
            _ => Task::Poll,
        },
    }
}

/// How many turns in a row were idle after one more, or nothing where the thread ends.
fn idle_after(idle: u32, outcome: Outcome) -> Option<u32> {
    match outcome {
        Outcome::Entered => Some(0),
        Outcome::Idle if idle < MOST_IDLE - 1 => Some(idle + 1),
        _ => None,
    }
}

/// Takes turns with a port, until the thread ends.
fn work<J: Naming, R: Wait, G: Gate>(
    rt: &R,
    alloc: Global,
    queues: &Queues,
    turns: &Turns<Station<J>>,
    gate: &G,
    who: Who,
    place: usize,
    mut seat: TurnSeat,
) -> TurnSeat
    requires named { queues.now.tables ≡ J.tables }
    requires own { IsSeatOf turns.now seat × (seat.taken ≡ []) }
    requires place { place < turns.now.count }
    ensures { result ≡ seat }
{
    let mut idle = 0;
    let mut count = 0u64;
    for _ in rt.forever() {
        let station = turns.take(rt, &mut seat, place);
        gate.pass(who, count);
        let (station, outcome) = turn(rt, alloc, queues, station, task_of(who, count));
        turns.give(&mut seat, place, station);
        match idle_after(idle, outcome) {
            Some(more) => idle = more,
            None => break,
        }
        if idle > 0 {
            yield_now();
        }
        count = count.wrapping_add(1);
    }
    seat
}

/// So many threads at once, each with a seat of its own.
pub fn crew<J: Naming + Send + Sync, R: Threads + Wait + Sync, G: Gate + Sync>(
    rt: &R,
    alloc: Global,
    queues: &Queues,
    turns: &Turns<Station<J>>,
    gate: &G,
    ports: u32,
    threads: u32,
    mut seat: TurnSeat,
) -> TurnSeat
    requires named { queues.now.tables ≡ J.tables }
    requires own { IsSeatOf turns.now seat × (seat.taken ≡ []) }
    requires parts { threads < seat.parts }
    requires ports { (0 < ports) × (ports ≤ turns.now.count) }
    ensures { result ≡ seat }
{
    if threads == 0 {
        return seat;
    }
    let left = threads - 1;
    let (who, place) = who_of(left, ports);
    let other = turns.split(&mut seat);
    let (mut seat, other) = join(
        rt,
        move ||
            requires { IsSync R.row × IsSync G.row × (queues.now.tables ≡ J.tables) × IsSeatOf turns.now seat × (seat.taken ≡ []) × (left < seat.parts) × (0 < ports) × (ports ≤ turns.now.count) }
            ensures { result ≡ seat }
        { crew(rt, alloc, queues, turns, gate, ports, left, seat) },
        move ||
            requires { (queues.now.tables ≡ J.tables) × IsSeatOf turns.now other × (other.taken ≡ []) × (place < turns.now.count) }
            ensures { result ≡ other }
        { work(rt, alloc, queues, turns, gate, who, place, other) },
    );
    turns.join(&mut seat, other);
    seat
}
