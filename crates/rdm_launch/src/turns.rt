//! One turn of a port.
ghost use Rattle.std.specs.Prelude.{◌≡◌};
ghost use Rattle.rdm_launch.specs.Fitting.{FitsPlace, IsAtWork};
ghost use Rattle.rdm_launch.specs.Outcomes.{outcome_of_next, outcome_of_handled, outcome_of_polled};

use crate::stations::{Naming, Station};
use rdm_inbox::{PortWire, Queues};
use rdm_model::{Handled, Next, Polled, Push};
use rdm_port::Port;
use std::alloc::Global;
use std::sync::Wait;

/// How many datagrams a push turn pushes at most.
const MOST_PUSHES: u32 = 8;

/// What a port does in a turn.
#[derive(Clone, Copy, Debug, PartialEq, Eq)]
pub enum Task {
    Next,
    Push,
    /// With that pick.
    Handle(u64),
    Poll,
}

/// What a turn came to.
#[derive(Clone, Copy, Debug, PartialEq, Eq)]
pub enum Outcome {
    /// It made an entry.
    Entered,
    Idle,
    /// No instruction is left.
    Ended,
    Memory,
}

#[tactic(auto, unfolding(crate::specs::Outcomes::outcome_of_next))]
fn of_next(answer: Next) -> Outcome
    ensures { result ≡ outcome_of_next answer }
{
    match answer {
        Next::Did(_) => Outcome::Entered,
        Next::Refused(_) => Outcome::Entered,
        Next::Ended => Outcome::Ended,
        Next::Memory => Outcome::Memory,
        _ => Outcome::Idle,
    }
}

#[tactic(auto, unfolding(crate::specs::Outcomes::outcome_of_handled))]
fn of_handled(answer: Handled) -> Outcome
    ensures { result ≡ outcome_of_handled answer }
{
    match answer {
        Handled::Took(_) => Outcome::Entered,
        Handled::Dropped(_) => Outcome::Entered,
        Handled::Memory => Outcome::Memory,
        _ => Outcome::Idle,
    }
}

#[tactic(auto, unfolding(crate::specs::Outcomes::outcome_of_polled))]
fn of_polled(answer: Polled) -> Outcome
    ensures { result ≡ outcome_of_polled answer }
{
    match answer {
        Polled::Some(_) => Outcome::Entered,
        _ => Outcome::Idle,
    }
}

/// Pushes one datagram.
fn push_one<'a, J: Naming, R: Wait>(
    alloc: Global,
    port: &mut Port,
    wire: &mut PortWire<'a, R>,
) -> Push
    requires { IsAtWork J.tables J.starts port.old wire.old port.old.number }
    ensures { IsAtWork J.tables J.starts port.new wire.new port.old.number }
{
    port.push(alloc, wire)
}

/// Pushes datagrams, until none can be pushed or the turn has had its share.
fn push_some<'a, J: Naming, R: Wait>(
    alloc: Global,
    port: &mut Port,
    wire: &mut PortWire<'a, R>,
) -> Outcome
    requires { IsAtWork J.tables J.starts port.old wire.old port.old.number }
    ensures { IsAtWork J.tables J.starts port.new wire.new port.old.number }
{
    let mut outcome = Outcome::Idle;
    for _push in 0..MOST_PUSHES {
        match push_one::<J, R>(alloc, port, wire) {
            Push::Pushed(_) => outcome = Outcome::Entered,
            Push::Memory => return Outcome::Memory,
            _ => return outcome,
        }
    }
    outcome
}

/// Does the task.
fn do_task<'a, J: Naming, R: Wait>(
    alloc: Global,
    port: &mut Port,
    wire: &mut PortWire<'a, R>,
    task: Task,
) -> Outcome
    requires { IsAtWork J.tables J.starts port.old wire.old port.old.number }
    ensures { IsAtWork J.tables J.starts port.new wire.new port.old.number }
{
    match task {
        Task::Next => of_next(port.next(alloc)),
        Task::Push => push_some::<J, R>(alloc, port, wire),
        Task::Handle(pick) => of_handled(port.handle(alloc, wire, pick)),
        Task::Poll => of_polled(port.poll()),
    }
}

/// One turn of a port, which fits its place before and after it.
pub fn turn<J: Naming, R: Wait>(
    rt: &R,
    alloc: Global,
    queues: &Queues,
    station: Station<J>,
    task: Task,
) -> (Station<J>, Outcome)
    requires named { queues.now.tables ≡ J.tables }
    requires fits { FitsPlace J.tables J.starts station.port station.passes station.port.number }
    ensures { FitsPlace J.tables J.starts result.0.port result.0.passes station.port.number }
{
    let Station {
        mut port,
        passes,
        of,
    } = station;
    let mut wire = queues.wire(rt, passes);
    let outcome = do_task::<J, R>(alloc, &mut port, &mut wire, task);
    let passes = wire.passes();
    (Station { port, passes, of }, outcome)
}
