//! The steps of a port.
ghost use Rattle.std.specs.Prelude.{◌≡◌, ◌≢◌, ◌⊎◌, ◌≤◌, ◌+◌, ◌-◌, ℕ, true, false, length, OnOk, IsOk};
ghost use Rattle.rdm_model.specs.Answers as Answers;
ghost use Rattle.rdm_model.specs.declared.answer.Next.TheVariants as NextKind;
ghost use Rattle.rdm_port.specs.Views.{PortView};
ghost use Rattle.rdm_port.specs.Kept.{IsKept, HasRoom, places_of, with_log, with_stash};
ghost use Rattle.rdm_port.specs.Machine as Machine;
ghost use Rattle.rdm_port.specs.Machine.{IsOwnedBy, unless_worn, machine_answer, machine_next, extra_places};
ghost use Rattle.rdm_port.specs.Nexts.{DoesNext, NextTakesNone};
ghost use Rattle.rdm_port.specs.Pushes.{DoesPush, PushesOn, FullRose, IsKeptWire};
ghost use Rattle.rdm_port.specs.Handles as Handles;
ghost use Rattle.rdm_port.specs.Polls.{DoesPoll};
ghost use Rattle.rdm_port.specs.Movings.{LogsNone, PushMoves, AnswerMoves};

use crate::effects::Owner;
use crate::kept::State;
use rdm_model::{Act, Entries, Entry, Handled, Instr, Next, OpName, Ops, Polled, Push};
use rdm_num::{DatagramNo, EpLimits, NoMemory, PortNo, Room, STAMP_MAX, Stamp};
use rdm_wire::{Datagram, Wire};
use std::alloc::{AllocError, Global};

/// What an instruction answers now, where an end of the clock comes before an entry.
#[tactic(auto, unfolding(crate::specs::Machine::unless_worn))]
fn answer_now(number: PortNo, limits: &EpLimits, state: &State, instr: &Instr) -> Next
    ensures says { (v : PortView) → v.number ≡ number.0 → v.limits ≡ limits.now → (result ≡ NextKind.Memory) ⊎ (result ≡ unless_worn state.now (machine_answer v state.now instr.now)) }
    ensures spared { (v : PortView) → Machine.takes_memory instr.now ≡ false → result ≡ unless_worn state.now (machine_answer v state.now instr.now) }
{
    let answer = state.answer(number, limits, instr);
    if is_entry(answer) && STAMP_MAX <= state.clock {
        return Next::Worn;
    }
    answer
}

/// What the next instruction answers, want of memory aside.
#[tactic(auto, unfolding(crate::specs::Machine::left_answer_in))]
pub fn next_answer(number: PortNo, limits: &EpLimits, ops: &Ops, state: &State) -> Next
    ensures { (v : PortView) → v.number ≡ number.0 → v.limits ≡ limits.now → v.rank.ops ≡ ops.now → (result ≡ NextKind.Memory) ⊎ (result ≡ machine_next v state.now) }
{
    match ops.as_slice().get(state.done as usize) {
        None => Next::Ended,
        Some(instr) => answer_now(number, limits, state, instr),
    }
}

/// The instruction takes memory beside that of its entry.
#[tactic(auto, unfolding(crate::specs::Machine::takes_memory))]
fn takes_memory(instr: &Instr) -> bool
    ensures { result ≡ Machine.takes_memory instr.now }
{
    match instr {
        Instr::Cancel { recv: _ } => false,
        Instr::Await { from: _, what: _ } => false,
        Instr::Wait { count: _ } => false,
        _ => true,
    }
}

/// Takes room for the entry of the completion that an instruction may owe. The room for its own
/// entry was taken when the port was made.
fn take_room(all: usize, instr: &Instr, state: &State, log: &mut Entries) -> Result<(), NoMemory>
    requires { HasRoom all log.old.room state.now }
    ensures list { log.new.list ≡ log.old.list }
    ensures kept { log.old.room ≤ log.new.room }
    ensures ok { OnOk result (places_of state.now.endpoint + (all - state.now.done) + extra_places instr.now ≤ log.new.room) }
    ensures spared { Machine.takes_memory instr.now ≡ false → IsOk result }
{
    if !takes_memory(instr) {
        return Ok(());
    }
    match state.entries_and_one(all) {
        Some(more) => log.reserve(more),
        None => Err(AllocError),
    }
}

/// Does the next instruction.
pub fn do_next(
    alloc: Global,
    owner: &Owner,
    ops: &Ops,
    state: &mut State,
    log: &mut Entries,
) -> Next
    requires { HasRoom (length ops.now) log.old.room state.old }
    ensures does { (v : PortView) → IsOwnedBy v owner.now → v.rank.ops ≡ ops.now → v.log ≡ log.old.list → IsKept v state.old → IsKept (with_log v log.new.list) state.new × DoesNext v (with_log v log.new.list) result }
    ensures room { HasRoom (length ops.now) log.new.room state.new }
    ensures spared { (v : PortView) → v.rank.ops ≡ ops.now → IsKept v state.old → NextTakesNone v → result ≢ NextKind.Memory }
    ensures moves { LogsNone log.old.list log.new.list }
{
    let Some(instr) = ops.as_slice().get(state.done as usize) else {
        return Next::Ended;
    };
    let answer = answer_now(owner.number, &owner.limits, state, instr);
    if !is_entry(answer) {
        return answer;
    }
    let Ok(()) = take_room(ops.as_slice().len(), instr, state, log) else {
        return Next::Memory;
    };
    let Ok(()) = state.follow(alloc, owner, instr, answer) else {
        return Next::Memory;
    };
    let index = state.done;
    let now = state.clock.saturating_add(1);
    state.done = index.saturating_add(1);
    state.clock = now;
    log.push(Entry {
        stamp: Stamp(now),
        port: owner.number,
        act: Act::Next {
            index,
            op: op_of(instr),
            answer,
        },
    });
    answer
}

/// Pushes the next datagram.
pub fn do_push<W: Wire>(
    alloc: Global,
    number: PortNo,
    ports: u32,
    all: usize,
    state: &mut State,
    log: &mut Entries,
    wire: &mut W,
) -> Push
    requires serves { W.serves wire.old number.0 ≡ true }
    requires ports { W.ports wire.old ≡ ports }
    ensures does { (v : PortView) → v.number ≡ number.0 → v.log ≡ log.old.list → IsKept v state.old → IsKept (with_log v log.new.list) state.new × DoesPush v (with_log v log.new.list) result }
    ensures room { HasRoom all log.old.room state.old → HasRoom all log.new.room state.new }
    ensures wire { PushesOn (W.in_order wire.old) log.new.list result (W.held wire.old) (W.held wire.new) }
    ensures full { FullRose (W.fulls wire.old) (W.fulls wire.new) result }
    ensures kept { IsKeptWire W.ports W.serves wire.old wire.new }
    ensures queues { (W.tables wire.new ≡ W.tables wire.old) × (W.empties wire.new ≡ W.empties wire.old) }
    ensures moves { PushMoves log.old.list log.new.list result (W.account wire.old) (W.account wire.new) }
{
    let Ok(departing) = state.departing(alloc) else {
        return Push::Memory;
    };
    let Some(departure) = departing else {
        return Push::Idle;
    };
    if STAMP_MAX <= state.clock {
        return Push::Worn;
    }
    let dst = departure.dst;
    if ports <= dst.0 {
        return Push::Memory;
    }
    let Some(places) = state.entries_and_one(all) else {
        return Push::Memory;
    };
    let Ok(()) = log.reserve(places) else {
        return Push::Memory;
    };
    let stamp = Stamp(state.clock.saturating_add(1));
    let datagram = Datagram {
        src: number,
        number: DatagramNo(state.pushed),
        stamp,
        dst,
        body: departure.body,
    };
    let Ok(copy) = datagram.clone() else {
        return Push::Memory;
    };
    let Ok(()) = wire.push(datagram) else {
        return Push::Full(dst);
    };
    let pushed = DatagramNo(state.pushed);
    state.went(&copy.body);
    state.pushed = state.pushed.saturating_add(1);
    state.clock = stamp.0;
    log.push(Entry {
        stamp,
        port: number,
        act: Act::Push { datagram: copy },
    });
    Push::Pushed(pushed)
}

/// Handles the datagram that is picked.
pub fn do_handle(
    alloc: Global,
    number: PortNo,
    pick: u64,
    all: usize,
    stash: &mut Room<Datagram>,
    state: &mut State,
    log: &mut Entries,
) -> Handled
    ensures does { (v : PortView) → v.number ≡ number.0 → v.log ≡ log.old.list → v.stash ≡ stash.old.list → IsKept v state.old → IsKept (with_stash v log.new.list stash.new.list) state.new × Handles.Answers v (with_stash v log.new.list stash.new.list) pick result }
    ensures moves { (v : PortView) → v.number ≡ number.0 → v.log ≡ log.old.list → v.stash ≡ stash.old.list → IsKept v state.old → AnswerMoves log.old.list log.new.list stash.old.list stash.new.list result }
    ensures room { HasRoom all log.old.room state.old → HasRoom all log.new.room state.new }
{
    let count = stash.len() as u64;
    if count == 0 {
        return Handled::Empty;
    }
    let at = (pick % count) as usize;
    let Some(places) = state.entries_and_one(all) else {
        return Handled::Memory;
    };
    let Ok(()) = log.reserve(places) else {
        return Handled::Memory;
    };
    let datagram = &stash.as_slice()[at];
    let late = state.clock.max(datagram.stamp.0);
    if STAMP_MAX <= late {
        return match state.waits_early(alloc, datagram) {
            Ok(true) => Handled::AgainEarly,
            Ok(false) => Handled::Worn,
            Err(_) => Handled::Memory,
        };
    }
    let answer = state.handle(alloc, datagram);
    if !is_handling(answer) {
        return answer;
    }
    let datagram = stash.remove(at);
    let stamp = Stamp(late.saturating_add(1));
    state.clock = stamp.0;
    log.push(Entry {
        stamp,
        port: number,
        act: Act::Handle { datagram, answer },
    });
    answer
}

/// Polls the first completion. The room for its entry was taken when its operation was accepted.
pub fn do_poll(number: PortNo, state: &mut State, log: &mut Entries) -> Polled
    requires room { places_of state.old.endpoint ≤ log.old.room }
    ensures does { (v : PortView) → v.number ≡ number.0 → v.log ≡ log.old.list → IsKept v state.old → IsKept (with_log v log.new.list) state.new × DoesPoll v (with_log v log.new.list) result }
    ensures moves { LogsNone log.old.list log.new.list }
    ensures room { (all : ℕ) → HasRoom all log.old.room state.old → HasRoom all log.new.room state.new }
{
    if !state.has_completion() {
        return Polled::None;
    }
    if STAMP_MAX <= state.clock {
        return Polled::Worn;
    }
    let Some(twin) = state.poll() else {
        return Polled::None;
    };
    let (completion, copy) = twin.into_both();
    let stamp = Stamp(state.clock.saturating_add(1));
    state.clock = stamp.0;
    log.push(Entry {
        stamp,
        port: number,
        act: Act::Poll { completion: copy },
    });
    Polled::Some(completion)
}

/// Such an answer to a datagram is an entry.
#[tactic(auto, unfolding(crate::specs::Handles::is_handling))]
pub fn is_handling(answer: Handled) -> bool
    ensures { result ≡ Handles.is_handling answer }
{
    match answer {
        Handled::Took(_) => true,
        Handled::Dropped(_) => true,
        _ => false,
    }
}

/// Such an answer is an entry.
#[tactic(auto, unfolding(rdm_model::specs::Answers::is_entry))]
pub fn is_entry(answer: Next) -> bool
    ensures { result ≡ Answers.is_entry answer }
{
    match answer {
        Next::Did(_) => true,
        Next::Refused(_) => true,
        _ => false,
    }
}

/// The word of an instruction.
#[tactic(auto, unfolding(rdm_model::specs::Answers::op_of))]
pub fn op_of(instr: &Instr) -> OpName
    ensures { result ≡ Answers.op_of instr.now }
{
    match instr {
        Instr::OpenLife { connid: _ } => OpName::Open,
        Instr::Insert { life: _ } => OpName::Insert,
        Instr::Reg { content: _ } => OpName::Reg,
        Instr::Send(_) => OpName::Send,
        Instr::Recv(_) => OpName::Recv,
        Instr::Cancel { recv: _ } => OpName::Cancel,
        Instr::Note { to: _, what: _ } => OpName::Note,
        Instr::Await { from: _, what: _ } => OpName::Await,
        Instr::Wait { count: _ } => OpName::Wait,
        Instr::CloseLife => OpName::Close,
    }
}
