//! A launch: threads run the ports of a job over inboxes.
ghost use Rattle.std.specs.Prelude.{◌≡◌, ◌≤◌, [], length, IfOk, OnOk, vec_len, vec_capacity};
ghost use Rattle.rdm_inbox.specs.Queues.{AreAllPasses};
ghost use Rattle.rdm_launch.specs.Packing.{AllFit};
ghost use Rattle.rdm_launch.specs.Launched.{CanLaunch, IsLaunched};

use crate::crews::crew;
use crate::fresh::end_all;
use crate::gate::Gate;
use crate::packing::{pack, unpack};
use crate::stations::Naming;
use rdm_inbox::{Inboxes, PortPasses, Queues};
use rdm_num::NoMemory;
use rdm_port::Port;
use rdm_turn::Turns;
use std::alloc::{AllocError, Global};
use std::marker::Brand;
use std::sync::Wait;
use std::thread::Threads;

/// Runs ports with their passes, by a poster and so many progress threads for each.
fn run<J: Naming + Send + Sync, R: Threads + Wait + Sync, G: Gate + Sync>(
    rt: &R,
    alloc: Global,
    queues: &Queues,
    ports: &mut Vec<Port>,
    all: &mut Vec<PortPasses>,
    progress: u32,
    gate: &G,
) -> Result<(), NoMemory>
    requires named { queues.now.tables ≡ J.tables }
    requires progress { progress ≤ 4 }
    requires some { (1 ≤ vec_len ports.old) × (vec_len ports.old ≤ 16) }
    requires count { vec_len all.old ≡ vec_len ports.old }
    requires fits { AllFit J.tables J.starts ports.old.items all.old.items }
    ensures fits { OnOk result (AllFit J.tables J.starts ports.new.items all.new.items) }
    ensures count { OnOk result ((vec_len ports.new ≡ vec_len ports.old) × (vec_len all.new ≡ vec_len ports.old)) }
{
    let count = ports.len() as u32;
    let threads = count * (progress + 1);
    let stations = pack::<J>(alloc, ports, all)?;
    match Turns::new(alloc, stations, threads + 1) {
        Ok((turns, seat)) => {
            let seat = crew(rt, alloc, queues, &turns, gate, count, threads, seat);
            unpack::<J>(turns.close(seat), ports, all);
            Ok(())
        }
        Err(stations) => {
            unpack::<J>(stations, ports, all);
            Err(AllocError)
        }
    }
}

/// The same of ports that own their inboxes, which know afterwards what is in flight.
fn run_named<'r, J: Naming + Send + Sync, R: Threads + Wait + Sync, G: Gate + Sync>(
    rt: &'r R,
    alloc: Global,
    queues: Queues,
    mut ports: Vec<Port>,
    mut all: Vec<PortPasses>,
    progress: u32,
    gate: &G,
) -> Result<(Vec<Port>, Inboxes<'r, R>), NoMemory>
    requires named { queues.tables ≡ J.tables }
    requires starts { ports.items ≡ J.starts }
    requires progress { progress ≤ 4 }
    requires some { (1 ≤ vec_len ports) × (vec_len ports ≤ 16) }
    requires count { (vec_len all ≡ vec_len ports) × (length queues.tables ≡ vec_len ports) }
    requires fits { AllFit J.tables J.starts ports.items all.items }
    ensures { IfOk result (λ made. IsLaunched J.starts made.0.items made.1) }
{
    match run::<J, R, G>(rt, alloc, &queues, &mut ports, &mut all, progress, gate) {
        Ok(()) => Ok((ports, queues.close(rt, all))),
        Err(error) => {
            end_all(ports);
            Err(error)
        }
    }
}

/// Runs all ports of a job, each by a thread that does its instructions and by so many that push,
/// handle and poll. `Err` is want of memory, which spends the ports.
pub fn launch<'r, R: Threads + Wait + Sync, G: Gate + Sync>(
    rt: &'r R,
    alloc: Global,
    ports: Vec<Port>,
    inboxes: Inboxes<'r, R>,
    progress: u32,
    gate: &G,
) -> Result<(Vec<Port>, Inboxes<'r, R>), NoMemory>
    requires progress { (1 ≤ progress) × (progress ≤ 4) }
    requires fresh { CanLaunch ports.items inboxes }
    ensures { IfOk result (λ made. IsLaunched ports.items made.0.items made.1) }
{
    match inboxes.open(alloc) {
        Ok((queues, all)) => run_named::<Brand, R, G>(
            rt, alloc, queues, ports, all, progress, gate,
        ),
        Err(_) => {
            end_all(ports);
            Err(AllocError)
        }
    }
}
