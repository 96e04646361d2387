ghost use Rattle.std.specs.Prelude.{◌≡◌, IfOk};
ghost use Rattle.rdm_model.specs.Beginnings.{port_count};

use crate::fresh::{end_all, ports_of};
use crate::gate::OpenGate;
use crate::launching::launch;
use rdm_inbox::Inboxes;
use rdm_model::{Choices, Instr, Job, Ops, Rank, Ranks};
use rdm_num::{EpLimits, PortNo};
use std::alloc::{AllocError, Global};
use std::test::Fail;

/// A rank that does one instruction.
fn rank_of(alloc: Global, limits: EpLimits, instr: Instr) -> Result<Rank, AllocError> {
    let mut ops = Vec::new(alloc);
    ops.push(instr)?;
    Ok(Rank {
        features: 0,
        limits,
        ops: Ops::from_vec(ops),
    })
}

/// The first rank says a word to the second, which awaits it.
fn word_job(alloc: Global) -> Result<Job, AllocError>
    ensures { IfOk result (λ job. port_count job ≡ 2) }
{
    let limits = EpLimits {
        mtu: 4096,
        medium: 4096,
        read_limit: 65536,
        runt: 0,
        credits: 4,
        first: 0,
        tx: 4,
        rx: 4,
        early: 4,
        cq: 4,
    };
    let say = Instr::Note {
        to: PortNo(1),
        what: 7,
    };
    let hear = Instr::Await {
        from: PortNo(0),
        what: 7,
    };
    let mut ranks = Vec::new(alloc);
    ranks.push(rank_of(alloc, limits, say)?)?;
    ranks.push(rank_of(alloc, limits, hear)?)?;
    Ok(Job {
        limits,
        inbox: 4,
        clock: 0,
        ranks: Ranks::from_vec(ranks),
        choices: Choices::from_vec(Vec::new(alloc)),
    })
}

// Whether the second rank hears the word before its threads end is up to the threads.
#[test]
fn a_word_is_said(rt: HostRuntime) -> Result<(), Fail> {
    let alloc = rt.alloc();
    let job = word_job(alloc)?;
    let inboxes = Inboxes::new(&rt, alloc, 2, 4)?;
    let ports = ports_of(alloc, &job)?;
    let (ports, _inboxes) = launch(&rt, alloc, ports, inboxes, 1, &OpenGate)?;
    let said = ports.iter().any(|port| port.is_over());
    end_all(ports);
    assert!(rt; said);
    Ok(())
}
