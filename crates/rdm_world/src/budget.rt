//! How many rounds a job may need.
ghost use Rattle.std.specs.Prelude.{◌≡◌, ◌<◌, ◌≤◌, length, sum_by, IsTrue};
ghost use Rattle.rdm_model.specs.Jobs as Jobs;
ghost use Rattle.rdm_model.specs.Jobs.{is_fair, law_ops};
ghost use Rattle.rdm_model.specs.Played.{round_bound};
ghost use Rattle.rdm_world.specs.Budgets.{IsSmall};

use rdm_ep::total_length;
use rdm_model::{Instr, Job, Rank};

/// What the instructions of ranks come to: how many there are, the bytes that they send, and the lives that they open.
#[derive(Clone, Copy, Debug, PartialEq, Eq)]
struct Sums {
    ops: u64,
    bytes: u64,
    opens: u64,
}

/// How many bytes a send has.
#[tactic(auto, unfolding(rdm_model::specs::Jobs::sent_length))]
fn sent_length(instr: &Instr) -> u128
    ensures { result ≡ Jobs.sent_length instr.now }
{
    match instr {
        Instr::Send(request) => total_length(&request.parts),
        _ => 0,
    }
}

/// 1 for an open.
#[tactic(auto, unfolding(rdm_model::specs::Jobs::open_count))]
fn open_count(instr: &Instr) -> u64
    ensures { result ≡ Jobs.open_count instr.now }
{
    match instr {
        Instr::OpenLife { connid: _ } => 1,
        _ => 0,
    }
}

/// The sums of a rank.
fn rank_sums(rank: &Rank) -> Sums
    requires { IsSmall rank.now }
    ensures ops { result.ops ≡ length rank.now.ops }
    ensures bytes { result.bytes ≡ sum_by Jobs.sent_length rank.now.ops }
    ensures opens { result.opens ≡ sum_by Jobs.open_count rank.now.ops }
{
    let instrs = rank.ops.as_slice();
    let mut bytes = 0;
    let mut opens = 0;
    for instr in instrs {
        bytes += sent_length(instr);
        opens += open_count(instr);
    }
    Sums {
        ops: instrs.len() as u64,
        bytes: bytes as u64,
        opens,
    }
}

/// The sums of all ranks of a job.
fn job_sums(job: &Job) -> Sums
    requires { IsTrue (is_fair law_ops job.now) }
    ensures ops { result.ops ≡ sum_by (λ r. length r.ops) job.now.ranks }
    ensures bytes { result.bytes ≡ sum_by (λ r. sum_by Jobs.sent_length r.ops) job.now.ranks }
    ensures opens { result.opens ≡ sum_by (λ r. sum_by Jobs.open_count r.ops) job.now.ranks }
    ensures few { (result.ops ≤ 480000) × (result.bytes ≤ 8053063680000) × (result.opens ≤ 480000) }
{
    let mut all = Sums {
        ops: 0,
        bytes: 0,
        opens: 0,
    };
    for rank in job.ranks.as_slice() {
        let sums = rank_sums(rank);
        all = Sums {
            ops: all.ops + sums.ops,
            bytes: all.bytes + sums.bytes,
            opens: all.opens + sums.opens,
        };
    }
    all
}

/// How many rounds a fair job may need.
pub fn round_budget(job: &Job) -> u64
    requires { IsTrue (is_fair law_ops job.now) }
    ensures { result ≡ round_bound job.now }
{
    let sums = job_sums(job);
    2 * (40 * sums.ops + 6 * sums.bytes + 2 * sums.opens * sums.opens) + 1
}
