//! Which of the well formed scripts are played yet.
ghost use Rattle.std.specs.Prelude.{◌≡◌, ◌<◌, ◌^◌};
ghost use Rattle.std.specs.List.{list_all};
ghost use Rattle.rdm_script.specs.Played.{is_eager, goes_eager, is_played_instr, is_played_rank, is_played};

use crate::ranges::spans_length;
use rdm_hdr::has_bit;
use rdm_model::{Instr, Job, Rank};
use rdm_num::{EpLimits, SendReq};
use rdm_pkt::{Kind, choose};

/// No rank closes a life, so it has one at most, each message goes in one packet, and nobody asks for
/// a receipt of one, nor knows how to give one.
pub fn is_played(job: &Job) -> bool
    ensures { result ≡ is_played job.now }
{
    are_played(&job.limits, job.ranks.as_slice())
}

fn are_played(limits: &EpLimits, ranks: &[Rank]) -> bool
    ensures { result ≡ list_all (is_played_rank limits.now) ranks.now }
{
    ranks.iter().all(|rank| is_played_rank(limits, rank))
}

fn is_played_rank(limits: &EpLimits, rank: &Rank) -> bool
    ensures { result ≡ is_played_rank limits.now rank.now }
{
    !has_bit(1, rank.features) && each_played(limits, rank.ops.as_slice())
}

fn each_played(limits: &EpLimits, ops: &[Instr]) -> bool
    ensures { result ≡ list_all (is_played_instr limits.now) ops.now }
{
    ops.iter().all(|op| is_played_instr(limits, op))
}

fn is_played_instr(limits: &EpLimits, op: &Instr) -> bool
    ensures { result ≡ is_played_instr limits.now op.now }
{
    match op {
        Instr::Send(req) => !req.confirm && goes_eager(limits, req),
        Instr::CloseLife => false,
        _ => true,
    }
}

/// What the type of a number says of it.
fn is_u32(n: u32)
    ensures { n < 2 ^ 32 }
{}

/// The message goes in one packet, even where that brings the raw address of its sender.
fn goes_eager(limits: &EpLimits, req: &SendReq) -> bool
    ensures { result ≡ goes_eager limits.now req.now }
{
    let (tagged, cq_data) = (req.tag.is_some(), req.cq_data.is_some());
    let length = spans_length(req.parts.as_slice());
    is_u32(limits.mtu);
    is_eager(choose(length, tagged, cq_data, true, 0, None, limits))
}

fn is_eager(kind: Kind) -> bool
    ensures { result ≡ is_eager kind }
{
    matches!(kind, Kind::Eager)
}
