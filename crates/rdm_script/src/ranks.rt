//! The programs of the ranks.
ghost use Rattle.std.specs.Prelude.{◌≡◌, ◌<◌, ◌^◌, [], IfOk, option_map, map, length};
ghost use Rattle.serde_json.specs.View.{view};
ghost use Rattle.rdm_model.specs.Jobs.{features_fit};
ghost use Rattle.rdm_json.specs.Results.{result_map, GivesAs};
ghost use Rattle.rdm_script.specs.Programs.{next_instr, program_of, rank_form, own_pools_known, own_limits, rank_parts, rank_of, ranks_of};
ghost use Rattle.rdm_script.specs.Drafts.{made, made_rank};

use crate::draft::Draft;
use crate::fields::{Version, pool_size};
use crate::instruction::instr_of;
use crate::program::Program;
use crate::{Place, Reason, ScriptRefused};
use rdm_hdr::has_bit;
use rdm_json::{Form, array, found_at, known, number_or, placed};
use rdm_model::{Instr, Ops, Rank};
use rdm_num::{EpLimits, NoMemory, OPS_MAX};
use serde_json::Value;
use std::alloc::Global;

/// A rank, whose regions have no content yet.
#[derive(Drop)]
pub struct RankDraft<'v> {
    pub features: u64,
    pub limits: EpLimits,
    pub drafts: Vec<Draft<'v>>,
}

/// The next instruction of a program.
fn next_instr<'v>(
    version: Version,
    ports: u32,
    program: &Program<'v>,
    value: &'v Value,
) -> Result<Draft<'v>, Reason>
    ensures { result_map made result ≡ next_instr version ports program.now (view value.now) }
{
    let draft = instr_of(version, value)?;
    if !draft.names_rank(ports) {
        return Err(Reason::NoRank);
    }
    program.lives_tested(&draft)?;
    Ok(draft)
}

/// The instructions, one after the other.
fn program_of<'v>(
    alloc: Global,
    version: Version,
    rank: u32,
    ports: u32,
    values: &'v [Value],
) -> Result<Vec<Draft<'v>>, ScriptRefused>
    ensures { GivesAs (λ v. map made v.items) result (program_of version rank ports [] (map view values.now)) }
{
    let mut program = Program::new(alloc);
    for value in values {
        let place = Place::Op(rank, program.len() as u64);
        let draft = placed(place, next_instr(version, ports, &program, value))?;
        program.push(draft)?;
    }
    Ok(program.into_drafts())
}

/// Features 0 to 4 may be set, and 3 is.
#[tactic(auto, unfolding(rdm_model::specs::Jobs::features_fit))]
fn features_fit(features: u64) -> bool
    ensures { result ≡ features_fit features }
{
    features < 32 && has_bit(3, features)
}

/// The keys of a rank: from version 2 on it may have pools of its own.
fn rank_form(version: Version) -> Form
    ensures { result ≡ rank_form version }
{
    match version {
        Version::One => Form::Rank,
        Version::Two => Form::RankWithPools,
    }
}

/// A rank's own pools are an object with the keys of pools, but for the inbox.
fn own_pools_known(pools: Option<&Value>) -> Result<(), Reason>
    ensures { result ≡ own_pools_known (option_map (λ v. view v.now) pools.entry) }
{
    match pools {
        Some(pools) => known(Form::OwnPools, pools),
        None => Ok(()),
    }
}

/// The job's limits, with a rank's own pools in place.
fn own_limits(limits: EpLimits, pools: Option<&Value>) -> Result<EpLimits, Reason>
    ensures { result ≡ own_limits limits (option_map (λ v. view v.now) pools.entry) }
{
    let tx = pool_size(limits.tx, found_at(pools, "tx"))?;
    let rx = pool_size(limits.rx, found_at(pools, "rx"))?;
    let early = pool_size(limits.early, found_at(pools, "early"))?;
    let cq = pool_size(limits.cq, found_at(pools, "cq"))?;
    Ok(EpLimits {
        tx,
        rx,
        early,
        cq,
        ..limits
    })
}

/// The features of a rank, its limits, and its instructions as values.
fn rank_parts(
    version: Version,
    limits: EpLimits,
    value: &Value,
) -> Result<(u64, EpLimits, &[Value]), Reason>
    ensures { result_map (λ p. (p.0, p.1, map view p.2.now)) result ≡ rank_parts version limits (view value.now) }
{
    known(rank_form(version), value)?;
    let features = number_or(25, value.get("features"))?;
    let ops = array(value, "ops")?;
    own_pools_known(value.get("pools"))?;
    if !features_fit(features) {
        return Err(Reason::Limit);
    }
    let own = own_limits(limits, value.get("pools"))?;
    if ops.len() as u64 <= OPS_MAX {
        Ok((features, own, ops))
    } else {
        Err(Reason::Limit)
    }
}

/// A rank and then its instructions.
fn rank_of<'v>(
    alloc: Global,
    version: Version,
    limits: EpLimits,
    rank: u32,
    ports: u32,
    value: &'v Value,
) -> Result<RankDraft<'v>, ScriptRefused>
    ensures { GivesAs made_rank result (rank_of version limits rank ports (view value.now)) }
{
    let (features, limits, ops) = placed(Place::Rank(rank), rank_parts(version, limits, value))?;
    let drafts = program_of(alloc, version, rank, ports, ops)?;
    Ok(RankDraft {
        features,
        limits,
        drafts,
    })
}

/// The ranks, one after the other.
pub fn ranks_of<'v>(
    alloc: Global,
    version: Version,
    limits: EpLimits,
    ports: u32,
    values: &'v [Value],
) -> Result<Vec<RankDraft<'v>>, ScriptRefused>
    requires { length values.now < 2 ^ 32 }
    ensures { GivesAs (λ v. map made_rank v.items) result (ranks_of version limits 0 ports (map view values.now)) }
{
    let mut ranks = Vec::new(alloc);
    for value in values {
        let rank = rank_of(alloc, version, limits, ranks.len() as u32, ports, value)?;
        ranks.push(rank)?;
    }
    Ok(ranks)
}

/// Makes the instructions.
fn make_ops(alloc: Global, drafts: Vec<Draft<'_>>) -> Result<Ops, NoMemory>
    ensures { IfOk result (λ ops. ops ≡ map made drafts.entry.items) }
{
    let mut ops = Vec::with_capacity(alloc, drafts.len())?;
    for draft in drafts {
        ops.push(draft.make(alloc)?)?;
    }
    Ok(Ops::from_vec(ops))
}

/// Makes the ranks.
pub fn make_ranks(alloc: Global, drafts: Vec<RankDraft<'_>>) -> Result<Vec<Rank>, NoMemory>
    ensures { IfOk result (λ v. v.items ≡ map made_rank drafts.entry.items) }
{
    let mut ranks = Vec::with_capacity(alloc, drafts.len())?;
    for draft in drafts {
        let (features, limits) = (draft.features, draft.limits);
        let ops = make_ops(alloc, draft.drafts)?;
        ranks.push(Rank {
            features,
            limits,
            ops,
        })?;
    }
    Ok(ranks)
}
