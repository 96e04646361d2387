//! From the bytes of a script to its job.
ghost use Rattle.std.specs.Prelude.{◌≡◌, ◌<◌, ◌^◌, length, map};
ghost use Rattle.serde_json.specs.View.{view};
ghost use Rattle.rdm_json.specs.Results.{Gives, GivesAs};
ghost use Rattle.rdm_script.specs.Script.{job_in, text_job, value_job, formed_job, limits_of, programs_of};
ghost use Rattle.rdm_script.specs.Drafts.{made_rank};

use crate::choices::choices_of;
use crate::fields::{
    PoolSizes, Protocol, Version, choices_field, pools_of, protocol_of, ranks_field, version_of,
};
use crate::played::is_played;
use crate::ranks::{RankDraft, make_ranks, ranks_of};
use crate::totals::is_too_big;
use crate::{BadScript, Place, Reason, ScriptRefused};
use rdm_model::{Choices, Job, Ranks};
use rdm_num::{EpLimits, SCRIPT_MAX};
use serde_json::Value;
use std::alloc::Global;

/// Reads a job script, or says what is wrong with it first.
pub fn job_of(alloc: Global, bytes: &[u8]) -> Result<Job, ScriptRefused>
    ensures { Gives result (job_in bytes.now) }
{
    if bytes.len() as u64 <= SCRIPT_MAX {
        text_job(alloc, bytes)
    } else {
        Err(whole(Reason::TooLong))
    }
}

/// Reads a job script of a length that is allowed.
fn text_job(alloc: Global, bytes: &[u8]) -> Result<Job, ScriptRefused>
    ensures { Gives result (text_job bytes.now) }
{
    match Value::from_slice(alloc, bytes) {
        Ok(script) => value_job(alloc, &script),
        Err(error) => {
            if error.is_memory() {
                return Err(ScriptRefused::Memory);
            }
            Err(whole(Reason::NotJson))
        }
    }
}

fn whole(why: Reason) -> ScriptRefused
    ensures { result ≡ ScriptRefused.Bad (record { place = Place.Whole; why = why }) }
{
    let place = Place::Whole;
    ScriptRefused::Bad(BadScript { place, why })
}

/// The job of a JSON value, where it is played.
fn value_job(alloc: Global, script: &Value) -> Result<Job, ScriptRefused>
    ensures { Gives result (value_job (view script.now)) }
{
    let job = formed_job(alloc, script)?;
    if is_played(&job) {
        Ok(job)
    } else {
        Err(whole(Reason::Unbuilt))
    }
}

/// The job of a well formed script.
fn formed_job(alloc: Global, script: &Value) -> Result<Job, ScriptRefused>
    ensures { Gives result (formed_job (view script.now)) }
{
    let version = version_of(script)?;
    let protocol = protocol_of(script)?;
    let pools = pools_of(script.get("pools"))?;
    let values = ranks_field(script)?;
    let picks = choices_field(script)?;
    let limits = limits_of(protocol, pools);
    let ranks = programs_of(alloc, version, limits, values)?;
    let choices = choices_of(alloc, values.len() as u32, picks)?;
    Ok(Job {
        limits,
        inbox: pools.inbox,
        clock: protocol.clock,
        ranks: Ranks::from_vec(make_ranks(alloc, ranks)?),
        choices: Choices::from_vec(choices),
    })
}

/// The limits of an endpoint.
fn limits_of(protocol: Protocol, pools: PoolSizes) -> EpLimits
    ensures { result ≡ limits_of protocol pools }
{
    EpLimits {
        mtu: protocol.mtu,
        medium: protocol.medium,
        read_limit: protocol.read_limit,
        runt: protocol.runt,
        credits: protocol.credits,
        first: protocol.first,
        tx: pools.tx,
        rx: pools.rx,
        early: pools.early,
        cq: pools.cq,
    }
}

/// The ranks that values say, which are not too big together.
fn programs_of<'v>(
    alloc: Global,
    version: Version,
    limits: EpLimits,
    values: &'v [Value],
) -> Result<Vec<RankDraft<'v>>, ScriptRefused>
    requires { length values.now < 2 ^ 32 }
    ensures { GivesAs (λ v. map made_rank v.items) result (programs_of version limits (map view values.now)) }
{
    let ranks = ranks_of(alloc, version, limits, values.len() as u32, values)?;
    if is_too_big(ranks.as_slice()) {
        Err(whole(Reason::TooBig))
    } else {
        Ok(ranks)
    }
}
