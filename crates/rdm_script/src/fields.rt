//! The keys of the outermost object.
ghost use Rattle.std.specs.Prelude.{◌≡◌, ◌≤◌, IfOk, length, map, option_map};
ghost use Rattle.serde_json.specs.View.{view};
ghost use Rattle.rdm_json.specs.Results.{result_map};
ghost use Rattle.rdm_script.specs.Fields.{version_said, as_version, version_of, number_in, pool_size, number_field, protocol_of, pools_known, pools_of, counted, ranks_field, choices_in, choices_field};

use crate::{BadScript, FieldName, Place, Reason};
use rdm_json::{Form, array_of, found_at, known, number, number_or, placed, present};
use serde_json::Value;

/// The version of a script.
#[derive(Clone, Copy, Debug, PartialEq, Eq)]
pub enum Version {
    One,
    Two,
}

/// The numbers of a script that are no pools.
#[derive(Clone, Copy, Debug, PartialEq, Eq)]
pub struct Protocol {
    pub mtu: u32,
    pub medium: u64,
    pub read_limit: u64,
    pub runt: u64,
    pub credits: u32,
    pub first: u32,
    pub clock: u64,
}

/// The sizes of the pools, and how many datagrams wait for a port at most.
#[derive(Clone, Copy, Debug, PartialEq, Eq)]
pub struct PoolSizes {
    pub tx: u32,
    pub rx: u32,
    pub early: u32,
    pub cq: u32,
    pub inbox: u32,
}

/// The version that an object with the keys of a script says.
fn version_said(script: &Value) -> Result<u64, Reason>
    ensures { result ≡ version_said (view script.now) }
{
    known(Form::Script, script)?;
    present(script, "ranks")?;
    number(script, "version")
}

/// The versions are 1 and 2.
fn as_version(n: u64) -> Result<Version, Reason>
    ensures { result ≡ as_version n }
{
    match n {
        1 => Ok(Version::One),
        2 => Ok(Version::Two),
        _ => Err(Reason::Version),
    }
}

/// The version of a script.
pub fn version_of(script: &Value) -> Result<Version, BadScript>
    ensures { result ≡ version_of (view script.now) }
{
    let said = placed(Place::Whole, version_said(script))?;
    placed(Place::Field(FieldName::Version), as_version(said))
}

/// A number from least to greatest, which has a default.
#[tactic(auto, unfolding(rdm_model::specs::Jobs::is_within))]
fn number_in(least: u64, greatest: u64, default: u64, found: Option<&Value>) -> Result<u64, Reason>
    ensures value { result ≡ number_in least greatest default (option_map (λ v. view v.now) found.entry) }
    ensures below { IfOk result (λ n. n ≤ greatest) }
{
    let n = number_or(default, found)?;
    if least <= n && n <= greatest {
        Ok(n)
    } else {
        Err(Reason::Limit)
    }
}

/// The number of a field.
fn number_field(
    name: FieldName,
    least: u64,
    greatest: u64,
    default: u64,
    found: Option<&Value>,
) -> Result<u64, BadScript>
    ensures value { result ≡ number_field name least greatest default (option_map (λ v. view v.now) found.entry) }
    ensures below { IfOk result (λ n. n ≤ greatest) }
{
    placed(
        Place::Field(name),
        number_in(least, greatest, default, found),
    )
}

/// The number of a field that has 32 bits.
#[tactic(auto, unfolding(rdm_model::specs::Jobs::is_within))]
fn field_32(
    name: FieldName,
    least: u64,
    greatest: u32,
    default: u64,
    found: Option<&Value>,
) -> Result<u32, BadScript>
    ensures { result ≡ number_field name least greatest default (option_map (λ v. view v.now) found.entry) }
{
    let n = number_field(name, least, u64::from(greatest), default, found)?;
    Ok(n as u32)
}

/// The size of a pool, which has a default.
#[tactic(auto, unfolding(rdm_model::specs::Jobs::is_within))]
pub fn pool_size(default: u32, found: Option<&Value>) -> Result<u32, Reason>
    ensures { result ≡ pool_size default (option_map (λ v. view v.now) found.entry) }
{
    let size = number_in(1, 65_536, u64::from(default), found)?;
    Ok(size as u32)
}

/// The numbers that are no pools.
pub fn protocol_of(script: &Value) -> Result<Protocol, BadScript>
    ensures { result ≡ protocol_of (view script.now) }
{
    let mtu = field_32(FieldName::Mtu, 256, 8_192, 8_192, script.get("mtu"))?;
    let medium = number_field(
        FieldName::Medium,
        0,
        4_294_967_295,
        65_536,
        script.get("medium"),
    )?;
    let read_limit = number_field(
        FieldName::Read,
        1,
        4_294_967_295,
        1_048_576,
        script.get("read"),
    )?;
    let runt = number_field(FieldName::Runt, 0, 4_294_967_295, 0, script.get("runt"))?;
    let credits = field_32(FieldName::Credits, 1, 65_535, 32, script.get("credits"))?;
    let first = field_32(FieldName::First, 0, 4_294_967_295, 0, script.get("first"))?;
    let clock = number_field(
        FieldName::Clock,
        0,
        9_223_372_036_854_775_807,
        0,
        script.get("clock"),
    )?;
    Ok(Protocol {
        mtu,
        medium,
        read_limit,
        runt,
        credits,
        first,
        clock,
    })
}

/// Pools that may be absent are an object with the keys of pools.
fn pools_known(pools: Option<&Value>) -> Result<(), Reason>
    ensures { result ≡ pools_known (option_map (λ v. view v.now) pools.entry) }
{
    match pools {
        Some(pools) => known(Form::Pools, pools),
        None => Ok(()),
    }
}

/// The size of a pool.
fn pool(name: FieldName, default: u64, found: Option<&Value>) -> Result<u32, BadScript>
    ensures { result ≡ number_field name 1 65536 default (option_map (λ v. view v.now) found.entry) }
{
    field_32(name, 1, 65_536, default, found)
}

/// The sizes of the pools.
pub fn pools_of(pools: Option<&Value>) -> Result<PoolSizes, BadScript>
    ensures { result ≡ pools_of (option_map (λ v. view v.now) pools.entry) }
{
    placed(Place::Field(FieldName::Pools), pools_known(pools))?;
    let tx = pool(FieldName::PoolTx, 64, found_at(pools, "tx"))?;
    let rx = pool(FieldName::PoolRx, 64, found_at(pools, "rx"))?;
    let early = pool(FieldName::PoolEarly, 64, found_at(pools, "early"))?;
    let cq = pool(FieldName::PoolCq, 128, found_at(pools, "cq"))?;
    let inbox = pool(FieldName::PoolInbox, 256, found_at(pools, "inbox"))?;
    Ok(PoolSizes {
        tx,
        rx,
        early,
        cq,
        inbox,
    })
}

/// An array of least to greatest elements.
#[tactic(auto, unfolding(rdm_model::specs::Jobs::is_within))]
fn counted(least: usize, greatest: usize, value: &Value) -> Result<&[Value], Reason>
    ensures values { result_map (λ s. map view s.now) result ≡ counted least greatest (view value.now) }
    ensures few { IfOk result (λ s. length s.now ≤ greatest) }
{
    let values = array_of(value)?;
    if least <= values.len() && values.len() <= greatest {
        Ok(values)
    } else {
        Err(Reason::Limit)
    }
}

/// The ranks as values: 1 to 16.
pub fn ranks_field(script: &Value) -> Result<&[Value], BadScript>
    ensures values { result_map (λ s. map view s.now) result ≡ ranks_field (view script.now) }
    ensures few { IfOk result (λ s. length s.now ≤ 16) }
{
    let place = Place::Field(FieldName::Ranks);
    let ranks = placed(place, present(script, "ranks"))?;
    placed(place, counted(1, 16, ranks))
}

/// The choices as values: at most a million.
fn choices_in(found: Option<&Value>) -> Result<&[Value], Reason>
    ensures { result_map (λ s. map view s.now) result ≡ choices_in (option_map (λ v. view v.now) found.entry) }
{
    match found {
        Some(value) => counted(0, 1_000_000, value),
        None => Ok(&[]),
    }
}

/// The choices as values: none where they are absent.
pub fn choices_field(script: &Value) -> Result<&[Value], BadScript>
    ensures { result_map (λ s. map view s.now) result ≡ choices_field (view script.now) }
{
    placed(
        Place::Field(FieldName::Choices),
        choices_in(script.get("choices")),
    )
}
