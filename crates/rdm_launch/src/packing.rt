//! Ports and their passes side by side.
ghost use Rattle.std.specs.Prelude.{◌≡◌, ◌<◌, ◌≤◌, [], vec_len, vec_capacity, IfOk, OnErr};
ghost use Rattle.rdm_turn.specs.Slots.{EachFits};
ghost use Rattle.rdm_launch.specs.Fitting.{FitsPlace};
ghost use Rattle.rdm_launch.specs.Packing.{AllFit};

use crate::stations::{Naming, Station};
use rdm_inbox::PortPasses;
use rdm_num::NoMemory;
use rdm_port::Port;
use std::alloc::Global;
use std::marker::PhantomData;

/// Puts each port and its passes together. The two vectors are left empty, with their memory.
pub fn pack<J: Naming>(
    alloc: Global,
    ports: &mut Vec<Port>,
    all: &mut Vec<PortPasses>,
) -> Result<Vec<Station<J>>, NoMemory>
    requires count { vec_len all.old ≡ vec_len ports.old }
    requires fits { AllFit J.tables J.starts ports.old.items all.old.items }
    ensures fits { IfOk result (λ stations. EachFits (λ s i. FitsPlace J.tables J.starts s.port s.passes i) stations.items × (vec_len stations ≡ vec_len ports.old)) }
    ensures empty { IfOk result (λ _. (ports.new.items ≡ []) × (all.new.items ≡ [])) }
    ensures room { (vec_capacity ports.new ≡ vec_capacity ports.old) × (vec_capacity all.new ≡ vec_capacity all.old) }
{
    let mut stations = Vec::with_capacity(alloc, ports.len())?;
    while !ports.is_empty() {
        let port = ports.take_last();
        let passes = all.take_last();
        stations.push_reserved(Station {
            port,
            passes,
            of: PhantomData,
        });
    }
    stations.as_mut_slice().reverse();
    Ok(stations)
}

/// Takes each port and its passes apart, in room that they had before.
pub fn unpack<J: Naming>(
    mut stations: Vec<Station<J>>,
    ports: &mut Vec<Port>,
    all: &mut Vec<PortPasses>,
)
    requires empty { (ports.old.items ≡ []) × (all.old.items ≡ []) }
    requires room { (vec_len stations ≤ vec_capacity ports.old) × (vec_len stations ≤ vec_capacity all.old) }
    requires fits { EachFits (λ s i. FitsPlace J.tables J.starts s.port s.passes i) stations.items }
    ensures fits { AllFit J.tables J.starts ports.new.items all.new.items }
    ensures count { (vec_len ports.new ≡ vec_len stations) × (vec_len all.new ≡ vec_len stations) }
{
    while let Some(station) = stations.pop() {
        let Station {
            port,
            passes,
            of: _,
        } = station;
        ports.push_reserved(port);
        all.push_reserved(passes);
    }
    stations.destroy_empty();
    ports.as_mut_slice().reverse();
    all.as_mut_slice().reverse();
}
