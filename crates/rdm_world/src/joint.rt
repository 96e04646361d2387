//! The joint history of ports.
ghost use Rattle.std.specs.Prelude.{◌≡◌, ◌++◌, OnOk, IfOk, reverse};
ghost use Rattle.rdm_model.specs.Joint.{IsJoint};
ghost use Rattle.rdm_world.specs.Gathers.{logs_of, AreOwnLogs};
ghost use Rattle.rdm_world.specs.Joined.{joined};

use rdm_model::{Entry, History};
use rdm_num::NoMemory;
use rdm_port::Port;
use std::alloc::Global;

/// Adds the entries of a port in the order in which they were made.
fn add_entries(entries: &mut Vec<Entry>, port: &Port) -> Result<(), NoMemory>
    ensures { OnOk result (entries.new.items ≡ entries.old.items ++ reverse port.now.log) }
{
    let log = port.log().as_slice();
    for entry in log {
        entries.push(entry.clone()?)?;
    }
    Ok(())
}

/// The logs of the ports one after the other.
#[tactic(auto, unfolding(crate::specs::Joined::joined))]
fn all_entries(alloc: Global, ports: &[Port]) -> Result<Vec<Entry>, NoMemory>
    ensures { IfOk result (λ entries. entries.items ≡ joined ports.now) }
{
    let mut entries = Vec::new(alloc);
    for port in ports {
        add_entries(&mut entries, port)?;
    }
    Ok(entries)
}

/// The entries of all ports in the order of stamp and port.
pub fn gather(alloc: Global, ports: &[Port]) -> Result<History, NoMemory>
    requires { AreOwnLogs ports.now }
    ensures { IfOk result (IsJoint (logs_of ports.now)) }
{
    let mut entries = all_entries(alloc, ports)?;
    entries.sort_by_key(|entry| entry.stamp.0)?;
    Ok(History::from_vec(entries))
}
