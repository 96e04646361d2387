//! The ports of a job before any step.
ghost use Rattle.std.specs.Prelude.{◌≡◌, ◌≤◌, IfOk, vec_len};
ghost use Rattle.rdm_model.specs.Beginnings.{port_count};
ghost use Rattle.rdm_launch.specs.Launched.{ArePortsOf, AreFresh};

use rdm_model::Job;
use rdm_num::{NoMemory, PortNo};
use rdm_port::Port;
use std::alloc::Global;

/// Ends each port.
pub fn end_all(mut ports: Vec<Port>) {
    while let Some(port) = ports.pop() {
        port.end();
    }
    ports.destroy_empty();
}

/// All ports of a job in order, as a launch begins with them.
pub fn ports_of(alloc: Global, job: &Job) -> Result<Vec<Port>, NoMemory>
    requires few { port_count job.now ≤ 16 }
    ensures { IfOk result (λ ports. ArePortsOf job.now ports.items × AreFresh ports.items) }
{
    let count = job.ranks.as_slice().len() as u32;
    let mut ports = Vec::with_capacity(alloc, count as usize)?;
    for number in 0..count {
        match Port::new(alloc, PortNo(number), job) {
            Ok(port) => ports.push_reserved(port),
            Err(error) => {
                end_all(ports);
                return Err(error);
            }
        }
    }
    Ok(ports)
}
