//! A wire in memory.
ghost use Rattle.std.specs.Prelude.{◌≡◌, ◌≤◌, [], replicate, IfOk};
ghost use Rattle.rdm_wire.specs.Queues.{MemWireState};

use crate::Datagram;
use crate::queue::Queue;
use crate::wire::Wire;
use rdm_num::{NoMemory, PortNo};
use std::alloc::Global;
use std::marker::Model;

/// One queue for each port. It serves all its ports.
#[derive(Debug, Drop)]
pub struct MemWire {
    size: usize,
    queues: Vec<Queue>,
    fulls: u64,
    empties: u64,
}

impl Model for MemWire {
    ghost use Rattle.std.specs.Prelude.{map, ◌≤◌, vec_len};
    ghost use Rattle.rdm_wire.specs.Queues.{MemWireState, AreQueues};

    ghost Value = { MemWireState };

    ghost view = { λ w. record { size = w.size; queues = map (λ q. q.list) w.queues.items; fulls = w.fulls; empties = w.empties } };

    ghost invariant = { λ w. (1 ≤ w.size) × AreQueues w.size (vec_len w.queues) w.queues.items };
}

impl MemWire {
    /// A wire of so many ports, each with room for `size` datagrams. All its memory is taken here.
    pub fn new(alloc: Global, ports: u32, size: u32) -> Result<MemWire, NoMemory>
        requires { 1 ≤ size }
        ensures { IfOk result (λ w. w ≡ record { size = size; queues = replicate ports []; fulls = 0; empties = 0 }) }
    {
        let mut queues = Vec::with_capacity(alloc, ports as usize)?;
        for port in 0..ports {
            queues.push_reserved(Queue::new(alloc, port, ports, size as usize)?);
        }
        Ok(MemWire {
            size: size as usize,
            queues,
            fulls: 0,
            empties: 0,
        })
    }
}

impl Wire for MemWire {
    ghost use Rattle.std.specs.Prelude.{Some, None, [], true, length, nat_lt};
    ghost use Rattle.rdm_wire.specs.Queues.{flight_of};
    ghost use Rattle.std.proofs.lemmas.List.{get_or_past};

    ghost ports = { λ w. length w.queues };

    ghost serves = { λ w p. nat_lt p (length w.queues) };

    ghost fulls = { λ w. w.fulls };

    ghost empties = { λ w. w.empties };

    ghost Table = { Unit {0} };

    ghost tables = { λ _. [] };

    ghost account = { λ _. None };

    ghost held = { λ w. Some (flight_of w) };

    ghost in_order = { λ _. true };

    ghost within = { λ w p beyond. get_or_past w.queues p [] beyond };

    fn push(&mut self, d: Datagram) -> Result<(), Datagram> {
        let queue = &mut self.queues[d.dst.0 as usize];
        if queue.is_full() {
            self.fulls = self.fulls.saturating_add(1);
            return Err(d);
        }
        queue.push(d);
        Ok(())
    }

    fn fetch(&mut self, port: PortNo) -> Option<Datagram> {
        let found = self.queues[port.0 as usize].pop();
        if found.is_none() {
            self.empties = self.empties.saturating_add(1);
        }
        found
    }
}
