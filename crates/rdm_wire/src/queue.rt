//! The datagrams that wait for one port.
ghost use Rattle.std.specs.Prelude.{◌≡◌, ◌<◌, ◌++◌, ◌∷◌, [], length, IfOk, IfSome, MatchOption, ◌==◌, ◌≤◌};
ghost use Rattle.rdm_wire.specs.Queues.{QueueState, IsFor};

use crate::Datagram;
use rdm_num::NoMemory;
use std::alloc::Global;
use std::collections::VecDeque;
use std::marker::Model;

/// First in, first out. All memory is taken when it is made.
#[derive(Debug, Drop)]
pub(crate) struct Queue {
    port: u32,
    ports: u32,
    size: usize,
    items: VecDeque<Datagram>,
}

impl Model for Queue {
    ghost use Rattle.std.specs.Prelude.{◌≤◌, All};
    ghost use Rattle.std.specs.VecDeque.{deque_len, deque_capacity};
    ghost use Rattle.rdm_wire.specs.Queues.{QueueState, IsFor};

    ghost Value = { QueueState };

    ghost view = { λ q. record { port = q.port; ports = q.ports; size = q.size; list = q.items.items } };

    ghost invariant = { λ q. (deque_len q.items ≤ q.size) × (q.size ≤ deque_capacity q.items) × All (IsFor q.port q.ports) q.items.items };
}

impl Queue {
    /// For one port of so many.
    pub(crate) fn new(alloc: Global, port: u32, ports: u32, size: usize) -> Result<Queue, NoMemory>
        ensures { IfOk result (λ q. q ≡ record { port = port; ports = ports; size = size; list = [] }) }
    {
        let items = VecDeque::with_capacity(alloc, size)?;
        Ok(Queue {
            port,
            ports,
            size,
            items,
        })
    }

    pub(crate) fn is_full(&self) -> bool
        ensures full { result ≡ (length self.now.list == self.now.size) }
        ensures within { length self.now.list ≤ self.now.size }
    {
        self.items.len() == self.size
    }

    pub(crate) fn push(&mut self, d: Datagram)
        requires room { length self.old.list < self.old.size }
        requires ours { IsFor self.old.port self.old.ports d }
        ensures { self.new ≡ record self.old { list = self.old.list ++ d ∷ [] } }
    {
        match self.items.push_back(d) {
            Ok(()) => {}
            Err(_) => unreachable!(),
        }
    }

    pub(crate) fn pop(&mut self) -> Option<Datagram>
        ensures list { MatchOption result ((self.old.list ≡ []) × (self.new ≡ self.old)) (λ d. self.old ≡ record self.new { list = d ∷ self.new.list }) }
        ensures ours { IfSome result (IsFor self.old.port self.old.ports) }
    {
        self.items.pop_front()
    }
}
