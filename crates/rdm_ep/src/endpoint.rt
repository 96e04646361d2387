//! The endpoint.
ghost use Rattle.std.specs.Prelude.{◌≡◌, ◌≤◌, IfOk};
ghost use Rattle.rdm_ep.specs.View.{new_endpoint};

use crate::state::{Inbound, Outbound, Peer, Posted};
use crate::twin::Twin;
use rdm_num::{EpLimits, Life, NoMemory};
use std::alloc::Global;
use std::collections::VecDeque;
use std::marker::Model;

/// The endpoint of one life. It must be spent.
pub struct Endpoint {
    pub(crate) life: Life,
    pub(crate) features: u64,
    pub(crate) limits: EpLimits,
    pub(crate) regions: Vec<Vec<u8>>,
    pub(crate) currents: Vec<Life>,
    pub(crate) peers: Vec<Peer>,
    pub(crate) sends: u64,
    pub(crate) receives: u64,
    pub(crate) polled: u64,
    pub(crate) posted: Vec<Posted>,
    pub(crate) arrived: Vec<Inbound>,
    pub(crate) held: Vec<Inbound>,
    pub(crate) owed: Vec<Life>,
    pub(crate) outgoing: Vec<Outbound>,
    pub(crate) completions: VecDeque<Twin>,
}

impl Model for Endpoint {
    ghost use Rattle.std.specs.Prelude.{map};
    ghost use Rattle.rdm_ep.specs.View.{EndpointView};
    ghost use Rattle.rdm_ep.specs.Counts.{IsSound};
    ghost use Rattle.std.specs.VecDeque.{deque_capacity};

    ghost Value = { EndpointView };

    ghost view = { λ e. record {
      own = record { life = e.life; features = e.features; limits = e.limits };
      regions = map (λ r. r.items) e.regions.items;
      currents = e.currents.items;
      peers = e.peers.items;
      sends = e.sends;
      receives = e.receives;
      polled = e.polled;
      posted = e.posted.items;
      arrived = e.arrived.items;
      held = e.held.items;
      owed = e.owed.items;
      outgoing = e.outgoing.items;
      completions = e.completions.items;
    } };

    ghost invariant = { λ e. IsSound e.limits.cq (deque_capacity e.completions) e.sends e.receives e.polled (map (λ r. r.items) e.regions.items) e.posted.items e.outgoing.items e.completions.items };
}

impl Endpoint {
    /// The endpoint of a life with these features. It takes the memory for its completions here.
    #[tactic(auto, unfolding(crate::specs::View::new_endpoint))]
    pub fn start(
        alloc: Global,
        life: Life,
        features: u64,
        limits: &EpLimits,
    ) -> Result<Endpoint, NoMemory>
        ensures { IfOk result (λ e. e ≡ new_endpoint (record { life = life; features = features; limits = limits.now })) }
    {
        let limits = *limits;
        let completions = VecDeque::with_capacity(alloc, limits.cq as usize)?;
        Ok(Endpoint {
            life,
            features,
            limits,
            regions: Vec::new(alloc),
            currents: Vec::new(alloc),
            peers: Vec::new(alloc),
            sends: 0,
            receives: 0,
            polled: 0,
            posted: Vec::new(alloc),
            arrived: Vec::new(alloc),
            held: Vec::new(alloc),
            owed: Vec::new(alloc),
            outgoing: Vec::new(alloc),
            completions,
        })
    }

    /// Ends the endpoint: its regions, operations and completions go.
    pub fn close(self) {
        let Endpoint {
            life: _,
            features: _,
            limits: _,
            regions: _,
            currents: _,
            peers: _,
            sends: _,
            receives: _,
            polled: _,
            posted: _,
            arrived: _,
            held: _,
            owed: _,
            outgoing: _,
            completions: _,
        } = self;
    }
}
