//! What goes out from a port, and what is polled.
ghost use Rattle.std.specs.Prelude.{◌≡◌, ◌<◌, ◌≤◌, IfOk, IsTrue, is_some};
ghost use Rattle.rdm_port.specs.Kept.{places_of};
ghost use Rattle.rdm_port.specs.Machine.{departing, after_went, completion_in, after_polled};

use crate::kept::State;
use rdm_ep::Twin;
use rdm_num::{NoMemory, PortNo};
use rdm_wire::Body;
use std::alloc::Global;

/// What goes out next: the port that it goes to, and what it has in it.
#[derive(Debug, Drop)]
pub struct Departure {
    pub dst: PortNo,
    pub body: Body,
}

impl State {
    /// The first note, or else what the endpoint gives.
    #[tactic(auto, unfolding(crate::specs::Machine::departing_by, crate::specs::Machine::life_departing))]
    pub fn departing(&self, alloc: Global) -> Result<Option<Departure>, NoMemory>
        ensures { IfOk result (λ o. o ≡ departing self.now) }
    {
        if let Some(note) = self.notes.first() {
            return Ok(Some(Departure {
                dst: note.to,
                body: Body::Note(note.body),
            }));
        }
        let Some(endpoint) = &self.endpoint else {
            return Ok(None);
        };
        let Some(outgoing) = endpoint.out(alloc)? else {
            return Ok(None);
        };
        Ok(Some(Departure {
            dst: outgoing.to.port,
            body: Body::Between {
                from: endpoint.connid(),
                to: outgoing.to.connid,
                load: outgoing.load,
            },
        }))
    }

    /// A datagram with that body was pushed.
    #[tactic(auto, unfolding(crate::specs::Machine::after_went))]
    pub fn went(&mut self, body: &Body)
        ensures { self.new ≡ after_went body.now self.old }
    {
        match body {
            Body::Note(_) => {
                if !self.notes.is_empty() {
                    self.notes.remove(0);
                }
            }
            Body::Between {
                from: _,
                to: _,
                load: _,
            } => {
                if let Some(endpoint) = &mut self.endpoint {
                    endpoint.sent();
                }
            }
        }
    }

    /// Whether a completion waits to be polled. Its place is among those that are taken.
    #[tactic(auto, unfolding(crate::specs::Machine::completion_in, crate::specs::Kept::places_of))]
    pub fn has_completion(&self) -> bool
        ensures waits { result ≡ is_some (completion_in self.now.endpoint) }
        ensures place { IsTrue result → 0 < places_of self.now.endpoint }
    {
        match &self.endpoint {
            None => false,
            Some(endpoint) => endpoint.has_completion(),
        }
    }

    /// The first completion that was not polled, with its copy.
    #[tactic(auto, unfolding(crate::specs::Machine::completion_in))]
    pub fn poll(&mut self) -> Option<Twin>
        ensures completion { result ≡ completion_in self.old.endpoint }
        ensures after { self.new ≡ after_polled self.old }
    {
        match &mut self.endpoint {
            None => None,
            Some(endpoint) => endpoint.poll_twin(),
        }
    }
}
