//! What goes out, and what is polled.
ghost use Rattle.std.specs.Prelude.{◌≡◌, ◌<◌, ◌≤◌, ◌++◌, ◌∷◌, [], IfOk, MatchOption, length, option_map, slice_get, nat_lt};
ghost use Rattle.std.specs.VecDeque.{deque_len, deque_capacity};
ghost use Rattle.rdm_ep.specs.View.{cq_in};
ghost use Rattle.rdm_ep.specs.Going.{out_of, outgoing_of, after_sent, after_poll, IsFirst};

use crate::answer::Outgoing;
use crate::endpoint::Endpoint;
use crate::packets::{handshake, leaving};
use crate::state::Outbound;
use crate::twin::Twin;
use rdm_num::{Completion, NoMemory, SendNo};
use std::alloc::Global;
use std::collections::VecDeque;

impl Endpoint {
    /// The next datagram that is to be pushed.
    #[tactic(auto, unfolding(crate::specs::Going::out_of, crate::specs::Going::out_by, crate::specs::Going::outgoing_out))]
    pub fn out(&self, alloc: Global) -> Result<Option<Outgoing>, NoMemory>
        ensures { IfOk result (λ o. o ≡ option_map outgoing_of (out_of self.now)) }
    {
        if let Some(life) = self.owed.first() {
            let packet = handshake(alloc, self.features, self.life.connid)?;
            return Ok(Some(leaving(alloc, *life, &packet)?));
        }
        match self.outgoing.first() {
            Some(outbound) => Ok(Some(leaving(alloc, outbound.to, &outbound.packet)?)),
            None => Ok(None),
        }
    }

    /// What `out` gave was pushed. A send whose packet it was completes.
    #[tactic(auto, unfolding(crate::specs::Going::after_sent, crate::specs::Going::sent_by, crate::specs::Going::after_outgoing))]
    pub fn sent(&mut self)
        ensures { self.new ≡ after_sent self.old }
    {
        if !self.owed.is_empty() {
            self.owed.remove(0);
            return;
        }
        let Some(send) = take_first(&mut self.outgoing) else {
            return;
        };
        complete(&mut self.completions, Twin::of_send(send, false));
    }

    /// Whether `poll` would give a completion.
    #[tactic(auto, unfolding(crate::specs::View::cq_in))]
    pub fn has_completion(&self) -> bool
        ensures waits { result ≡ nat_lt 0 (length self.now.completions) }
        ensures place { length self.now.completions ≤ cq_in self.now }
    {
        0 < self.completions.len()
    }

    /// The first completion that was not polled.
    pub fn poll(&mut self) -> Option<Completion>
        ensures completion { result ≡ slice_get self.old.completions 0 }
        ensures after { self.new ≡ after_poll self.old }
    {
        let twin = self.poll_twin()?;
        Some(twin.into_completion())
    }

    /// The same with its copy.
    #[tactic(auto, unfolding(crate::specs::Going::after_poll, crate::specs::Going::polled_by))]
    pub fn poll_twin(&mut self) -> Option<Twin>
        ensures completion { result ≡ slice_get self.old.completions 0 }
        ensures after { self.new ≡ after_poll self.old }
    {
        let twin = self.completions.pop_front()?;
        self.polled += 1;
        Some(twin)
    }
}

/// Takes out the first send, and gives its number.
fn take_first(outgoing: &mut Vec<Outbound>) -> Option<SendNo>
    ensures { MatchOption result ((outgoing.old.items ≡ []) × (outgoing.new.items ≡ [])) (λ n. IsFirst outgoing.old.items outgoing.new.items n) }
{
    let number = outgoing.first()?.number;
    outgoing.remove(0);
    Some(number)
}

/// Writes a completion, for which there is room.
pub(crate) fn complete(completions: &mut VecDeque<Twin>, completion: Twin)
    requires { deque_len completions.old < deque_capacity completions.old }
    ensures items { completions.new.items ≡ completions.old.items ++ completion ∷ [] }
    ensures room { deque_capacity completions.new ≡ deque_capacity completions.old }
{
    match completions.push_back(completion) {
        Ok(()) => {}
        Err(_) => unreachable!(),
    }
}
