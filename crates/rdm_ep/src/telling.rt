//! What an endpoint tells its port.
ghost use Rattle.std.specs.Prelude.{◌≡◌, length};
ghost use Rattle.rdm_hdr.specs.Fields.{has_bit};
ghost use Rattle.rdm_model.specs.Replies.{confirm_feature};
ghost use Rattle.rdm_ep.specs.View.{current_in, cq_in};
ghost use Rattle.rdm_ep.specs.Sending as Sending;

use crate::current::current_of;
use crate::endpoint::Endpoint;
use crate::peers::can_confirm;
use rdm_num::{Connid, Life, is_same_life};

impl Endpoint {
    /// The identifier of its life.
    pub fn connid(&self) -> Connid
        ensures { result ≡ self.now.own.life.connid }
    {
        self.life.connid
    }

    /// How many completion places are taken.
    #[tactic(auto, unfolding(crate::specs::View::cq_in))]
    pub fn outstanding(&self) -> usize
        ensures { result ≡ cq_in self.now }
    {
        self.posted.len() + self.outgoing.len() + self.completions.len()
    }

    /// How many regions were registered.
    pub fn region_count(&self) -> usize
        ensures { result ≡ length self.now.regions }
    {
        self.regions.len()
    }

    /// How many sends were accepted.
    pub fn send_count(&self) -> u64
        ensures { result ≡ self.now.sends }
    {
        self.sends
    }

    /// How many receives were accepted.
    pub fn receive_count(&self) -> u64
        ensures { result ≡ self.now.receives }
    {
        self.receives
    }

    /// How many completions were polled.
    pub fn polled_count(&self) -> u64
        ensures { result ≡ self.now.polled }
    {
        self.polled
    }

    /// Whether a life that is inserted would be greeted: the own life can confirm.
    pub fn greets_inserted(&self) -> bool
        ensures { result ≡ has_bit confirm_feature self.now.own.features }
    {
        can_confirm(self.features)
    }

    /// Whether an insert of the life would take the place of another one.
    #[tactic(auto, unfolding(crate::specs::Sending::supersedes, crate::specs::View::current_in))]
    pub fn supersedes(&self, life: Life) -> bool
        ensures { result ≡ Sending.supersedes life (current_in self.now life.port.0) }
    {
        match current_of(&self.currents, life.port) {
            None => false,
            Some(old) => !is_same_life(old, life),
        }
    }
}
