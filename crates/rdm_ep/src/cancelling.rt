//! Receives that are taken back.
ghost use Rattle.std.specs.Prelude.{◌≡◌};
ghost use Rattle.std.specs.List.{position_from};
ghost use Rattle.rdm_ep.specs.Places.{IsPlace, IsPlaced};
ghost use Rattle.rdm_ep.specs.Cancelling as Cancelling;
ghost use Rattle.rdm_ep.specs.Cancelling.{has_number, cancel_answer, after_cancel, cancelled};

use crate::answer::CancelAnswer;
use crate::endpoint::Endpoint;
use crate::going::complete;
use crate::state::Posted;
use crate::twin::Twin;
use rdm_num::RecvNo;

/// Searches for the receive of a number.
#[tactic(auto, unfolding(crate::specs::Cancelling::has_number))]
fn search(posted: &[Posted], recv: RecvNo) -> Option<usize>
    ensures { result ≡ position_from (has_number recv.0) 0 posted.now }
{
    posted.iter().position(|receive| receive.number.0 == recv.0)
}

/// Where the receive of a number stands.
fn place_of(posted: &[Posted], recv: RecvNo) -> Option<usize>
    ensures { IsPlace (has_number recv.0) posted.now result }
{
    search(posted, recv)
}

impl Endpoint {
    /// Whether a receive waits for its message.
    #[tactic(auto, unfolding(crate::specs::Cancelling::waits_for_message))]
    pub fn is_posted(&self, recv: RecvNo) -> bool
        ensures { result ≡ Cancelling.waits_for_message self.now recv.0 }
    {
        place_of(&self.posted, recv).is_some()
    }

    /// Takes a receive back that waits for its message. It completes as cancelled, and its range
    /// stays as it is.
    #[tactic(auto, unfolding(crate::specs::Cancelling::waits_for_message))]
    pub fn cancel(&mut self, recv: RecvNo) -> CancelAnswer
        ensures answer { result ≡ cancel_answer self.old recv }
        ensures after { self.new ≡ cancelled self.old recv }
    {
        match place_of(&self.posted, recv) {
            Some(at) => {
                self.withdraw(recv, at);
                CancelAnswer::Did
            }
            None => CancelAnswer::NotPosted,
        }
    }

    /// Completes the receive at a place as cancelled.
    #[tactic(auto, unfolding(crate::specs::Cancelling::after_cancel))]
    fn withdraw(&mut self, recv: RecvNo, at: usize)
        requires { IsPlaced (has_number recv.0) self.old.posted at }
        ensures { self.new ≡ after_cancel self.old recv }
    {
        self.posted.remove(at);
        complete(&mut self.completions, Twin::of_cancelled(recv));
    }
}
