//! What a matcher answers, in whatever it keeps the receives and the messages that wait.
ghost use Rattle.std.specs.Prelude.{◌≡◌, ◌<◌, false, option_map, IfOk, OnOk, OnErr};
ghost use Rattle.rdm_match.specs.Matcher as Plain;
ghost use Rattle.rdm_match.specs.Waiting.{taken_by, taker_of, is_posted, messages_of, receives_naming};
ghost use Rattle.rdm_match.specs.Kept.{Kept, with_post, with_arrival, kept_after, kept_after_post, kept_after_arrive};

use crate::{Arrived, ArrivedList, Forgotten, PostedList, PostedRecv};
use rdm_num::{Life, NoMemory, RecvNo};
use std::alloc::Global;

/// Receives and messages that wait for each other. Only what may fail takes memory.
pub trait TagMatcher {
    /// What waits, and for how much more there is room.
    ghost kept: { Self → Kept };

    /// Makes room for one receive more.
    fn reserve_post(&mut self) -> Result<(), NoMemory>
        ensures ok { OnOk result (kept self.new ≡ with_post (kept self.old)) }
        ensures err { OnErr result (kept self.new ≡ kept self.old) };

    /// Makes room for one message more.
    fn reserve_arrival(&mut self) -> Result<(), NoMemory>
        ensures ok { OnOk result (kept self.new ≡ with_arrival (kept self.old)) }
        ensures err { OnErr result (kept self.new ≡ kept self.old) };

    /// Posts a receive for which there is room: it takes the first message that it accepts, or waits
    /// last. The room is gone either way.
    fn post_reserved(&mut self, r: PostedRecv) -> Option<Arrived>
        requires room { 0 < (kept self.old).posts }
        requires free { is_posted (kept self.old).waiting r.id.0 ≡ false }
        ensures answer { result ≡ taken_by (kept self.old).waiting r }
        ensures after { kept self.new ≡ kept_after_post (kept self.old) r };

    /// Lets a message arrive for which there is room: the first receive that accepts it takes it, or
    /// it waits last. The room is gone either way.
    fn arrive_reserved(&mut self, a: Arrived) -> Option<PostedRecv>
        requires { 0 < (kept self.old).arrivals }
        ensures answer { result ≡ taker_of (kept self.old).waiting a }
        ensures after { kept self.new ≡ kept_after_arrive (kept self.old) a };

    /// The message that the receive would take if it were posted now.
    fn would_meet(&self, r: &PostedRecv) -> Option<Arrived>
        ensures { result ≡ taken_by (kept self.now).waiting r.now };

    /// The receive that would take the message if it arrived now.
    fn would_take(&self, a: &Arrived) -> Option<RecvNo>
        ensures { result ≡ option_map (λ r. r.id) (taker_of (kept self.now).waiting a.now) };

    /// Takes out the receive of that number, and tells whether it waited.
    fn cancel(&mut self, id: RecvNo) -> bool
        ensures answer { result ≡ is_posted (kept self.old).waiting id.0 }
        ensures after { kept self.new ≡ kept_after (kept self.old) (Plain.Cancel id.0) };

    /// Takes out the messages of a life and the receives that name it.
    fn forget_life(&mut self, life: Life)
        ensures { kept self.new ≡ kept_after (kept self.old) (Plain.Forget life) };

    /// Copies the messages of a life that wait, in order.
    fn copy_messages(&self, alloc: Global, life: Life) -> Result<ArrivedList, NoMemory>
        ensures { IfOk result (λ l. l ≡ messages_of (kept self.now).waiting life) };

    /// Copies the receives that wait and name a life, in order.
    fn copy_receives(&self, alloc: Global, life: Life) -> Result<PostedList, NoMemory>
        ensures { IfOk result (λ l. l ≡ receives_naming (kept self.now).waiting life) };

    /// Posts a receive: it takes the first message that it accepts, or waits last.
    final fn post(&mut self, r: PostedRecv) -> Result<Option<Arrived>, NoMemory>
        requires { is_posted (kept self.old).waiting r.id.0 ≡ false }
        ensures answer { IfOk result (λ taken. taken ≡ taken_by (kept self.old).waiting r) }
        ensures after { OnOk result (kept self.new ≡ kept_after (kept self.old) (Plain.Post r)) }
        ensures err { OnErr result (kept self.new ≡ kept self.old) }
    {
        self.reserve_post()?;
        Ok(self.post_reserved(r))
    }

    /// Lets a message arrive: the first receive that accepts it takes it, or it waits last.
    final fn arrive(&mut self, a: Arrived) -> Result<Option<PostedRecv>, NoMemory>
        ensures answer { IfOk result (λ taker. taker ≡ taker_of (kept self.old).waiting a) }
        ensures after { OnOk result (kept self.new ≡ kept_after (kept self.old) (Plain.Arrive a)) }
        ensures err { OnErr result (kept self.new ≡ kept self.old) }
    {
        self.reserve_arrival()?;
        Ok(self.arrive_reserved(a))
    }

    /// Takes out the messages of a life and the receives that name it, and gives them in order.
    final fn forget(&mut self, alloc: Global, life: Life) -> Result<Forgotten, NoMemory>
        ensures answer { IfOk result (λ f. (f.arrived ≡ messages_of (kept self.old).waiting life) × (f.posted ≡ receives_naming (kept self.old).waiting life)) }
        ensures after { OnOk result (kept self.new ≡ kept_after (kept self.old) (Plain.Forget life)) }
        ensures err { OnErr result (kept self.new ≡ kept self.old) }
    {
        let arrived = self.copy_messages(alloc, life)?;
        let posted = self.copy_receives(alloc, life)?;
        self.forget_life(life);
        Ok(Forgotten { arrived, posted })
    }
}
