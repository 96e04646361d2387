//! Datagrams that come.
ghost use Rattle.std.specs.Prelude.{◌≡◌, IfOk};
ghost use Rattle.rdm_ep.specs.Handling.{HandlesAs, body_answer};
ghost use Rattle.rdm_ep.specs.Answers.{is_early};
ghost use Rattle.rdm_ep.specs.Verdicts.{VerdictAs, IsFrom};

use crate::answer::HandleAnswer;
use crate::endpoint::Endpoint;
use crate::state::Verdict;
use rdm_num::{Life, NoMemory};
use rdm_wire::{Body, Datagram};
use std::alloc::Global;

impl Endpoint {
    /// Takes or drops a datagram from one life to another, or says why neither can be done now.
    #[tactic(auto, unfolding(crate::specs::Handling::body_answer, crate::specs::Handling::after_body))]
    pub fn handle(&mut self, alloc: Global, d: &Datagram) -> HandleAnswer
        ensures { HandlesAs self.old self.new d.now result }
    {
        let Body::Between { from, to, load } = &d.body else {
            return HandleAnswer::Took(None);
        };
        let from = Life {
            port: d.src,
            connid: *from,
        };
        let Ok(verdict) = self.verdict(alloc, from, *to, load) else {
            return HandleAnswer::Memory;
        };
        self.follow(alloc, from, verdict)
    }

    /// Does what was decided on what came from a life.
    #[tactic(auto, unfolding(crate::specs::Verdicts::verdict_answer))]
    fn follow(&mut self, alloc: Global, from: Life, verdict: Verdict) -> HandleAnswer
        requires { IsFrom from verdict }
        ensures { VerdictAs self.old self.new from verdict result }
    {
        match verdict {
            Verdict::Refuse(class) => HandleAnswer::Dropped(class),
            Verdict::Message(inbound) => self.take_message(alloc, inbound),
            Verdict::Features(word) => match self.take_features(from, word) {
                Ok(()) => HandleAnswer::Took(None),
                Err(_) => HandleAnswer::Memory,
            },
        }
    }

    /// Whether `handle` would answer that a message needs an early place, and none is free.
    #[tactic(auto, unfolding(crate::specs::Answers::is_early, crate::specs::Handling::body_answer))]
    pub fn waits_early(&self, alloc: Global, d: &Datagram) -> Result<bool, NoMemory>
        ensures { IfOk result (λ b. b ≡ is_early (body_answer self.now d.now d.now.body)) }
    {
        let Body::Between { from, to, load } = &d.body else {
            return Ok(false);
        };
        let from = Life {
            port: d.src,
            connid: *from,
        };
        match self.verdict(alloc, from, *to, load)? {
            Verdict::Message(inbound) => Ok(self.waits(&inbound)),
            Verdict::Refuse(_class) => Ok(false),
            Verdict::Features(_word) => Ok(false),
        }
    }
}
