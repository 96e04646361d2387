//! Pushes and pops that count what they could not do. Nothing else raises these counts: the kinds
//! of step that do are private to this file.
ghost use Rattle.std.specs.Prelude.{◌≡◌, MatchResult, MatchOption};
ghost use Rattle.crossbeam_queue.specs.Fifo.{Pushes, Pops, Learns, Held};
ghost use Rattle.crossbeam_queue.specs.Passes.{view, IsSamePass, IsPassOf, ruled_capacity};
ghost use Rattle.rdm_inbox.specs.declared.post.Post.TheVariants.{Nobody};
ghost use Rattle.rdm_inbox.specs.Letters.{Letters, after_full, after_empty};

use crate::post::{Line, Post, PostPass};
use crossbeam_queue::protocol::{Lesson, Outcome, Split};
use rdm_wire::Datagram;
use std::sync::Wait;

/// The pass found its inbox full once more.
struct FoundFull;

impl Split<Post> for FoundFull {
    ghost left = { after_full };

    ghost right = { λ v. Nobody };
}

/// The pass found its inbox empty once more.
struct FoundEmpty;

impl Split<Post> for FoundEmpty {
    ghost left = { after_empty };

    ghost right = { λ v. Nobody };
}

/// Pushes. Where the queue was full at a moment of the call, the datagram may come back, and that
/// is counted.
pub fn push<M: Outcome<Datagram, Post> + Lesson<Datagram, Post>, R: Wait>(
    rt: &R,
    line: &Line,
    pass: &mut PostPass,
    d: Datagram,
) -> Result<(), Datagram>
    requires own { IsPassOf line.now pass.old }
    requires rule { Pushes Letters (ruled_capacity line.now) pass.old.id (view pass.old) d (M.then (view pass.old) d) × Learns Letters pass.old.id (view pass.old) (M.fact (view pass.old)) }
    ensures own { IsSamePass pass.old pass.new }
    ensures view { MatchResult result (λ _. M.then (view pass.old) d (view pass.new)) (λ back. (back ≡ d) × (view pass.new ≡ after_full (view pass.old)) × Held (ruled_capacity line.now) (M.fact (view pass.old))) }
{
    match line.push_as::<M, R>(rt, pass, d) {
        Ok(()) => Ok(()),
        Err(back) => {
            line.another::<FoundFull>(pass);
            Err(back)
        }
    }
}

/// Pops. Where the queue was empty at a moment of the call, there may be no datagram, and that is
/// counted.
pub fn pop<M: Outcome<Datagram, Post> + Lesson<Datagram, Post>, R: Wait>(
    rt: &R,
    line: &Line,
    pass: &mut PostPass,
) -> Option<Datagram>
    requires own { IsPassOf line.now pass.old }
    requires rule { Pops Letters pass.old.id (view pass.old) (M.then (view pass.old)) × Learns Letters pass.old.id (view pass.old) (M.fact (view pass.old)) }
    ensures own { IsSamePass pass.old pass.new }
    ensures view { MatchOption result ((view pass.new ≡ after_empty (view pass.old)) × Held 0 (M.fact (view pass.old))) (λ d. M.then (view pass.old) d (view pass.new)) }
{
    match line.pop_as::<M, R>(rt, pass) {
        Some(d) => Some(d),
        None => {
            line.another::<FoundEmpty>(pass);
            None
        }
    }
}
