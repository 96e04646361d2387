//! The answers that an endpoint owes.
ghost use Rattle.std.specs.Prelude.{◌≡◌, ◌<◌, ◌≤◌, ◌-◌, ◌++◌, ◌∷◌, [], IfSome, IsTrue, IfOk, OnOk, OnErr, drop, length};
ghost use Rattle.rdm_model.specs.Replies.{without_lives};
ghost use Rattle.rdm_rx.specs.Left.{left};
ghost use Rattle.rdm_owed.specs.Owing.{nothing_owed, with_rooms, without_rooms, with_answer};
ghost use Rattle.rdm_answers.specs.Answers.{IsFirst, has_item, replies_by, replies_for, replies_of_dues};
ghost use Rattle.rdm_answers.specs.Owing.{Becomes, have_items, owed_in};

use crate::answer::{Answer, Dues, First, first_of};
use rdm_num::{Connid, Life, NoMemory};
use rdm_owed::Answers;
use std::alloc::Global;
use std::marker::Model;

/// What an endpoint owes to other lives, in the order in which it came to be owed.
#[derive(Drop)]
pub struct Replies {
    answers: Answers<Answer>,
}

impl Model for Replies {
    ghost use Rattle.std.specs.Prelude.{IsTrue};
    ghost use Rattle.rdm_owed.specs.Owing.{Owing};
    ghost use Rattle.rdm_answers.specs.declared.answer.Answer.{Answer};
    ghost use Rattle.rdm_answers.specs.Owing.{have_items};

    ghost Value = { Owing Answer };

    ghost view = { λ r. r.answers };

    ghost invariant = { λ r. IsTrue (have_items r.answers.owed) };
}

impl Replies {
    pub fn new(alloc: Global) -> Replies
        ensures { result ≡ nothing_owed }
    {
        Replies {
            answers: Answers::new(alloc),
        }
    }

    /// Makes room for so many answers more, or for none.
    pub fn reserve(&mut self, more: usize) -> Result<(), NoMemory>
        ensures ok { OnOk result (self.new ≡ with_rooms self.old more) }
        ensures err { OnErr result (self.new ≡ self.old) }
    {
        self.answers.reserve_many(more)
    }

    /// Gives the room for so many answers back.
    pub fn give_back(&mut self, count: usize)
        requires { count ≤ self.old.room }
        ensures { self.new ≡ without_rooms self.old count }
    {
        self.answers.give_back_many(count);
    }

    /// Owes an answer to a life, after all others, in room that was made.
    pub fn push(&mut self, to: Life, answer: Answer)
        requires room { 0 < self.old.room }
        requires item { IsTrue (has_item answer) }
        ensures after { self.new ≡ with_answer self.old to answer }
        ensures owed { Becomes self.old.owed self.new.owed (λ own bytes_of before. before ++ replies_for own bytes_of to answer) }
    {
        self.answers.push(to, answer);
    }

    /// Owes an answer if there is one, and else gives the room for it back.
    pub fn push_or_give_back(&mut self, to: Life, answer: Option<Answer>)
        requires room { 0 < self.old.room }
        requires item { IfSome answer (λ a. IsTrue (has_item a)) }
        ensures room { self.new.room ≡ self.old.room - 1 }
        ensures owed { Becomes self.old.owed self.new.owed (λ own bytes_of before. before ++ replies_by own bytes_of to answer) }
    {
        match answer {
            Some(answer) => self.push(to, answer),
            None => self.give_back(1),
        }
    }

    /// Owes what a receive makes owed, and gives the room back that it doesn't want.
    pub fn push_dues(&mut self, to: Life, dues: Dues)
        requires room { 3 ≤ self.old.room }
        requires asks { IfSome dues.asks (λ asks. 0 < length (left asks)) }
        ensures room { self.new.room ≡ self.old.room - 3 }
        ensures owed { Becomes self.old.owed self.new.owed (λ own bytes_of before. before ++ replies_of_dues own bytes_of to dues) }
    {
        let Dues { asks, grant, end } = dues;
        self.push_or_give_back(to, Answer::of_asks(asks));
        self.push_or_give_back(to, Answer::of_packet(grant));
        self.push_or_give_back(to, Answer::of_packet(end));
    }

    /// What goes out first, if something is owed, from the life with that identifier and those
    /// features. A greeting takes memory for its words.
    pub fn first(
        &self,
        alloc: Global,
        own: Connid,
        features: u64,
    ) -> Result<Option<First>, NoMemory>
        ensures { IfOk result (λ first. IsFirst own features first (λ life bytes_of. owed_in life bytes_of self.now.owed)) }
    {
        match self.answers.first() {
            Some(owed) => first_of(alloc, own, features, owed),
            None => Ok(None),
        }
    }

    /// What goes out first went out. Where nothing is owed, nothing changes.
    pub fn sent(&mut self)
        ensures room { self.new.room ≡ self.old.room }
        ensures owed { Becomes self.old.owed self.new.owed (λ _ _ before. drop 1 before) }
    {
        drop_first(&mut self.answers);
    }

    /// Nothing is owed to the life any more.
    pub fn forget(&mut self, life: Life)
        ensures room { self.new.room ≡ self.old.room }
        ensures owed { Becomes self.old.owed self.new.owed (λ _ _ before. without_lives (life ∷ []) before) }
    {
        self.answers.forget(life);
    }
}

/// The first of the first answer went out.
fn drop_first(answers: &mut Answers<Answer>)
    requires { IsTrue (have_items answers.old.owed) }
    ensures items { IsTrue (have_items answers.new.owed) }
    ensures room { answers.new.room ≡ answers.old.room }
    ensures owed { Becomes answers.old.owed answers.new.owed (λ _ _ before. drop 1 before) }
{
    let Some(first) = answers.first().copied() else {
        return;
    };
    match first.answer.left() {
        Some(left) => answers.replace_first(left),
        None => {
            answers.pop();
        }
    }
}
