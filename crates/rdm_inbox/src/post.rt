//! What the passes of an inbox know, and what each step tells them. For the proofs alone.
ghost use Rattle.rdm_inbox.specs.declared.post.Post.TheVariants.{Nobody};
ghost use Rattle.rdm_inbox.specs.Letters.{Letters, unopened, opened, without_last, last_sender, taken_in, settled, DoesSend, DoesTake, DoesPut, DoesTakeOut, IsLeft};

use crossbeam_queue::protocol::{Join, Lesson, Outcome, Protocol, Split};
use crossbeam_queue::{Pass, RuledArrayQueue};
use rdm_wire::Datagram;
use std::collections::LinkedList;
use std::marker::{Brand, PhantomData};

/// What the pass of one sender knows: what it sent to the inbox of a port, and how often it found
/// that inbox full.
pub struct SenderPost {
    pub from: u32,
    pub port: u32,
    pub ports: u32,
    pub sent: LinkedList<Datagram>,
    pub fulls: u64,
}

/// What the reader's pass knows: what it took, and, of the first senders, what they sent. It has
/// those senders' passes in it.
pub struct ReaderPost {
    pub port: u32,
    pub ports: u32,
    pub size: u64,
    pub taken: LinkedList<Datagram>,
    pub known: LinkedList<LinkedList<Datagram>>,
    pub fulls: u64,
    pub empties: u64,
}

pub enum Post {
    Sender(SenderPost),
    Reader(ReaderPost),
    Nobody,
}

/// For each sender, what was taken from it and what is queued from it, in order, is what its pass sent.
pub struct Mail;

impl Protocol<Datagram, Post> for Mail {
    ghost holds = { Letters };

    ghost first = { unopened };
}

/// The queue of an inbox.
pub type Line = RuledArrayQueue<Datagram, Post, Mail>;

pub type PostPass = Pass<Datagram, Post>;

/// Whose inbox a queue is, of how many ports, and for how many datagrams. It is picked when the
/// queue is made.
pub trait Address {
    ghost use Rattle.std.specs.Prelude.{ℕ};

    ghost port: { ℕ };

    ghost ports: { ℕ };

    ghost size: { ℕ };
}

impl Address for Brand {
    ghost port = { 0 };

    ghost ports = { 0 };

    ghost size = { 0 };
}

/// The first pass comes to be that of an inbox.
pub struct Opens<J> {
    of: PhantomData<J>,
}

impl<J: Address> Split<Post> for Opens<J> {
    ghost left = { λ v. opened J.port J.ports J.size };

    ghost right = { λ v. Nobody };
}

/// The last sender that the reader has gets a pass of its own.
pub struct LastLeaves;

impl Split<Post> for LastLeaves {
    ghost left = { without_last };

    ghost right = { last_sender };
}

/// The reader takes in the next sender.
pub struct NextJoins;

impl Join<Post> for NextJoins {
    ghost both = { taken_in };

    ghost spent = { Nobody };
}

/// The reader that has all senders forgets what was sent and taken.
pub struct Settles;

impl Split<Post> for Settles {
    ghost left = { settled };

    ghost right = { λ v. Nobody };
}

/// A sender's pass sends.
pub struct Sends;

impl Outcome<Datagram, Post> for Sends {
    ghost then = { DoesSend };
}

impl Lesson<Datagram, Post> for Sends {
    ghost fact = { IsLeft };
}

/// The reader's pass takes.
pub struct Takes;

impl Outcome<Datagram, Post> for Takes {
    ghost then = { DoesTake };
}

impl Lesson<Datagram, Post> for Takes {
    ghost fact = { IsLeft };
}

/// The pass that has all senders sends for one of them.
pub struct Puts;

impl Outcome<Datagram, Post> for Puts {
    ghost then = { DoesPut };
}

impl Lesson<Datagram, Post> for Puts {
    ghost fact = { IsLeft };
}

/// The pass that has all senders takes, and forgets what it took.
pub struct TakesOut;

impl Outcome<Datagram, Post> for TakesOut {
    ghost then = { DoesTakeOut };
}

impl Lesson<Datagram, Post> for TakesOut {
    ghost fact = { IsLeft };
}
