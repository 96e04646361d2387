//! What is owed to one life.
ghost use Rattle.std.specs.Prelude.{◌≡◌, ◌<◌, IfSome, IsTrue, IfOk, length, option_map};
ghost use Rattle.rdm_rx.specs.Left.{left};
ghost use Rattle.rdm_answers.specs.Answers.{IsFirstOf, IsLeftOf, answer_of, has_item};
ghost use Rattle.rdm_answers.specs.declared.answer.Answer.TheVariants as A;

use rdm_num::{Connid, Life, MsgNo, NoMemory, OpId, PortNo, Words};
use rdm_owed::Owed;
use rdm_pkt::Packet;
use rdm_rx::Asks;
use rdm_wire::ReadAsk;
use std::alloc::Global;

/// What is owed to a life. It is a few numbers: what a packet wants of memory is taken when it goes
/// out.
#[derive(Clone, Copy, Debug, PartialEq, Eq)]
pub enum Answer {
    /// The own features; with the own port for a life that may not know of the own one.
    Greeting {
        raw: Option<PortNo>,
    },
    /// All asks of a read that are left. One at least is.
    Asks(Asks),
    /// Grants so many bytes of a send to a receive.
    Grant {
        send_id: OpId,
        recv_id: OpId,
        size: u64,
    },
    /// Ends a read.
    End {
        send_id: OpId,
        recv_id: OpId,
    },
    /// Says that the message of that number was received.
    Receipt {
        no: MsgNo,
    },
    /// The bytes that were asked for of a live send.
    Given(ReadAsk),
}

/// What goes out to a life. `Given` answers an ask: its bytes are read from the memory that the
/// send holds, by the one who knows where that is.
#[derive(Debug, Drop)]
pub enum Outgoing {
    Packet(Packet),
    Ask(ReadAsk),
    Given(ReadAsk),
}

/// What goes out first, and to which life.
#[derive(Debug, Drop)]
pub struct First {
    pub to: Life,
    pub item: Outgoing,
}

/// What a matched receive makes owed to the sender of its message, as `rdm_rx::Receiving` gives it:
/// at the match its asks, then the next grant, and an end once all bytes landed.
#[derive(Debug, Drop)]
pub struct Dues {
    pub asks: Option<Asks>,
    pub grant: Option<Packet>,
    pub end: Option<Packet>,
}

impl Answer {
    /// The asks of a read, if there are any.
    pub fn of_asks(asks: Option<Asks>) -> Option<Answer>
        requires { IfSome asks (λ a. 0 < length (left a)) }
        ensures answer { result ≡ option_map A.Asks asks }
        ensures item { IfSome result (λ a. IsTrue (has_item a)) }
    {
        match asks {
            Some(asks) => Some(Answer::Asks(asks)),
            None => None,
        }
    }

    /// The answer that goes out as a packet that a receive makes owed.
    #[tactic(auto, unfolding(crate::specs::Answers::answer_of, crate::specs::Answers::has_item))]
    pub fn of_packet(packet: Option<Packet>) -> Option<Answer>
        ensures answer { result ≡ answer_of packet }
        ensures item { IfSome result (λ a. IsTrue (has_item a)) }
    {
        match packet {
            Some(
                Packet::Cts {
                    send_id,
                    recv_id,
                    recv_length,
                    ..
                },
            ) => Some(Answer::Grant {
                send_id,
                recv_id,
                size: recv_length,
            }),
            Some(
                Packet::Eor {
                    send_id,
                    recv_id,
                    ..
                },
            ) => Some(Answer::End { send_id, recv_id }),
            Some(Packet::Receipt { no, .. }) => Some(Answer::Receipt { no }),
            _ => None,
        }
    }

    /// What is left of the answer once the first of it went out.
    pub(crate) fn left(self) -> Option<Answer>
        ensures left { IsLeftOf self result }
        ensures items { IfSome result (λ a. IsTrue (has_item a)) }
    {
        match self {
            Answer::Asks(asks) => next_asks(asks),
            _ => None,
        }
    }
}

/// The asks that are left once the first went out.
fn next_asks(mut asks: Asks) -> Option<Answer>
    ensures left { IsLeftOf (A.Asks asks) result }
    ensures items { IfSome result (λ a. IsTrue (has_item a)) }
{
    asks.step();
    if asks.is_done() {
        None
    } else {
        Some(Answer::Asks(asks))
    }
}

/// What goes out first of an answer, from the life with that identifier and those features.
pub(crate) fn first_of(
    alloc: Global,
    own: Connid,
    features: u64,
    owed: &Owed<Answer>,
) -> Result<Option<First>, NoMemory>
    ensures { IfOk result (λ first. IsFirstOf own features owed.now first) }
{
    let item = match owed.answer {
        Answer::Greeting { raw } => Outgoing::Packet(Packet::Handshake {
            words: Words::from_slice(alloc, &[features])?,
            connid: own,
            raw,
        }),
        Answer::Asks(asks) => match asks.first() {
            Some(ask) => Outgoing::Ask(ask),
            None => return Ok(None),
        },
        Answer::Grant {
            send_id,
            recv_id,
            size,
        } => Outgoing::Packet(Packet::Cts {
            send_id,
            recv_id,
            recv_length: size,
            connid: own,
        }),
        Answer::End { send_id, recv_id } => Outgoing::Packet(Packet::Eor {
            send_id,
            recv_id,
            connid: own,
        }),
        Answer::Receipt { no } => Outgoing::Packet(Packet::Receipt { no, connid: own }),
        Answer::Given(ask) => Outgoing::Given(ask),
    };
    Ok(Some(First { to: owed.to, item }))
}
