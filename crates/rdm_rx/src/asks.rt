//! What a receive asks for of a message that it reads.
ghost use Rattle.std.specs.Prelude.{◌≡◌, ◌<◌, ◌≤◌, ◌^◌, ◌==◌, [], IsTrue, IfNone, IfSome, length, slice_get, drop};
ghost use Rattle.std.specs.List.{list_all};
ghost use Rattle.rdm_model.specs.Reads.{asks_from};
ghost use Rattle.rdm_model.specs.Replies.{asks_for};
ghost use Rattle.rdm_rx.specs.Asking.{IsReadList, HeadFits, read_length, has_end, padded_list};

use rdm_num::{ASK_MAX, Head, Iov, IovEntry, OpId, Shape};
use rdm_wire::ReadAsk;

/// The most ranges of a read list.
const RANGES_MAX: usize = 4;

/// A range with no bytes, which no ask is for.
const NO_RANGE: IovEntry = IovEntry {
    offset: 0,
    length: 0,
    key: 0,
};

/// The asks of one read that are left, in rising order. An endpoint owes them as one answer, from
/// the match until the last of them went out. It is a few numbers, so a copy takes no memory.
#[derive(Clone, Copy, Debug, PartialEq, Eq)]
pub struct Asks {
    send_id: OpId,
    recv_id: OpId,
    /// The read list, with empty ranges after its last one.
    ranges: [IovEntry; RANGES_MAX],
    /// How many bytes of the message were asked for, or came otherwise.
    at: u64,
    ghost ends: { IsTrue (list_all has_end ranges) },
    ghost few_bytes: { read_length ranges < 2 ^ 64 },
}

impl Asks {
    ghost use Rattle.rdm_rx.specs.Left.{left};

    /// The asks of a read from that byte of the message on: from 0, or past the first part where the
    /// message has one. `iov` lists the whole message.
    pub fn new(send: OpId, recv: OpId, iov: &Iov, from: u64) -> Asks
        requires { IsReadList iov.now }
        ensures { left result ≡ asks_from send recv iov.now 0 from }
    {
        Asks {
            send_id: send,
            recv_id: recv,
            ranges: padded(iov.as_slice()),
            at: from,
        }
    }

    /// The asks that a message of that head makes owed when its receive is matched, if there are any:
    /// all of a message that is read, and of a runt what its segments do not bring.
    #[tactic(auto, unfolding(crate::specs::Asking::read_list_in, rdm_model::specs::Replies::asks_for))]
    pub fn of(head: &Head, recv: OpId) -> Option<Asks>
        requires { HeadFits head.now }
        ensures none { IfNone result (asks_for head.now.shape recv ≡ []) }
        ensures some { IfSome result (λ asks. (left asks ≡ asks_for head.now.shape recv) × (0 < length (left asks))) }
    {
        let asks = match &head.shape {
            Shape::LongRead { send_id, iov } => Asks::new(*send_id, recv, iov, 0),
            Shape::Runt {
                send_id,
                iov,
                runt_length,
            } => Asks::new(*send_id, recv, iov, *runt_length),
            Shape::Eager | Shape::Medium | Shape::LongCts { .. } => return None,
        };
        if asks.is_done() { None } else { Some(asks) }
    }

    /// The ask that goes out next, if one is left.
    pub fn first(&self) -> Option<ReadAsk>
        ensures { result ≡ slice_get (left self.now) 0 }
    {
        let mut begin = 0;
        for range in &self.ranges {
            let end = begin + range.length;
            if self.at < end {
                return Some(ReadAsk {
                    send_id: self.send_id,
                    recv_id: self.recv_id,
                    key: range.key,
                    offset: range.offset + (self.at - begin),
                    length: (end - self.at).min(ASK_MAX),
                    at: self.at,
                });
            }
            begin = end;
        }
        None
    }

    /// The first ask went out. Where none is left, nothing changes.
    pub fn step(&mut self)
        ensures { left self.new ≡ drop 1 (left self.old) }
    {
        if let Some(ask) = self.first() {
            self.at = ask.at + ask.length;
        }
    }

    /// Whether all asks went out.
    pub fn is_done(&self) -> bool
        ensures { result ≡ (length (left self.now) == 0) }
    {
        self.first().is_none()
    }
}

/// The ranges, with empty ones after the last.
fn padded(iov: &[IovEntry]) -> [IovEntry; RANGES_MAX]
    requires { length iov.now ≤ 4 }
    ensures { result ≡ padded_list iov.now }
{
    let mut ranges = [NO_RANGE; RANGES_MAX];
    ranges[..iov.len()].copy_from_slice(iov);
    ranges
}
