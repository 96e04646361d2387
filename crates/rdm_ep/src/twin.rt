//! Completions and bytes with their copies.
ghost use Rattle.std.specs.Prelude.{◌≡◌, ◌-◌, IfOk, length, take};
ghost use Rattle.rdm_num.specs.declared.completion.Completion.TheVariants as CompletionKind;
ghost use Rattle.rdm_num.specs.declared.completion.Outcome.TheVariants as OutcomeKind;

use rdm_num::{Bytes, Completion, Life, NoMemory, Outcome, RecvNo, SendNo};
use std::marker::Model;

/// A completion with a copy of it for the log of its port. The memory of both was taken when the
/// operation ended, so that a poll wants none.
#[derive(Debug, Drop)]
pub struct Twin {
    first: Completion,
    second: Completion,
}

impl Model for Twin {
    ghost use Rattle.std.specs.Prelude.{◌≡◌};
    ghost use Rattle.rdm_num.specs.declared.completion.Completion.{Completion};

    ghost Value = { Completion };

    ghost view = { λ t. t.first };

    ghost invariant = { λ t. t.second ≡ t.first };
}

impl Twin {
    /// The end of a send, which has no bytes.
    pub fn of_send(send: SendNo, gone: bool) -> Twin
        ensures { result ≡ CompletionKind.Send send gone }
    {
        Twin {
            first: Completion::Send { send, gone },
            second: Completion::Send { send, gone },
        }
    }

    /// A receive was cancelled, which has no bytes.
    pub fn of_cancelled(recv: RecvNo) -> Twin
        ensures { result ≡ CompletionKind.Recv recv OutcomeKind.Cancelled }
    {
        Twin {
            first: cancelled(recv),
            second: cancelled(recv),
        }
    }

    /// A receive of that capacity took a message: its first bytes that fit, and how many did not.
    pub fn of_message(
        recv: RecvNo,
        from: Life,
        tag: Option<u64>,
        cq_data: Option<u64>,
        bytes: TwinBytes,
        capacity: u64,
    ) -> Twin
        ensures { result ≡ CompletionKind.Recv recv (OutcomeKind.Took from tag cq_data (take capacity bytes) (length bytes - capacity)) }
    {
        let excess = (bytes.len() as u64).saturating_sub(capacity);
        let (first, second) = bytes.into_both(capacity);
        Twin {
            first: took(recv, from, tag, cq_data, first, excess),
            second: took(recv, from, tag, cq_data, second, excess),
        }
    }

    /// The completion, without its copy.
    pub fn into_completion(self) -> Completion
        ensures { result ≡ self }
    {
        self.first
    }

    /// Both of them.
    pub fn into_both(self) -> (Completion, Completion)
        ensures { (result.0 ≡ self) × (result.1 ≡ self) }
    {
        (self.first, self.second)
    }
}

/// A receive was cancelled.
fn cancelled(recv: RecvNo) -> Completion
    ensures { result ≡ CompletionKind.Recv recv OutcomeKind.Cancelled }
{
    Completion::Recv {
        recv,
        outcome: Outcome::Cancelled,
    }
}

/// A receive took a message with these bytes.
fn took(
    recv: RecvNo,
    from: Life,
    tag: Option<u64>,
    cq_data: Option<u64>,
    bytes: Bytes,
    excess: u64,
) -> Completion
    ensures { result ≡ CompletionKind.Recv recv (OutcomeKind.Took from tag cq_data bytes excess) }
{
    Completion::Recv {
        recv,
        outcome: Outcome::Took {
            from,
            tag,
            cq_data,
            bytes,
            excess,
        },
    }
}

/// The bytes of a message with a copy of them. The memory of both was taken when the message came,
/// so that its completion wants none.
#[derive(Debug, Drop)]
pub struct TwinBytes {
    first: Bytes,
    second: Bytes,
}

impl Model for TwinBytes {
    ghost use Rattle.std.specs.Prelude.{◌≡◌, ℕ, List};

    ghost Value = { List ℕ };

    ghost view = { λ t. t.first };

    ghost invariant = { λ t. t.second ≡ t.first };
}

impl TwinBytes {
    /// Bytes and a copy of them.
    pub fn copied(bytes: Bytes) -> Result<TwinBytes, NoMemory>
        ensures { IfOk result (λ t. t ≡ bytes) }
    {
        let copy = bytes.clone()?;
        Ok(TwinBytes {
            first: bytes,
            second: copy,
        })
    }

    pub fn len(&self) -> usize
        ensures { result ≡ length self.now }
    {
        self.first.len()
    }

    pub fn as_slice(&self) -> &[u8]
        ensures { result.now ≡ self.now }
    {
        self.first.as_slice()
    }

    /// The first so many of both.
    fn into_both(self, count: u64) -> (Bytes, Bytes)
        ensures { (result.0 ≡ take count self) × (result.1 ≡ take count self) }
    {
        (front(self.first, count), front(self.second, count))
    }
}

/// The first so many bytes.
fn front(bytes: Bytes, count: u64) -> Bytes
    ensures { result ≡ take count bytes }
{
    let mut items = bytes.into_vec();
    items.truncate(count as usize);
    Bytes::from_vec(items)
}
