//! Where a script is refused.
ghost use Rattle.std.specs.Prelude.{◌≡◌};
ghost use Rattle.rdm_json.specs.Words.{field_word};

use std::fmt;

/// A place of a script. Ranks, instructions and choices are counted from 0, and so are the
/// communicators and calls of a plan.
#[derive(Clone, Copy, Debug, PartialEq, Eq)]
pub enum Place {
    Whole,
    Field(FieldName),
    Rank(u32),
    /// An instruction of a rank.
    Op(u32, u64),
    Choice(u64),
    Comm(u32),
    Call(u32),
}

/// A key of the script's outermost object, or of the pools in it.
#[derive(Clone, Copy, Debug, PartialEq, Eq)]
pub enum FieldName {
    Version,
    Mtu,
    Medium,
    Read,
    Runt,
    Credits,
    First,
    Clock,
    Pools,
    PoolTx,
    PoolRx,
    PoolEarly,
    PoolCq,
    PoolInbox,
    Ranks,
    Choices,
}

impl FieldName {
    /// The key, after that of the pools where it's in them.
    pub fn word(self) -> &'static str
        ensures { result.now ≡ field_word self }
    {
        match self {
            FieldName::Version => "version",
            FieldName::Mtu => "mtu",
            FieldName::Medium => "medium",
            FieldName::Read => "read",
            FieldName::Runt => "runt",
            FieldName::Credits => "credits",
            FieldName::First => "first",
            FieldName::Clock => "clock",
            FieldName::Pools => "pools",
            FieldName::PoolTx => "pools.tx",
            FieldName::PoolRx => "pools.rx",
            FieldName::PoolEarly => "pools.early",
            FieldName::PoolCq => "pools.cq",
            FieldName::PoolInbox => "pools.inbox",
            FieldName::Ranks => "ranks",
            FieldName::Choices => "choices",
        }
    }
}

impl fmt::Display for Place {
    ghost use Rattle.std.specs.Prelude.{Some};
    ghost use Rattle.rdm_json.specs.Words.{place_text};

    ghost output = { λ place. Some (place_text place) };

    fn fmt<W: fmt::Write>(&self, f: &mut fmt::Formatter<W>) -> fmt::Result {
        match self {
            Place::Whole => write!(f, "whole"),
            Place::Field(name) => {
                let word = name.word();
                write!(f, "field {word}")
            }
            Place::Rank(rank) => write!(f, "rank {rank}"),
            Place::Op(rank, index) => write!(f, "op {rank} {index}"),
            Place::Choice(index) => write!(f, "choice {index}"),
            Place::Comm(index) => write!(f, "comm {index}"),
            Place::Call(index) => write!(f, "call {index}"),
        }
    }
}
