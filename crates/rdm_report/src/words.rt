//! The words of instructions, refusals, pools and classes.
ghost use Rattle.std.specs.Prelude.{◌≡◌};
ghost use Rattle.rdm_report.specs.Words.{op_word, why_word, pool_word, class_word};

use rdm_model::{Class, OpName, PoolName, Why};

pub fn op_word(op: OpName) -> &'static str
    ensures { result.now ≡ op_word op }
{
    match op {
        OpName::Open => "open",
        OpName::Insert => "insert",
        OpName::Reg => "reg",
        OpName::Send => "send",
        OpName::Recv => "recv",
        OpName::Cancel => "cancel",
        OpName::Note => "note",
        OpName::Await => "await",
        OpName::Wait => "wait",
        OpName::Close => "close",
    }
}

pub fn why_word(why: Why) -> &'static str
    ensures { result.now ≡ why_word why }
{
    match why {
        Why::NoRegion => "NoRegion",
        Why::Range => "Range",
        Why::NoEntry => "NoEntry",
        Why::Busy => "Busy",
        Why::Numbers => "Numbers",
        Why::NoConfirm => "NoConfirm",
        Why::Superseded => "Superseded",
        Why::NotPosted => "NotPosted",
    }
}

pub fn pool_word(pool: PoolName) -> &'static str
    ensures { result.now ≡ pool_word pool }
{
    match pool {
        PoolName::Tx => "Tx",
        PoolName::Rx => "Rx",
        PoolName::Cq => "Cq",
    }
}

pub fn class_word(class: Class) -> &'static str
    ensures { result.now ≡ class_word class }
{
    match class {
        Class::ToOther => "ToOther",
        Class::FromOther => "FromOther",
        Class::Malformed => "Malformed",
        Class::Unknown => "Unknown",
        Class::BadKey => "BadKey",
        Class::NoOp => "NoOp",
        Class::Mismatch => "Mismatch",
        Class::Overlap => "Overlap",
    }
}
