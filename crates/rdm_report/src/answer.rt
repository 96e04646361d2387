//! What instructions and datagrams were answered.
ghost use Rattle.std.specs.Prelude.{◌≡◌, ◌++◌, string_bytes, OnOk};
ghost use Rattle.rdm_report.specs.Answers.{did_text, yet_text, answer_text, numbers_text, entered_text, handled_text};

use crate::words::{class_word, pool_word, why_word};
use rdm_model::{DidWhat, Entered, Handled, Next, Yet};
use std::alloc::AllocError;

/// The numbers that an instruction made.
fn put_did(out: &mut String, what: DidWhat) -> Result<(), AllocError>
    ensures { OnOk result (string_bytes out.new ≡ string_bytes out.old ++ did_text what) }
{
    match what {
        DidWhat::Plain => write!(out, "did"),
        DidWhat::Region(region) => {
            let region = region.0;
            write!(out, "did {region}")
        }
        DidWhat::Sent(send, msg) => {
            let send = send.0;
            let msg = msg.0;
            write!(out, "did {send} msg {msg}")
        }
        DidWhat::Posted(recv) => {
            let recv = recv.0;
            write!(out, "did {recv}")
        }
    }
}

/// What an instruction waits for.
fn put_yet(out: &mut String, yet: Yet) -> Result<(), AllocError>
    ensures { OnOk result (string_bytes out.new ≡ string_bytes out.old ++ yet_text yet) }
{
    match yet {
        Yet::Wait { have, need } => write!(out, "NotYet Wait {have} {need}"),
        Yet::Await => write!(out, "NotYet Await"),
        Yet::Opened => write!(out, "NotYet Opened"),
        Yet::Handshake => write!(out, "NotYet Handshake"),
        Yet::Parts(parts) => write!(out, "NotYet Parts {parts}"),
    }
}

/// The answer of an instruction.
pub fn put_answer(out: &mut String, answer: Next) -> Result<(), AllocError>
    ensures { OnOk result (string_bytes out.new ≡ string_bytes out.old ++ answer_text answer) }
{
    match answer {
        Next::Did(what) => put_did(out, what),
        Next::Refused(why) => {
            let word = why_word(why);
            write!(out, "refused {word}")
        }
        Next::NotYet(yet) => put_yet(out, yet),
        Next::Again(pool) => {
            let word = pool_word(pool);
            write!(out, "Again {word}")
        }
        Next::Ended => write!(out, "Ended"),
        Next::Worn => write!(out, "Worn"),
        Next::Memory => write!(out, "Memory"),
    }
}

/// The message numbers that a datagram let in.
fn put_numbers(out: &mut String, entered: Entered) -> Result<(), AllocError>
    ensures { OnOk result (string_bytes out.new ≡ string_bytes out.old ++ numbers_text entered) }
{
    let first = entered.first.0;
    let count = entered.count;
    write!(out, "enters {first} {count}")
}

fn put_entered(out: &mut String, entered: Option<Entered>) -> Result<(), AllocError>
    ensures { OnOk result (string_bytes out.new ≡ string_bytes out.old ++ entered_text entered) }
{
    match entered {
        Some(numbers) => {
            write!(out, "took ")?;
            put_numbers(out, numbers)
        }
        None => write!(out, "took"),
    }
}

/// The answer to a datagram.
pub fn put_handled(out: &mut String, answer: Handled) -> Result<(), AllocError>
    ensures { OnOk result (string_bytes out.new ≡ string_bytes out.old ++ handled_text answer) }
{
    match answer {
        Handled::Took(entered) => put_entered(out, entered),
        Handled::Dropped(class) => {
            let word = class_word(class);
            write!(out, "dropped {word}")
        }
        Handled::AgainEarly => write!(out, "AgainEarly"),
        Handled::AgainCopy => write!(out, "AgainCopy"),
        Handled::Empty => write!(out, "Empty"),
        Handled::Worn => write!(out, "Worn"),
        Handled::Memory => write!(out, "Memory"),
    }
}
