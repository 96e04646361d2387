//! The one call of a program.
ghost use Rattle.std.specs.Prelude.{◌≡◌, ◌≢◌, ◌↔◌, false};
ghost use Rattle.rdm_top.specs.Promise.{is_replay, Untouched, Replies, Caused};

use crate::reading::{ReadError, read_all};
use crate::status::Status;
use crate::writing::write_all;
use rdm_io::{Sink, Source};
use rdm_report::text;
use rdm_script::{ScriptRefused, job_of};
use rdm_world::play;
use std::alloc::Global;

/// Does what the words say: `replay` reads a script, plays its job and gives the report.
pub fn job<S: Source, K: Sink>(alloc: Global, words: &[String], src: &mut S, out: &mut K) -> Status
    ensures usage { (result ≡ Status.Usage) ↔ (is_replay words.now ≡ false) }
    ensures untouched { Untouched result src.old src.new out.old out.new }
    ensures replies { Replies (S.left src.old) (S.left src.new) (K.given out.old) (K.given out.new) result }
    ensures caused { Caused (S.faults src.old) (S.faults src.new) (K.faults out.old) (K.faults out.new) result }
{
    match words {
        [word] if word.as_str() == "replay" => replay(alloc, src, out),
        _ => Status::Usage,
    }
}

/// Reads a script, plays its job and gives the report.
fn replay<S: Source, K: Sink>(alloc: Global, src: &mut S, out: &mut K) -> Status
    ensures known { result ≢ Status.Usage }
    ensures replies { Replies (S.left src.old) (S.left src.new) (K.given out.old) (K.given out.new) result }
    ensures caused { Caused (S.faults src.old) (S.faults src.new) (K.faults out.old) (K.faults out.new) result }
{
    let bytes = match read_all(alloc, src) {
        Ok(bytes) => bytes,
        Err(ReadError::Fault) => return Status::ReadFault,
        Err(ReadError::Memory) => return Status::Memory,
    };
    let job = match job_of(alloc, bytes.as_slice()) {
        Ok(job) => job,
        Err(ScriptRefused::Bad(bad)) => return Status::BadScript(bad),
        Err(ScriptRefused::Memory) => return Status::Memory,
    };
    let Ok(report) = play(alloc, &job) else {
        return Status::Memory;
    };
    let Ok(text) = text(alloc, &report) else {
        return Status::Memory;
    };
    match write_all(out, text.as_slice()) {
        Ok(()) if report.stuck => Status::Stuck,
        Ok(()) => Status::Done,
        Err(_) => Status::WriteFault,
    }
}
