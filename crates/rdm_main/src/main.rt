//! Does what its words say, from standard input to standard output.
#![tactic(auto)]

use rdm_io::{StdSink, StdSource};
use rdm_top::{Status, job};
use std::env;
use std::io::ErrorKind;
use std::process::ExitCode;

fn main(rt: HostRuntime) -> ExitCode {
    let status = status_of(&rt);
    if status.has_line() {
        let _ = println!(rt; "{status}");
    }
    ExitCode::from(status.exit_code())
}

/// How the call of the words after the program's name ended. Words that are no text are no command.
fn status_of(rt: &HostRuntime) -> Status {
    let words = match env::args(rt) {
        Ok(words) => words,
        Err(error) if error.kind() == ErrorKind::OutOfMemory => return Status::Memory,
        Err(_) => return Status::Usage,
    };
    let Ok(words) = words.skip(1).collect::<Vec<String>>(rt.alloc()) else {
        return Status::Memory;
    };
    let mut src = StdSource::new(rt.stdin());
    let mut out = StdSink::new(rt.stdout());
    job(rt.alloc(), words.as_slice(), &mut src, &mut out)
}
