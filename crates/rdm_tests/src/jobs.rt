ghost use Rattle.std.specs.Prelude.{◌≤◌};

use rdm_io::{MemSink, MemSource};
use rdm_top::{Status, job};
use std::alloc::{AllocError, Global};
use std::test::Fail;

const HELLO: &str =
    r#"{"version":1,"ranks":[{"ops":[{"op":"open","connid":5},{"op":"insert","port":1,"connid":7},{"op":"reg","text":"hello"},{"op":"send","to":1,"region":0,"at":0,"len":5,"tag":7},{"op":"wait","count":1}]},{"ops":[{"op":"open","connid":7},{"op":"reg","zero":8},{"op":"recv","region":0,"at":0,"len":8,"tag":7},{"op":"wait","count":1}]}]}"#;

// What the job of HELLO does, entry by entry.
const REPORT: &str = "rdm report 1
status done
entries 21
1 0 next 0 open did
1 1 next 0 open did
2 0 push 0 to 1 note opened 5
2 1 push 0 to 0 note opened 7
3 0 handle 1 0 took
3 1 handle 0 0 took
4 0 next 1 insert did
4 1 next 1 reg did 0
5 0 next 2 reg did 0
5 1 next 2 recv did 0
6 0 next 3 send did 0 msg 0
7 0 push 1 to 1.7 packet 57 4104090000000000070000000000000020000000000000000000000000000000000000000100000005000000000000000000000068656c6c6f
8 0 poll send 0 ok
8 1 handle 0 1 took enters 0 1
9 0 next 4 wait did
9 1 poll recv 0 ok from 0.5 tag 7 data - length 5 68656c6c6f
10 1 next 3 wait did
11 1 push 1 to 0.5 packet 20 0904008004000000190000000000000007000000
12 0 handle 1 1 took
13 0 push 2 to 1.7 packet 20 0904008004000000190000000000000005000000
14 1 handle 0 2 took
rank 0 done 5 of 5 dropped 0 0 waiting 0
rank 1 done 4 of 4 dropped 0 0 waiting 0
end
";

/// What `replay` answers to a script, and what it gave, through a source and a sink of these steps
/// whose calls of these numbers fail.
fn replayed(
    alloc: Global,
    script: &str,
    step: usize,
    reads: Vec<u64>,
    writes: Vec<u64>,
) -> Result<(Status, MemSink), AllocError>
    requires { 1 ≤ step }
{
    let words = vec![in alloc; "replay".to_string(alloc)?]?;
    let mut src = MemSource::new(script.as_bytes().to_vec(alloc)?, step, reads);
    let mut out = MemSink::new(alloc, 65_536, step, writes)?;
    let status = job(alloc, words.as_slice(), &mut src, &mut out);
    Ok((status, out))
}

#[test]
fn a_message_is_played(rt: HostRuntime) -> Result<(), Fail> {
    let alloc = rt.alloc();
    for step in [1, 7, 65_536] {
        let (status, out) = replayed(alloc, HELLO, step, Vec::new(alloc), Vec::new(alloc))?;
        assert_eq!(rt; status, Status::Done, "in steps of {step}");
        assert_eq!(rt; out.given(), REPORT.as_bytes(), "in steps of {step}");
    }
    Ok(())
}

#[test]
fn a_read_that_fails_is_told(rt: HostRuntime) -> Result<(), Fail> {
    let alloc = rt.alloc();
    // six reads for 330 bytes in steps of 64, and one that finds the end
    for (call, is) in [
        (0, Status::ReadFault),
        (1, Status::ReadFault),
        (2, Status::ReadFault),
        (3, Status::ReadFault),
        (4, Status::ReadFault),
        (5, Status::ReadFault),
        (6, Status::ReadFault),
        (7, Status::Done),
    ] {
        let reads = vec![in alloc; call]?;
        let (status, out) = replayed(alloc, HELLO, 64, reads, Vec::new(alloc))?;
        assert_eq!(rt; status, is, "the read of number {call} fails");
        if is == Status::ReadFault {
            assert!(rt; out.given().is_empty(), "nothing is given");
        }
    }
    Ok(())
}

#[test]
fn a_write_that_fails_is_told(rt: HostRuntime) -> Result<(), Fail> {
    let alloc = rt.alloc();
    let mut given: Vec<u8> = Vec::new(alloc);
    for (call, piece) in REPORT.as_bytes().chunks(64).enumerate() {
        let writes = vec![in alloc; call as u64]?;
        let (status, out) = replayed(alloc, HELLO, 64, Vec::new(alloc), writes)?;
        assert_eq!(rt;
            status,
            Status::WriteFault,
            "the write of number {call} fails"
        );
        assert_eq!(rt; out.given(), given.as_slice(), "the pieces before it");
        given.extend_from_slice(piece)?;
    }
    Ok(())
}
