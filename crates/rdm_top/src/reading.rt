//! Reads a whole script.
ghost use Rattle.std.specs.Prelude.{◌≡◌, ◌<◌, ◌≤◌, ◌++◌, ◌+◌, List, ℕ, length, take};
ghost use Rattle.std.specs.Io.KnownBytes.{Consumes, IsAtEnd};
ghost use Rattle.rdm_io.specs.Faults.{Rose};
ghost use Rattle.rdm_top.specs.Reads.{Gathers, MayFail};

use rdm_io::Source;
use rdm_num::SCRIPT_MAX;
use std::alloc::Global;

/// Why the input was not read.
#[derive(Clone, Copy, Debug, PartialEq, Eq)]
pub enum ReadError {
    Fault,
    Memory,
}

/// Reads until the input ends, or until more came than a script may have.
pub fn read_all<S: Source>(alloc: Global, source: &mut S) -> Result<Vec<u8>, ReadError>
    ensures bytes { Gathers (S.left source.old) (S.left source.new) result }
    ensures cause { MayFail (S.faults source.old) (S.faults source.new) result }
    ensures later { S.faults source.old ≤ S.faults source.new }
{
    let mut bytes = Vec::new(alloc);
    let mut room = [0u8; 65_536];
    // each read but the last gives a byte at least
    for _turn in 0..8_388_610u32 {
        match source.read(&mut room) {
            Err(_) => return Err(ReadError::Fault),
            Ok(0) => return Ok(bytes),
            Ok(count) => {
                let Ok(()) = bytes.extend_from_slice(&room[..count]) else {
                    return Err(ReadError::Memory);
                };
            }
        }
        if bytes.len() as u64 > SCRIPT_MAX {
            return Ok(bytes);
        }
    }
    unreachable!()
}
