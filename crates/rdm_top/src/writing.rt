//! Gives a whole text.
ghost use Rattle.std.specs.Prelude.{◌≡◌, ◌<◌, ◌≤◌, ◌++◌, ◌+◌, List, ℕ, length, OnOk, OnErr, take};
ghost use Rattle.std.specs.Io.KnownBytes.{Appends};
ghost use Rattle.rdm_io.specs.Faults.{HasCause};
ghost use Rattle.rdm_top.specs.Promise.{GavePart};

use rdm_io::{Failed, Sink};

/// Gives all of the bytes. Each write is handed all that is not given yet.
pub fn write_all<K: Sink>(sink: &mut K, bytes: &[u8]) -> Result<(), Failed>
    ensures ok { OnOk result (Appends (K.given sink.old) (K.given sink.new) bytes.now) }
    ensures err { OnErr result (GavePart (K.given sink.old) (K.given sink.new) bytes.now) }
    ensures cause { HasCause (K.faults sink.old) (K.faults sink.new) result }
{
    let mut done = 0;
    while done < bytes.len() {
        let count = sink.write(&bytes[done..])?;
        done += count;
    }
    Ok(())
}
