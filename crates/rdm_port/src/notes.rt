//! Notes that a port queues.
ghost use Rattle.std.specs.Prelude.{◌≡◌, ◌≤◌, ◌+◌, ◌++◌, map, vec_len, vec_capacity};
ghost use Rattle.rdm_model.specs.Notes.{notes_by};
ghost use Rattle.rdm_model.specs.Deeds.{Did};
ghost use Rattle.rdm_model.specs.declared.job.Instr.TheVariants as InstrKind;
ghost use Rattle.rdm_port.specs.Kept.{queued_of};

use crate::kept::QueuedNote;
use rdm_num::{Connid, PortNo};
use rdm_wire::NoteBody;

/// Queues the note that a life was opened, to each other port, rising.
pub fn queue_opened(notes: &mut Vec<QueuedNote>, number: PortNo, ports: u32, connid: Connid)
    requires { vec_len notes.old + ports ≤ vec_capacity notes.old }
    ensures { notes.new.items ≡ notes.old.items ++ map queued_of (notes_by ports number.0 (Did (InstrKind.OpenLife connid))) }
{
    for port in 0..ports {
        if port != number.0 {
            notes.push_reserved(QueuedNote {
                to: PortNo(port),
                body: NoteBody::Opened(connid),
            });
        }
    }
}
