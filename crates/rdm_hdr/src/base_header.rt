//! The header that begins each packet.
ghost use Rattle.std.specs.Prelude.{◌≡◌, ◌≤◌, ◌+◌, ◌++◌, OnOk, OnErr};
ghost use Rattle.std.specs.Vec.{vec_len, vec_capacity};
ghost use Rattle.rdm_hdr.specs.Fields.{fields_bytes};
ghost use Rattle.rdm_hdr.specs.Headers.{base_fields};
ghost use Rattle.rdm_hdr.specs.Reading.{base_in};

use crate::number::{append_u8, append_u16, u16_at};
use crate::{Base, NoMemory};

/// The base header at the front of the bytes.
#[tactic(auto, unfolding(crate::specs::Reading::base_in, crate::specs::Fields::number_at))]
pub fn read_base(bytes: &[u8]) -> Option<Base>
    ensures { result ≡ base_in bytes.now }
{
    if bytes.len() < 4 {
        return None;
    }
    Some(Base {
        kind: bytes[0],
        version: bytes[1],
        flags: u16_at(bytes, 2),
    })
}

/// Appends the base header.
pub fn write_base(base: Base, to: &mut Vec<u8>) -> Result<(), NoMemory>
    ensures ok { OnOk result (to.new.items ≡ to.old.items ++ fields_bytes (base_fields base)) }
    ensures err { OnErr result (to.new.items ≡ to.old.items) }
{
    to.reserve(4)?;
    append_base(base, to);
    Ok(())
}

/// Appends the base header, for which room is reserved.
#[tactic(auto, unfolding(crate::specs::Headers::base_fields, crate::specs::Fields::fields_bytes))]
pub fn append_base(base: Base, to: &mut Vec<u8>)
    requires { vec_len to.old + 4 ≤ vec_capacity to.old }
    ensures items { to.new.items ≡ to.old.items ++ fields_bytes (base_fields base) }
    ensures len { vec_len to.new ≡ vec_len to.old + 4 }
    ensures room { vec_capacity to.old ≤ vec_capacity to.new }
{
    append_u8(to, base.kind);
    append_u8(to, base.version);
    append_u16(to, base.flags);
}
