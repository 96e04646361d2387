//! Numbers in little-endian bytes, at a place of a packet and at the end of one.
ghost use Rattle.std.specs.Prelude.{◌≡◌, ◌≤◌, ◌<◌, ◌+◌, ◌++◌, length};
ghost use Rattle.std.specs.Vec.{vec_len, vec_capacity};
ghost use Rattle.rdm_hdr.specs.Fields.{Number, field_bytes};
ghost use Rattle.rdm_hdr.specs.Fields as Fields;

use byteorder::{ByteOrder, LittleEndian};

/// Whether bit `n` of a word is set.
#[tactic(auto, using(crate::proofs::Bits::bit_is_set), unfolding(crate::specs::Fields::has_bit))]
pub fn has_bit(n: u32, word: u64) -> bool
    requires { n < 64 }
    ensures { result ≡ Fields.has_bit n word }
{
    word >> n & 1 == 1
}

/// The number of two bytes at a place.
#[tactic(auto, unfolding(crate::specs::Fields::number_at))]
pub fn u16_at(bytes: &[u8], place: usize) -> u16
    requires { place + 2 ≤ length bytes.now }
    ensures { result ≡ Fields.number_at place 2 bytes.now }
{
    LittleEndian::read_u16(&bytes[place..])
}

/// The number of four bytes at a place.
#[tactic(auto, unfolding(crate::specs::Fields::number_at))]
pub fn u32_at(bytes: &[u8], place: usize) -> u32
    requires { place + 4 ≤ length bytes.now }
    ensures { result ≡ Fields.number_at place 4 bytes.now }
{
    LittleEndian::read_u32(&bytes[place..])
}

/// The number of eight bytes at a place.
#[tactic(auto, unfolding(crate::specs::Fields::number_at))]
pub fn u64_at(bytes: &[u8], place: usize) -> u64
    requires { place + 8 ≤ length bytes.now }
    ensures { result ≡ Fields.number_at place 8 bytes.now }
{
    LittleEndian::read_u64(&bytes[place..])
}

/// Appends bytes, for which room is reserved.
pub fn append_bytes(to: &mut Vec<u8>, bytes: &[u8])
    requires { vec_len to.old + length bytes.now ≤ vec_capacity to.old }
    ensures items { to.new.items ≡ to.old.items ++ bytes.now }
    ensures len { vec_len to.new ≡ vec_len to.old + length bytes.now }
    ensures room { vec_capacity to.old ≤ vec_capacity to.new }
{
    let Ok(()) = to.extend_from_slice(bytes) else {
        unreachable!()
    };
}

/// Appends a number of one byte, for which room is reserved.
#[tactic(auto, unfolding(crate::specs::Fields::field_bytes))]
pub fn append_u8(to: &mut Vec<u8>, number: u8)
    requires { vec_len to.old + 1 ≤ vec_capacity to.old }
    ensures items { to.new.items ≡ to.old.items ++ field_bytes (Number 1 number) }
    ensures len { vec_len to.new ≡ vec_len to.old + 1 }
    ensures room { vec_capacity to.old ≤ vec_capacity to.new }
{
    append_bytes(to, &[number]);
}

/// Appends a number of two bytes, for which room is reserved.
#[tactic(auto, unfolding(crate::specs::Fields::field_bytes))]
pub fn append_u16(to: &mut Vec<u8>, number: u16)
    requires { vec_len to.old + 2 ≤ vec_capacity to.old }
    ensures items { to.new.items ≡ to.old.items ++ field_bytes (Number 2 number) }
    ensures len { vec_len to.new ≡ vec_len to.old + 2 }
    ensures room { vec_capacity to.old ≤ vec_capacity to.new }
{
    let mut bytes = [0; 2];
    LittleEndian::write_u16(&mut bytes, number);
    append_bytes(to, &bytes);
}

/// Appends a number of four bytes, for which room is reserved.
#[tactic(auto, unfolding(crate::specs::Fields::field_bytes))]
pub fn append_u32(to: &mut Vec<u8>, number: u32)
    requires { vec_len to.old + 4 ≤ vec_capacity to.old }
    ensures items { to.new.items ≡ to.old.items ++ field_bytes (Number 4 number) }
    ensures len { vec_len to.new ≡ vec_len to.old + 4 }
    ensures room { vec_capacity to.old ≤ vec_capacity to.new }
{
    let mut bytes = [0; 4];
    LittleEndian::write_u32(&mut bytes, number);
    append_bytes(to, &bytes);
}

/// Appends a number of eight bytes, for which room is reserved.
#[tactic(auto, unfolding(crate::specs::Fields::field_bytes))]
pub fn append_u64(to: &mut Vec<u8>, number: u64)
    requires { vec_len to.old + 8 ≤ vec_capacity to.old }
    ensures items { to.new.items ≡ to.old.items ++ field_bytes (Number 8 number) }
    ensures len { vec_len to.new ≡ vec_len to.old + 8 }
    ensures room { vec_capacity to.old ≤ vec_capacity to.new }
{
    let mut bytes = [0; 8];
    LittleEndian::write_u64(&mut bytes, number);
    append_bytes(to, &bytes);
}
