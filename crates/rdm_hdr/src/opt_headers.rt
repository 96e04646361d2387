//! The optional headers of a packet that opens a message.
ghost use Rattle.std.specs.Prelude.{◌≡◌, ◌≤◌, ◌+◌, ◌++◌, Bool, if◌then◌else◌, nat_le, not, ◌||◌, length, Some, is_some, OnOk, OnErr};
ghost use Rattle.std.specs.Bool.{then_some};
ghost use Rattle.std.specs.Vec.{vec_len, vec_capacity};
ghost use Rattle.rdm_hdr.specs.Fields.{number_at, fields_bytes};
ghost use Rattle.rdm_hdr.specs.Headers.{raw_fields, cq_data_fields, connid_fields, opt_fields};
ghost use Rattle.rdm_hdr.specs.Headers as Headers;
ghost use Rattle.rdm_hdr.specs.Reading.{opt_in, begins};

use crate::number::{append_bytes, append_u32, append_u64, has_bit, u32_at, u64_at};
use crate::{NoMemory, Opt};

/// The optional headers that the flags name at the front of the bytes, and their length.
pub fn read_opt(flags: u16, bytes: &[u8]) -> Option<(Opt, usize)>
    ensures { result ≡ opt_in flags bytes.now }
{
    let flags = u64::from(flags);
    let has_raw = has_bit(0, flags);
    let has_cq_data = has_bit(1, flags);
    let cq_data_place = size_if(has_raw, 36);
    let connid_place = cq_data_place + size_if(has_cq_data, 8);
    let opt = Opt {
        raw: read_raw(has_raw, bytes)?,
        cq_data: read_cq_data(has_cq_data, bytes, cq_data_place)?,
        connid: read_connid(has_bit(15, flags), bytes, connid_place)?,
    };
    Some((opt, opt_size(&opt)))
}

/// Appends the optional headers.
pub fn write_opt(opt: &Opt, to: &mut Vec<u8>) -> Result<(), NoMemory>
    ensures ok { OnOk result (to.new.items ≡ to.old.items ++ fields_bytes (opt_fields opt.now)) }
    ensures err { OnErr result (to.new.items ≡ to.old.items) }
{
    to.reserve(opt_size(opt))?;
    append_opt(opt, to);
    Ok(())
}

/// Appends the optional headers, for which room is reserved.
#[tactic(auto, using(crate::proofs::Opts::opt_sizes, crate::proofs::Opts::opt_bytes))]
pub fn append_opt(opt: &Opt, to: &mut Vec<u8>)
    requires { vec_len to.old + Headers.opt_size opt.now ≤ vec_capacity to.old }
    ensures items { to.new.items ≡ to.old.items ++ fields_bytes (opt_fields opt.now) }
    ensures len { vec_len to.new ≡ vec_len to.old + Headers.opt_size opt.now }
    ensures room { vec_capacity to.old ≤ vec_capacity to.new }
{
    append_raw(opt.raw, to);
    append_cq_data(opt.cq_data, to);
    append_connid(opt.connid, to);
}

/// Appends the raw address, if it is there.
#[tactic(auto, unfolding(crate::specs::Headers::raw_fields, crate::specs::Fields::fields_bytes))]
fn append_raw(raw: Option<(u32, u32)>, to: &mut Vec<u8>)
    requires { vec_len to.old + (if is_some raw then 36 else 0) ≤ vec_capacity to.old }
    ensures items { to.new.items ≡ to.old.items ++ fields_bytes (raw_fields raw) }
    ensures len { vec_len to.new ≡ vec_len to.old + (if is_some raw then 36 else 0) }
    ensures room { vec_capacity to.old ≤ vec_capacity to.new }
{
    if let Some(address) = raw {
        append_bytes(to, &raw_bytes(address));
    }
}

/// Appends the CQ data, if they are there.
#[tactic(auto, unfolding(crate::specs::Headers::cq_data_fields, crate::specs::Fields::fields_bytes))]
fn append_cq_data(cq_data: Option<u64>, to: &mut Vec<u8>)
    requires { vec_len to.old + (if is_some cq_data then 8 else 0) ≤ vec_capacity to.old }
    ensures items { to.new.items ≡ to.old.items ++ fields_bytes (cq_data_fields cq_data) }
    ensures len { vec_len to.new ≡ vec_len to.old + (if is_some cq_data then 8 else 0) }
    ensures room { vec_capacity to.old ≤ vec_capacity to.new }
{
    if let Some(data) = cq_data {
        append_u64(to, data);
    }
}

/// Appends the connection identifier, if it is there.
#[tactic(auto, unfolding(crate::specs::Headers::connid_fields, crate::specs::Fields::fields_bytes))]
fn append_connid(connid: Option<u32>, to: &mut Vec<u8>)
    requires { vec_len to.old + (if is_some connid then 4 else 0) ≤ vec_capacity to.old }
    ensures items { to.new.items ≡ to.old.items ++ fields_bytes (connid_fields connid) }
    ensures len { vec_len to.new ≡ vec_len to.old + (if is_some connid then 4 else 0) }
    ensures room { vec_capacity to.old ≤ vec_capacity to.new }
{
    if let Some(connid) = connid {
        append_u32(to, connid);
    }
}

/// How many bytes the optional headers have.
#[tactic(auto, using(crate::proofs::Opts::opt_sizes))]
pub fn opt_size(opt: &Opt) -> usize
    ensures value { result ≡ Headers.opt_size opt.now }
    ensures bound { result ≤ 48 }
{
    size_if(opt.raw.is_some(), 36)
        + size_if(opt.cq_data.is_some(), 8)
        + size_if(opt.connid.is_some(), 4)
}

/// The size of a header that may be there.
pub fn size_if(is_there: bool, size: usize) -> usize
    ensures { result ≡ (if is_there then size else 0) }
{
    if is_there { size } else { 0 }
}

/// The raw address at the front, if one is to be there.
fn read_raw(is_there: bool, bytes: &[u8]) -> Option<Option<(u32, u32)>>
    ensures { let raw = then_some is_there (number_at 4 4 bytes.now, number_at 24 4 bytes.now) in result ≡ then_some (begins (fields_bytes (raw_fields raw)) bytes.now) raw }
{
    if !is_there {
        return Some(None);
    }
    if bytes.len() < 36 {
        return None;
    }
    let address = (u32_at(bytes, 4), u32_at(bytes, 24));
    bytes
        .starts_with(&raw_bytes(address))
        .then_some(Some(address))
}

/// The CQ data at a place, if they are to be there.
fn read_cq_data(is_there: bool, bytes: &[u8], place: usize) -> Option<Option<u64>>
    requires { place ≤ 36 }
    ensures { result ≡ then_some (not is_there || nat_le (place + 8) (length bytes.now)) (then_some is_there (number_at place 8 bytes.now)) }
{
    if !is_there {
        return Some(None);
    }
    (place + 8 <= bytes.len()).then(|| Some(u64_at(bytes, place)))
}

/// The connection identifier at a place, if it is to be there.
fn read_connid(is_there: bool, bytes: &[u8], place: usize) -> Option<Option<u32>>
    requires { place ≤ 44 }
    ensures { result ≡ then_some (not is_there || nat_le (place + 4) (length bytes.now)) (then_some is_there (number_at place 4 bytes.now)) }
{
    if !is_there {
        return Some(None);
    }
    (place + 4 <= bytes.len()).then(|| Some(u32_at(bytes, place)))
}

/// The bytes of a raw address.
#[tactic(auto, unfolding(crate::specs::Headers::raw_fields, crate::specs::Fields::fields_bytes, crate::specs::Fields::field_bytes))]
fn raw_bytes(address: (u32, u32)) -> [u8; 36]
    ensures { result ≡ fields_bytes (raw_fields (Some address)) }
{
    let port = address.0.to_le_bytes();
    let connid = address.1.to_le_bytes();
    [
        32, 0, 0, 0, port[0], port[1], port[2], port[3], 0, 0, 0, 0, 0, 0, 0, 0, 0, 0, 0, 0, 1, 0,
        0, 0, connid[0], connid[1], connid[2], connid[3], 0, 0, 0, 0, 0, 0, 0, 0,
    ]
}
