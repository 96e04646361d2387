//! What a region is made with.
ghost use Rattle.std.specs.Prelude.{◌≡◌, ◌<◌, IfOk, map, length};
ghost use Rattle.std.specs.List.{list_all};
ghost use Rattle.serde_json.specs.View.{view};
ghost use Rattle.rdm_json.specs.Results.{result_map};
ghost use Rattle.rdm_script.specs.Contents.{is_hex_digit, hex_value, is_hex, hex_bytes, fill_byte, fill_bytes, as_length, text_content, hex_content, zero_content, fill_of, fill_parts, fill_content, content_of};
ghost use Rattle.rdm_script.specs.Drafts.{made_content};

use crate::Reason;
use rdm_json::{Form, array, keys_known, number, number_of, text};
use rdm_num::{Bytes, LEN_MAX, NoMemory};
use serde_json::Value;
use std::alloc::Global;

/// How the content of a region is said.
#[derive(Clone, Copy, Drop)]
pub enum Content<'v> {
    /// The bytes of a text.
    Text(&'v str),
    /// What an even number of hexadecimal digits spells.
    Hex(&'v str),
    /// So many zeros.
    Zero(u32),
    /// A length and a seed.
    Fill(u32, u8),
}

fn is_hex_digit(c: u8) -> bool
    ensures { result ≡ is_hex_digit c }
{
    matches!(c, b'0'..=b'9' | b'A'..=b'F' | b'a'..=b'f')
}

/// The value of a hexadecimal digit.
fn hex_value(c: u8) -> u8
    ensures value { result ≡ hex_value c }
    ensures below { result < 16 }
{
    match c {
        b'0'..=b'9' => c - b'0',
        b'A'..=b'F' => c - 55,
        b'a'..=b'f' => c - 87,
        _ => 0,
    }
}

fn are_hex_digits(text: &str) -> bool
    ensures { result ≡ list_all is_hex_digit text.now }
{
    text.as_bytes().iter().all(|c| is_hex_digit(*c))
}

/// An even number of hexadecimal digits.
fn is_hex(text: &str) -> bool
    ensures { result ≡ is_hex text.now }
{
    are_hex_digits(text) && text.len() % 2 == 0
}

/// The bytes that pairs of hexadecimal digits spell.
fn hex_bytes(alloc: Global, text: &str) -> Result<Vec<u8>, NoMemory>
    ensures { IfOk result (λ v. v.items ≡ hex_bytes text.now) }
{
    let digits = text.as_bytes();
    let mut bytes = Vec::with_capacity(alloc, digits.len() / 2)?;
    for i in 0..digits.len() / 2 {
        bytes.push(hex_value(digits[2 * i]) * 16 + hex_value(digits[2 * i + 1]))?;
    }
    Ok(bytes)
}

/// So many bytes of a fill.
fn fill_bytes(alloc: Global, seed: u8, count: u32) -> Result<Vec<u8>, NoMemory>
    ensures { IfOk result (λ v. v.items ≡ fill_bytes seed 0 count) }
{
    let mut bytes = Vec::with_capacity(alloc, count as usize)?;
    for place in 0..count {
        bytes.push(fill_byte(seed, place))?;
    }
    Ok(bytes)
}

/// The byte of a fill at a place.
fn fill_byte(seed: u8, place: u32) -> u8
    ensures { result ≡ fill_byte seed place }
{
    let place = u64::from(place);
    ((u64::from(seed) + place + place / 251) % 256) as u8
}

impl<'v> Content<'v> {
    /// How many bytes it has.
    pub fn len(&self) -> u64
        ensures { result ≡ length (made_content self.now) }
    {
        match self {
            Content::Text(text) => text.len() as u64,
            Content::Hex(digits) => digits.len() as u64 / 2,
            Content::Zero(count) => u64::from(*count),
            Content::Fill(count, _) => u64::from(*count),
        }
    }

    /// Makes it.
    pub fn make(&self, alloc: Global) -> Result<Bytes, NoMemory>
        ensures { IfOk result (λ b. b ≡ made_content self.now) }
    {
        let bytes = match self {
            Content::Text(text) => Vec::from_slice(alloc, text.as_bytes())?,
            Content::Hex(digits) => hex_bytes(alloc, digits)?,
            Content::Zero(count) => vec![in alloc; 0; *count as usize]?,
            Content::Fill(count, seed) => fill_bytes(alloc, *seed, *count)?,
        };
        Ok(Bytes::from_vec(bytes))
    }
}

/// The length of a region, a send or a receive is in its range.
pub fn as_length(len: u64) -> Result<u32, Reason>
    ensures { result ≡ as_length len }
{
    if len <= LEN_MAX {
        Ok(len as u32)
    } else {
        Err(Reason::Limit)
    }
}

fn text_content(value: &Value) -> Result<Content<'_>, Reason>
    ensures { result_map made_content result ≡ text_content (view value.now) }
{
    let text = text(value, "text")?;
    as_length(text.len() as u64)?;
    Ok(Content::Text(text))
}

fn hex_content(value: &Value) -> Result<Content<'_>, Reason>
    ensures { result_map made_content result ≡ hex_content (view value.now) }
{
    let digits = text(value, "hex")?;
    if !is_hex(digits) {
        return Err(Reason::Shape);
    }
    as_length(digits.len() as u64 / 2)?;
    Ok(Content::Hex(digits))
}

fn zero_content(value: &Value) -> Result<Content<'_>, Reason>
    ensures { result_map made_content result ≡ zero_content (view value.now) }
{
    let count = number(value, "zero")?;
    Ok(Content::Zero(as_length(count)?))
}

fn fill_of<'v>(count: u64, seed: u64) -> Result<Content<'v>, Reason>
    ensures { result_map made_content result ≡ fill_of count seed }
{
    let count = as_length(count)?;
    if seed < 256 {
        Ok(Content::Fill(count, seed as u8))
    } else {
        Err(Reason::Limit)
    }
}

fn fill_parts(values: &[Value]) -> Result<Content<'_>, Reason>
    ensures { result_map made_content result ≡ fill_parts (map view values.now) }
{
    match values {
        [count, seed] => fill_of(number_of(count)?, number_of(seed)?),
        _ => Err(Reason::Shape),
    }
}

fn fill_content(value: &Value) -> Result<Content<'_>, Reason>
    ensures { result_map made_content result ≡ fill_content (view value.now) }
{
    fill_parts(array(value, "fill")?)
}

/// The content is said in exactly one of four ways.
pub fn content_of(value: &Value) -> Result<Content<'_>, Reason>
    ensures { result_map made_content result ≡ content_of (view value.now) }
{
    if keys_known(Form::RegText, value) {
        text_content(value)
    } else if keys_known(Form::RegHex, value) {
        hex_content(value)
    } else if keys_known(Form::RegZero, value) {
        zero_content(value)
    } else if keys_known(Form::RegFill, value) {
        fill_content(value)
    } else {
        Err(Reason::Shape)
    }
}
