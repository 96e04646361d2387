//! The ranges that a send says.
ghost use Rattle.std.specs.Prelude.{◌≡◌, ◌≤◌, IfOk, map, length};
ghost use Rattle.serde_json.specs.View.{view};
ghost use Rattle.rdm_model.specs.Jobs.{spans_length};
ghost use Rattle.rdm_json.specs.Results.{result_map};
ghost use Rattle.rdm_script.specs.Ranges.{as_u32, one_written, written_in, each_written, parts_written, written_of, as_span, as_spans, as_parts};
ghost use Rattle.rdm_script.specs.Drafts.{capped};

use crate::Reason;
use crate::content::as_length;
use crate::fields::Version;
use arrayvec::ArrayVec;
use rdm_json::{Form, array, array_of, keys_known, known, number, number_of};
use rdm_num::{LEN_MAX, Parts, RegionNo, Span};
use serde_json::Value;

/// A range as its numbers are written.
#[derive(Clone, Copy, Debug, Default, PartialEq, Eq)]
pub struct Written {
    pub region: u64,
    pub at: u64,
    pub len: u64,
}

/// The number is below 2^32.
pub fn as_u32(n: u64) -> Result<u32, Reason>
    ensures { result ≡ as_u32 n }
{
    if n < 4_294_967_296 {
        Ok(n as u32)
    } else {
        Err(Reason::Limit)
    }
}

/// The one range of a send.
fn one_written(value: &Value) -> Result<ArrayVec<Written, 4>, Reason>
    ensures value { result_map (λ w. w.items) result ≡ one_written (view value.now) }
    ensures some { IfOk result (λ w. 1 ≤ length w.items) }
{
    known(Form::Send, value)?;
    let region = number(value, "region")?;
    let at = number(value, "at")?;
    let len = number(value, "len")?;
    let mut written = ArrayVec::<Written, 4>::new();
    written.push(Written { region, at, len });
    Ok(written)
}

/// A range is an array of its three numbers.
fn written_in(values: &[Value]) -> Result<Written, Reason>
    ensures { result ≡ written_in (map view values.now) }
{
    match values {
        [region, at, len] => Ok(Written {
            region: number_of(region)?,
            at: number_of(at)?,
            len: number_of(len)?,
        }),
        _ => Err(Reason::Shape),
    }
}

/// The ranges that values say, one after the other.
fn each_written(values: &[Value]) -> Result<ArrayVec<Written, 4>, Reason>
    requires { length values.now ≤ 4 }
    ensures value { result_map (λ w. w.items) result ≡ each_written (map view values.now) }
    ensures counted { IfOk result (λ w. length w.items ≡ length values.now) }
{
    let mut written = ArrayVec::<Written, 4>::new();
    for value in values {
        written.push(written_in(array_of(value)?)?);
    }
    Ok(written)
}

/// An array of 1 to 4 ranges.
#[tactic(auto, unfolding(rdm_model::specs::Jobs::is_within))]
fn parts_written(value: &Value) -> Result<ArrayVec<Written, 4>, Reason>
    ensures value { result_map (λ w. w.items) result ≡ parts_written (view value.now) }
    ensures some { IfOk result (λ w. 1 ≤ length w.items) }
{
    let values = array(value, "parts")?;
    if 1 <= values.len() && values.len() <= 4 {
        each_written(values)
    } else {
        Err(Reason::Shape)
    }
}

/// The ranges of a send as they are written.
pub fn written_of(version: Version, value: &Value) -> Result<ArrayVec<Written, 4>, Reason>
    ensures value { result_map (λ w. w.items) result ≡ written_of version (view value.now) }
    ensures some { IfOk result (λ w. 1 ≤ length w.items) }
{
    match version {
        Version::One => one_written(value),
        Version::Two => {
            if keys_known(Form::SendOfParts, value) {
                parts_written(value)
            } else {
                one_written(value)
            }
        }
    }
}

/// The numbers of a range are in their limits.
fn as_span(written: Written) -> Result<Span, Reason>
    ensures { result ≡ as_span written }
{
    Ok(Span {
        region: RegionNo(as_u32(written.region)?),
        at: written.at,
        len: u64::from(as_length(written.len)?),
    })
}

/// The numbers of ranges are, one after the other.
fn as_spans(written: &[Written]) -> Result<ArrayVec<Span, 4>, Reason>
    requires { length written.now ≤ 4 }
    ensures value { result_map (λ s. s.items) result ≡ as_spans written.now }
    ensures counted { IfOk result (λ s. length s.items ≡ length written.now) }
{
    let mut spans = ArrayVec::<Span, 4>::new();
    for range in written {
        spans.push(as_span(*range)?);
    }
    Ok(spans)
}

/// How many bytes ranges have together, up to the last number.
#[tactic(auto, unfolding(rdm_model::specs::Jobs::spans_length))]
pub fn spans_length(spans: &[Span]) -> u64
    ensures { result ≡ capped (spans_length spans.now) }
{
    let mut length = 0u64;
    for span in spans {
        length = length.saturating_add(span.len);
    }
    length
}

/// The ranges of a send have no more bytes together than one may have.
pub fn as_parts(written: &[Written]) -> Result<Parts, Reason>
    requires some { 1 ≤ length written.now }
    requires few { length written.now ≤ 4 }
    ensures { result ≡ as_parts written.now }
{
    let spans = as_spans(written)?;
    if spans_length(spans.as_slice()) > LEN_MAX {
        return Err(Reason::Limit);
    }
    match Parts::from_array_vec(spans) {
        Some(parts) => Ok(parts),
        None => unreachable!(),
    }
}
