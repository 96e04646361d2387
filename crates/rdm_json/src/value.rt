//! Looks into JSON values.
ghost use Rattle.std.specs.Prelude.{◌≡◌, option_map, map, string_bytes, true};
ghost use Rattle.std.specs.List.{list_all};
ghost use Rattle.serde_json.specs.View.{view, members_view};
ghost use Rattle.rdm_json.specs.Values.{number_of, text_of, array_of, number_or, has_key, members_known, keys_known, known, are_bytes};
ghost use Rattle.rdm_json.specs.Values as Values;
ghost use Rattle.rdm_json.specs.Results.{result_map};

use crate::Reason;
use serde_json::{Map, Value};

/// A form of object, by the keys that it may have.
#[derive(Clone, Copy, Debug, PartialEq, Eq)]
pub enum Form {
    Script,
    Pools,
    Rank,
    /// A rank that may have pools of its own.
    RankWithPools,
    OwnPools,
    Open,
    Insert,
    RegText,
    RegHex,
    RegZero,
    RegFill,
    Send,
    /// A send whose ranges stand in an array.
    SendOfParts,
    Recv,
    Cancel,
    Note,
    Await,
    Wait,
    Close,
}

impl Form {
    fn has_key(self, key: &str) -> bool
        ensures { result ≡ has_key self key.now }
    {
        match self {
            Form::Script => is_script_key(key),
            Form::Pools => matches!(key, "tx" | "rx" | "early" | "cq" | "inbox"),
            Form::Rank => matches!(key, "ops" | "features"),
            Form::RankWithPools => matches!(key, "ops" | "features" | "pools"),
            Form::OwnPools => matches!(key, "tx" | "rx" | "early" | "cq"),
            Form::Open => matches!(key, "op" | "connid"),
            Form::Insert => matches!(key, "op" | "port" | "connid"),
            Form::RegText => matches!(key, "op" | "text"),
            Form::RegHex => matches!(key, "op" | "hex"),
            Form::RegZero => matches!(key, "op" | "zero"),
            Form::RegFill => matches!(key, "op" | "fill"),
            Form::Send => matches!(
                key,
                "op" | "to" | "region" | "at" | "len" | "tag" | "data" | "confirm"
            ),
            Form::SendOfParts => {
                matches!(key, "op" | "to" | "parts" | "tag" | "data" | "confirm")
            }
            Form::Recv => matches!(
                key,
                "op" | "from" | "region" | "at" | "len" | "tag" | "ignore"
            ),
            Form::Cancel => matches!(key, "op" | "recv"),
            Form::Note => matches!(key, "op" | "to" | "what"),
            Form::Await => matches!(key, "op" | "from" | "what"),
            Form::Wait => matches!(key, "op" | "count"),
            Form::Close => matches!(key, "op"),
        }
    }
}

fn is_script_key(key: &str) -> bool
    ensures { result ≡ has_key Form.Script key.now }
{
    matches!(
        key,
        "version"
            | "mtu"
            | "medium"
            | "read"
            | "runt"
            | "credits"
            | "first"
            | "clock"
            | "pools"
            | "ranks"
            | "choices"
    )
}

/// The value is an object, and each key of it is one of the form.
pub fn keys_known(form: Form, value: &Value) -> bool
    ensures { result ≡ keys_known form (view value.now) }
{
    match value.as_object() {
        Some(members) => members_known(form, members),
        None => false,
    }
}

fn members_known(form: Form, members: &Map<String, Value>) -> bool
    ensures { result ≡ members_known form (members_view members.now.entries) }
{
    each_known(form, members)
}

fn each_known(form: Form, members: &Map<String, Value>) -> bool
    ensures { result ≡ list_all (λ k. has_key form (string_bytes k)) (map (λ e. e.0) members.now.entries) }
{
    members.keys().all(|key| form.has_key(key.as_str()))
}

/// The value has to be an object of the form.
pub fn known(form: Form, value: &Value) -> Result<(), Reason>
    ensures { result ≡ known form (view value.now) }
{
    if keys_known(form, value) {
        Ok(())
    } else {
        Err(Reason::Shape)
    }
}

/// A whole number below 2^64, written without sign, point and exponent.
pub fn number_of(value: &Value) -> Result<u64, Reason>
    ensures { result ≡ number_of (view value.now) }
{
    match value.as_u64() {
        Some(n) => Ok(n),
        None => Err(Reason::Shape),
    }
}

/// What the type of a text says of it.
fn are_bytes(text: &str)
    ensures { are_bytes text.now ≡ true }
{}

/// A string.
pub fn text_of(value: &Value) -> Result<&str, Reason>
    ensures { result_map (λ s. s.now) result ≡ text_of (view value.now) }
{
    match value.as_str() {
        Some(text) => {
            are_bytes(text);
            Ok(text)
        }
        None => Err(Reason::Shape),
    }
}

/// The elements of an array.
pub fn array_of(value: &Value) -> Result<&[Value], Reason>
    ensures { result_map (λ s. map view s.now) result ≡ array_of (view value.now) }
{
    match value.as_array() {
        Some(values) => Ok(values.as_slice()),
        None => Err(Reason::Shape),
    }
}

/// The value at a key, which has to be there.
pub fn present<'v>(value: &'v Value, key: &str) -> Result<&'v Value, Reason>
    ensures { result_map (λ v. view v.now) result ≡ Values.value key.now (view value.now) }
{
    match value.get(key) {
        Some(found) => Ok(found),
        None => Err(Reason::Shape),
    }
}

/// The number at a key.
pub fn number(value: &Value, key: &str) -> Result<u64, Reason>
    ensures { result ≡ Values.number key.now (view value.now) }
{
    number_of(present(value, key)?)
}

/// The text at a key.
pub fn text<'v>(value: &'v Value, key: &str) -> Result<&'v str, Reason>
    ensures { result_map (λ s. s.now) result ≡ Values.text key.now (view value.now) }
{
    text_of(present(value, key)?)
}

/// The array at a key.
pub fn array<'v>(value: &'v Value, key: &str) -> Result<&'v [Value], Reason>
    ensures { result_map (λ s. map view s.now) result ≡ Values.array key.now (view value.now) }
{
    array_of(present(value, key)?)
}

/// The number at a key that may be absent.
pub fn optional(value: &Value, key: &str) -> Result<Option<u64>, Reason>
    ensures { result ≡ Values.optional key.now (view value.now) }
{
    match value.get(key) {
        Some(found) => Ok(Some(number_of(found)?)),
        None => Ok(None),
    }
}

/// A number that has this value where it is absent.
pub fn number_or(default: u64, found: Option<&Value>) -> Result<u64, Reason>
    ensures { result ≡ number_or default (option_map (λ v. view v.now) found.entry) }
{
    match found {
        Some(value) => number_of(value),
        None => Ok(default),
    }
}

/// Whether a key that may be absent is there and true.
pub fn is_set(value: &Value, key: &str) -> Result<bool, Reason>
    ensures { result ≡ Values.is_set key.now (view value.now) }
{
    match value.get(key) {
        Some(found) => match found.as_bool() {
            Some(set) => Ok(set),
            None => Err(Reason::Shape),
        },
        None => Ok(false),
    }
}

/// The value at a key of an object that may be absent.
pub fn found_at<'v>(found: Option<&'v Value>, key: &str) -> Option<&'v Value>
    ensures { option_map (λ v. view v.now) result ≡ Values.found_at key.now (option_map (λ v. view v.now) found.entry) }
{
    match found {
        Some(value) => value.get(key),
        None => None,
    }
}
