//! JSON values of scripts: objects of known keys, numbers, texts and arrays, and what may be wrong with
//! them and where.
#![tactic(auto)]

mod place;
mod refusal;
mod value;

pub use place::{FieldName, Place};
pub use refusal::{BadScript, Reason, ScriptRefused, placed};
pub use value::{
    Form, array, array_of, found_at, is_set, keys_known, known, number, number_of, number_or,
    optional, present, text, text_of,
};
