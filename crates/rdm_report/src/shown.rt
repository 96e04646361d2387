//! Bytes and numbers as a report shows them.
ghost use Rattle.std.specs.Prelude.{◌≡◌, ◌++◌, string_bytes, OnOk};
ghost use Rattle.rdm_report.specs.Shown.{shown, number_text};

use sha2::{Digest, Sha256};
use std::alloc::{AllocError, Global};

/// The bytes in hexadecimal, or their digest where they are more than 64.
#[tactic(auto, unfolding(crate::specs::Shown::shown))]
pub fn put_shown(alloc: Global, out: &mut String, bytes: &[u8]) -> Result<(), AllocError>
    ensures { OnOk result (string_bytes out.new ≡ string_bytes out.old ++ shown bytes.now) }
{
    if bytes.is_empty() {
        return write!(out, "-");
    }
    if bytes.len() <= 64 {
        let text = hex::encode(alloc, bytes)?;
        return out.push_str(text.as_str());
    }
    let digest: [u8; 32] = Sha256::digest(bytes);
    let text = hex::encode(alloc, digest)?;
    write!(out, "sha256:{text}")
}

/// The number, where there is one.
pub fn put_number(out: &mut String, number: Option<u64>) -> Result<(), AllocError>
    ensures { OnOk result (string_bytes out.new ≡ string_bytes out.old ++ number_text number) }
{
    match number {
        Some(number) => write!(out, "{number}"),
        None => write!(out, "-"),
    }
}
