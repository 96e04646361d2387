// The right to free a block.
ghost use Rattle.std.specs.Prelude.{◌≡◌, ◌<◌, length};
ghost use base.Fml.{ftrue};
ghost use Rattle.rdm_mr.specs.Ownership.{Extent, owner_owns};

use crate::run::Run;
use std::marker::{Move, Owns};

/// A `Vec` whose bytes are out as a `Run`.
pub(crate) struct Owner {
    vec: Vec<u8>,
}

impl Owns for Owner {
    ghost Value = { Extent };

    ghost shr_at = { λ _ _ _. ftrue };
}

impl Move for Owner {
    ghost own_val = { owner_owns };
}

unsafe impl Send for Owner {}

// A `&` to it shows nothing.
unsafe impl Sync for Owner {}

/// Takes the bytes out of a `Vec`.
pub(crate) fn detach(vec: Vec<u8>) -> (Run, Owner)
    requires { 0 < length vec.items }
    ensures { (result.0.ptr ≡ vec.ptr) × (result.0.items ≡ vec.items)
        × (result.1.ptr ≡ vec.ptr) × (result.1.len ≡ length vec.items) }
{
    (Run {}, Owner { vec })
}

/// Puts them back.
pub(crate) fn attach(run: Run, owner: Owner) -> Vec<u8>
    requires { (run.ptr ≡ owner.ptr) × (length run.items ≡ owner.len) × (0 < owner.len) }
    ensures { result.items ≡ run.items }
{
    let Run {} = run;
    let Owner { vec } = owner;
    vec
}
