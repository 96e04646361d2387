//! The ranges that a send takes its bytes from.
ghost use Rattle.std.specs.Prelude.{◌≡◌, ◌≤◌, ◌∷◌, [], length, nat_lt};
ghost use Rattle.std.specs.Bool.{then_some};

use crate::RegionNo;
use arrayvec::ArrayVec;
use std::alloc::AllocError;
use std::marker::Model;

/// A range of a region.
#[derive(Clone, Copy, Debug, Default, PartialEq, Eq)]
pub struct Span {
    pub region: RegionNo,
    pub at: u64,
    pub len: u64,
}

/// 1 to 4 ranges, whose bytes one after another are a message.
#[derive(Debug, Drop)]
pub struct Parts {
    items: ArrayVec<Span, 4>,
}

impl Model for Parts {
    ghost use Rattle.std.specs.Prelude.{List, length, ◌<◌};
    ghost use Rattle.rdm_num.specs.declared.parts.Span.{Span};

    ghost Value = { List Span };

    ghost view = { λ p. p.items.items };

    ghost invariant = { λ p. 0 < length p.items.items };
}

impl Clone for Parts {
    ghost is_clone = { λ a b. b ≡ a };

    fn clone(&self) -> Result<Parts, AllocError> {
        let items = self.items.clone()?;
        Ok(Parts { items })
    }
}

impl Parts {
    /// The one range.
    pub fn one(span: Span) -> Parts
        ensures { result ≡ span ∷ [] }
    {
        let mut items = ArrayVec::<Span, 4>::new();
        items.push(span);
        Parts { items }
    }

    /// These ranges, if there is one.
    pub fn from_array_vec(items: ArrayVec<Span, 4>) -> Option<Parts>
        ensures { result ≡ then_some (nat_lt 0 (length items.items)) items.items }
    {
        if items.is_empty() {
            return None;
        }
        Some(Parts { items })
    }

    pub fn as_slice(&self) -> &[Span]
        ensures items { result.now ≡ self.now }
        ensures few { (1 ≤ length result.now) × (length result.now ≤ 4) }
    {
        self.items.as_slice()
    }
}
