// Bytes apart from the `Vec` that allocated them.
ghost use Rattle.std.specs.Prelude.{◌≡◌, ℕ, ◌+◌, ◌^◌, ◌<◌, ◌≤◌, List, ◌++◌, length, take, drop};
ghost use denote.RawPtr.{Ptr, ◌+ₚ◌};
ghost use Rattle.rdm_mr.specs.Ownership.{run_owns};

use std::marker::Model;
use std_alloc::vec::{Lodged, lodge};

/// The bytes `items` at `ptr`, which nothing else reaches. It takes no room itself.
pub(crate) struct Run {
    ghost ptr: { Ptr },
    ghost items: { List ℕ },
}

impl Model for Run {
    ghost also_owns = { λ r. run_owns r.ptr r.items };
}

impl Run {
    /// The first `mid` bytes, and the others.
    pub(crate) fn cut(self, mid: usize) -> (Run, Run)
        requires { mid ≤ length self.items }
        ensures { (result.0.ptr ≡ self.ptr) × (result.0.items ≡ take mid self.items)
            × (result.1.ptr ≡ self.ptr +ₚ mid) × (result.1.items ≡ drop mid self.items) }
    {
        let Run {} = self;
        (Run {}, Run {})
    }

    /// One run of two, where the next begins at the end of this one.
    pub(crate) fn glue(self, next: Run) -> Run
        requires { next.ptr ≡ self.ptr +ₚ length self.items }
        ensures { (result.ptr ≡ self.ptr) × (result.items ≡ self.items ++ next.items) }
    {
        let Run {} = self;
        let Run {} = next;
        Run {}
    }

    /// A `Vec` over the run, which neither grows nor frees it.
    pub(crate) fn into_vec(self, ptr: *mut u8, len: usize) -> Vec<u8, Lodged>
        requires { (self.ptr ≡ ptr) × (length self.items ≡ len) × (0 < len) × (len < 2 ^ 63) }
        ensures { (result.items ≡ self.items) × (result.ptr ≡ ptr) }
    {
        let Run {} = self;
        unsafe { lodge(ptr, len, len) }
    }

    /// The bytes of such a `Vec`.
    pub(crate) fn from_vec(vec: Vec<u8, Lodged>) -> Run
        requires { 0 < length vec.items }
        ensures { (result.ptr ≡ vec.ptr) × (result.items ≡ vec.items) }
    {
        let _len = vec.dislodge();
        Run {}
    }
}
