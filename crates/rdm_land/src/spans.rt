//! Ranges of a message in order, as a vector.
ghost use Rattle.std.specs.Prelude.{◌≡◌, ◌+◌, ◌<◌, ◌≤◌, ◌^◌, ℕ, true, false, length, vec_len, vec_capacity, MatchOption};
ghost use Rattle.std.specs.List.{AllWithin, Contains};
ghost use Rattle.rdm_land.specs.Spans.{AreInOrder, have, span, with_span, without_span};

/// Places of a message, from the first up to the one past the last.
#[derive(Clone, Copy, Debug)]
pub(crate) struct Span {
    pub(crate) start: u64,
    pub(crate) end: u64,
}

impl Span {
    /// The `len` places from `off` on.
    pub(crate) fn of(off: u64, len: u64) -> Span
        requires { off + len < 2 ^ 64 }
        ensures { result ≡ span off len }
    {
        Span {
            start: off,
            end: off + len,
        }
    }
}

/// The first range that ends after `place`.
pub(crate) fn find(spans: &[Span], place: u64) -> usize
    requires { AreInOrder spans.now }
    ensures within { result ≤ length spans.now }
    ensures before { AllWithin (λ s. s.end ≤ place) spans.now 0 result }
    ensures after { AllWithin (λ s. place < s.end) spans.now result (length spans.now) }
{
    spans.partition_point(|span| span.end <= place)
}

/// The end of the range that has `place`.
pub(crate) fn end_of(spans: &[Span], place: u64) -> Option<u64>
    requires { AreInOrder spans.now }
    ensures { MatchOption result (have place spans.now ≡ false) (λ end. (place < end) × ((k : ℕ) → place ≤ k → k < end → have k spans.now ≡ true)) }
{
    let i = find(spans, place);
    if i < spans.len() && spans[i].start <= place {
        Some(spans[i].end)
    } else {
        None
    }
}

/// Puts a range among the others, where there is room.
pub(crate) fn put(spans: &mut Vec<Span>, span: Span)
    requires order { AreInOrder spans.old.items }
    requires room { vec_len spans.old < vec_capacity spans.old }
    ensures items { spans.new.items ≡ with_span span spans.old.items }
    ensures len { vec_len spans.new ≡ vec_len spans.old + 1 }
{
    let i = find(spans, span.start);
    match spans.insert(i, span) {
        Ok(()) => {}
        Err(_) => unreachable!(),
    }
}

/// Takes a range out.
pub(crate) fn remove(spans: &mut Vec<Span>, span: Span)
    requires order { AreInOrder spans.old.items }
    requires there { Contains spans.old.items span }
    ensures items { spans.new.items ≡ without_span span spans.old.items }
    ensures len { vec_len spans.new + 1 ≡ vec_len spans.old }
{
    let i = find(spans, span.start);
    spans.remove(i);
}
