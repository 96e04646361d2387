//! Gaps in order, as a vector of ranges.
ghost use Rattle.std.specs.Prelude.{◌≡◌, ◌+◌, ◌<◌, ◌≤◌, length, vec_len, vec_capacity, MatchOption};
ghost use Rattle.std.specs.List.{All, AllWithin};
ghost use Rattle.rdm_gaps.specs.Ranges.{AreInOrder, Has, Misses, gap_at, cut_at, fused, put_at};

/// Missing places, from the first up to the one past the last.
#[derive(Clone, Copy, Debug)]
pub struct Gap {
    pub start: u64,
    pub end: u64,
}

/// The first gap that ends after `place`.
pub fn find(gaps: &[Gap], place: u64) -> usize
    requires { AreInOrder gaps.now }
    ensures within { result ≤ length gaps.now }
    ensures before { AllWithin (λ g. g.end ≤ place) gaps.now 0 result }
    ensures after { AllWithin (λ g. place < g.end) gaps.now result (length gaps.now) }
{
    gaps.partition_point(|gap| gap.end <= place)
}

/// The gap that has `place`.
pub fn gap_with(gaps: &[Gap], place: u64) -> Option<usize>
    requires { AreInOrder gaps.now }
    ensures { MatchOption result (All (Misses place) gaps.now) (λ i. (i < length gaps.now) × Has place (gap_at gaps.now i)) }
{
    let i = find(gaps, place);
    if i < gaps.len() && gaps[i].start <= place {
        Some(i)
    } else {
        None
    }
}

/// Takes the places from `off` up to `end` out of the gap at `i`, where there is room.
pub fn cut(gaps: &mut Vec<Gap>, i: usize, off: u64, end: u64)
    requires at { i < vec_len gaps.old }
    requires inside { let gap = gap_at gaps.old.items i in (gap.start ≤ off) × (off < end) × (end ≤ gap.end) }
    requires room { vec_len gaps.old < vec_capacity gaps.old }
    ensures items { gaps.new.items ≡ cut_at gaps.old.items i off end }
    ensures more { vec_len gaps.new ≤ vec_len gaps.old + 1 }
    ensures capacity { vec_capacity gaps.old ≤ vec_capacity gaps.new }
{
    let Gap { start, end: stop } = gaps[i];
    if start < off {
        gaps[i] = Gap { start, end: off };
        if end < stop {
            match gaps.insert(
                i + 1,
                Gap {
                    start: end,
                    end: stop,
                },
            ) {
                Ok(()) => {}
                Err(_) => unreachable!(),
            }
        }
    } else if end < stop {
        gaps[i] = Gap {
            start: end,
            end: stop,
        };
    } else {
        gaps.remove(i);
    }
}

/// Makes one gap of the gap at `i` and the next, if they touch.
fn fuse(gaps: &mut Vec<Gap>, i: usize)
    requires { i < vec_len gaps.old }
    ensures items { gaps.new.items ≡ fused i gaps.old.items }
    ensures fewer { (vec_len gaps.new ≤ vec_len gaps.old) × (vec_len gaps.old ≤ vec_len gaps.new + 1) }
    ensures capacity { vec_capacity gaps.old ≤ vec_capacity gaps.new }
{
    if i + 1 < gaps.len() {
        let low = gaps[i];
        let high = gaps[i + 1];
        if low.end == high.start {
            gaps[i] = Gap {
                start: low.start,
                end: high.end,
            };
            gaps.remove(i + 1);
        }
    }
}

/// Puts a gap before the gap at `i`, where there is room, as one with those that it touches.
pub fn put(gaps: &mut Vec<Gap>, i: usize, gap: Gap)
    requires at { i ≤ vec_len gaps.old }
    requires room { vec_len gaps.old < vec_capacity gaps.old }
    ensures items { gaps.new.items ≡ put_at gaps.old.items i gap }
    ensures more { vec_len gaps.new ≤ vec_len gaps.old + 1 }
    ensures capacity { vec_capacity gaps.old ≤ vec_capacity gaps.new }
{
    match gaps.insert(i, gap) {
        Ok(()) => {}
        Err(_) => unreachable!(),
    }
    fuse(gaps, i);
    if i > 0 {
        fuse(gaps, i - 1);
    }
}
