//! Where messages and receives meet.
ghost use Rattle.std.specs.Prelude.{◌≡◌, ◌<◌, ◌≤◌, ◌+◌, map, length, find, remove, slice_get, Some, vec_len, vec_capacity};
ghost use Rattle.std.specs.VecDeque.{deque_capacity};
ghost use Rattle.rdm_ep.specs.Counts.{RangesFit};
ghost use Rattle.rdm_ep.specs.Receiving as Receiving;
ghost use Rattle.rdm_ep.specs.Meeting.{after_arrival, after_arrivals, Meeting};

use crate::going::complete;
use crate::receiving::{completion_of, kept_bytes, place_of_posted, write_region};
use crate::state::{Inbound, Posted};
use crate::twin::Twin;
use std::collections::VecDeque;

/// The first receive that accepts a message takes it, or the message waits last.
pub fn arrive(
    regions: &mut Vec<Vec<u8>>,
    posted: &mut Vec<Posted>,
    arrived: &mut Vec<Inbound>,
    completions: &mut VecDeque<Twin>,
    inbound: Inbound,
)
    requires ranges { RangesFit (map (λ r. r.items) regions.old.items) posted.old.items }
    requires room { vec_len arrived.old < vec_capacity arrived.old }
    requires places { length posted.old.items + length completions.old.items ≤ deque_capacity completions.old }
    ensures met { ◌≡◌ {A = Meeting} (record { regions = map (λ r. r.items) regions.new.items; posted = posted.new.items; arrived = arrived.new.items; completions = completions.new.items }) (after_arrival (record { regions = map (λ r. r.items) regions.old.items; posted = posted.old.items; arrived = arrived.old.items; completions = completions.old.items }) inbound) }
    ensures ranges { RangesFit (map (λ r. r.items) regions.new.items) posted.new.items }
    ensures capacity { vec_capacity arrived.new ≡ vec_capacity arrived.old }
    ensures count { vec_len arrived.new ≤ vec_len arrived.old + 1 }
    ensures places { length posted.new.items + length completions.new.items ≡ length posted.old.items + length completions.old.items }
    ensures room { deque_capacity completions.new ≡ deque_capacity completions.old }
{
    let Some(at) = place_of_posted(posted, &inbound) else {
        arrived.push_reserved(inbound);
        return;
    };
    let receive = take_out(posted, at);
    let kept = kept_bytes(inbound.bytes.as_slice(), receive.req.len);
    write_region(regions, receive.req.region, receive.req.at, kept);
    complete(completions, completion_of(&receive, inbound));
}

/// Messages arrive one after the other.
pub fn arrive_all(
    regions: &mut Vec<Vec<u8>>,
    posted: &mut Vec<Posted>,
    arrived: &mut Vec<Inbound>,
    completions: &mut VecDeque<Twin>,
    entering: Vec<Inbound>,
)
    requires ranges { RangesFit (map (λ r. r.items) regions.old.items) posted.old.items }
    requires room { vec_len arrived.old + vec_len entering ≤ vec_capacity arrived.old }
    requires places { length posted.old.items + length completions.old.items ≤ deque_capacity completions.old }
    ensures met { ◌≡◌ {A = Meeting} (record { regions = map (λ r. r.items) regions.new.items; posted = posted.new.items; arrived = arrived.new.items; completions = completions.new.items }) (after_arrivals (record { regions = map (λ r. r.items) regions.old.items; posted = posted.old.items; arrived = arrived.old.items; completions = completions.old.items }) entering.items) }
    ensures ranges { RangesFit (map (λ r. r.items) regions.new.items) posted.new.items }
    ensures places { length posted.new.items + length completions.new.items ≡ length posted.old.items + length completions.old.items }
    ensures room { deque_capacity completions.new ≡ deque_capacity completions.old }
{
    for inbound in entering {
        arrive(regions, posted, arrived, completions, inbound);
    }
}

/// Takes out a receive.
fn take_out(posted: &mut Vec<Posted>, at: usize) -> Posted
    requires { at < vec_len posted.old }
    ensures receive { slice_get posted.old.items at ≡ Some result }
    ensures left { posted.new.items ≡ remove posted.old.items at }
{
    posted.remove(at)
}
