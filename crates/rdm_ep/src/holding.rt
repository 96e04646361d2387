//! Messages that are held for those before them.
ghost use Rattle.std.specs.Prelude.{◌≡◌, ◌≤◌, ◌+◌, ◌++◌, length, vec_len, vec_capacity};
ghost use Rattle.std.specs.List.{position_from};
ghost use Rattle.rdm_ep.specs.Places.{IsPlace};
ghost use Rattle.rdm_ep.specs.Entering as Entering;
ghost use Rattle.rdm_ep.specs.Entering.{following, left_held};

use crate::receiving::take_out;
use crate::state::Inbound;
use rdm_num::{Life, is_same_life};

/// The message is that number of the life.
pub fn is_message(inbound: &Inbound, from: Life, number: u64) -> bool
    ensures { result ≡ Entering.is_message from number inbound.now }
{
    is_same_life(inbound.life, from) && inbound.no.0 as u64 == number
}

/// Searches for the message that is held under a number.
fn search(held: &[Inbound], from: Life, number: u64) -> Option<usize>
    ensures { result ≡ position_from (Entering.is_message from number) 0 held.now }
{
    held.iter()
        .position(|inbound| is_message(inbound, from, number))
}

/// Where the message stands that is held under a number.
fn place_of_held(held: &[Inbound], from: Life, number: u64) -> Option<usize>
    ensures { IsPlace (Entering.is_message from number) held.now result }
{
    search(held, from, number)
}

/// Moves the held messages of a life that follow one another from a number on behind those that enter, and
/// gives the number after them.
pub fn take_following(
    held: &mut Vec<Inbound>,
    entering: &mut Vec<Inbound>,
    from: Life,
    first: u64,
) -> u64
    requires room { vec_len entering.old + vec_len held.old ≤ vec_capacity entering.old }
    ensures entering { entering.new.items ≡ entering.old.items ++ following (length held.old.items) held.old.items from first }
    ensures held { held.new.items ≡ left_held (length held.old.items) held.old.items from first }
    ensures next { result ≡ first + length (following (length held.old.items) held.old.items from first) }
{
    let mut next = first;
    let most = held.len();
    for _due in 0..most {
        let Some(at) = place_of_held(held, from, next) else {
            return next;
        };
        let inbound = take_out(held, at);
        next = inbound.no.0 as u64 + 1;
        entering.push_reserved(inbound);
    }
    next
}
