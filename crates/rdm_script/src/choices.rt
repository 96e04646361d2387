//! The choices.
ghost use Rattle.std.specs.Prelude.{◌≡◌, map, length};
ghost use Rattle.serde_json.specs.View.{view};
ghost use Rattle.rdm_json.specs.Results.{GivesAs};
ghost use Rattle.rdm_script.specs.Choices.{as_rank, eager_choice, picking_choice, choice_in, choice_of, choices_of};

use crate::{Place, Reason, ScriptRefused};
use rdm_json::{array_of, number_of, placed, text_of};
use rdm_model::{Choice, Choices};
use serde_json::Value;
use std::alloc::Global;

/// The rank is one of so many.
fn as_rank(ports: u32, rank: u64) -> Result<u32, Reason>
    ensures { result ≡ as_rank ports rank }
{
    if rank < u64::from(ports) {
        Ok(rank as u32)
    } else {
        Err(Reason::NoRank)
    }
}

/// A choice of a rank alone.
fn eager_choice(ports: u32, word: &str, rank: u64) -> Result<Choice, Reason>
    ensures { result ≡ eager_choice ports word.now rank }
{
    match word {
        "next" => Ok(Choice::Next(as_rank(ports, rank)?)),
        "push" => Ok(Choice::Push(as_rank(ports, rank)?)),
        "poll" => Ok(Choice::Poll(as_rank(ports, rank)?)),
        _ => Err(Reason::Shape),
    }
}

/// A choice of a rank and of a place in its stash.
fn picking_choice(ports: u32, word: &str, rank: u64, pick: u64) -> Result<Choice, Reason>
    ensures { result ≡ picking_choice ports word.now rank pick }
{
    match word {
        "handle" => Ok(Choice::Handle(as_rank(ports, rank)?, pick)),
        _ => Err(Reason::Shape),
    }
}

/// The choice that the elements of an array say.
fn choice_in(ports: u32, values: &[Value]) -> Result<Choice, Reason>
    ensures { result ≡ choice_in ports (map view values.now) }
{
    match values {
        [word, rank] => eager_choice(ports, text_of(word)?, number_of(rank)?),
        [word, rank, pick] => {
            picking_choice(ports, text_of(word)?, number_of(rank)?, number_of(pick)?)
        }
        _ => Err(Reason::Shape),
    }
}

/// A choice, whose rank is one of so many.
fn choice_of(ports: u32, value: &Value) -> Result<Choice, Reason>
    ensures { result ≡ choice_of ports (view value.now) }
{
    choice_in(ports, array_of(value)?)
}

/// The choices, one after the other.
pub fn choices_of(alloc: Global, ports: u32, values: &[Value]) -> Result<Vec<Choice>, ScriptRefused>
    ensures { GivesAs (λ v. v.items) result (choices_of 0 ports (map view values.now)) }
{
    let mut choices = Vec::new(alloc);
    for value in values {
        let place = Place::Choice(choices.len() as u64);
        choices.push(placed(place, choice_of(ports, value))?)?;
    }
    Ok(choices)
}
