//! Numbered places for values that must be spent, in memory that is taken once.
#![tactic(auto)]

ghost use Rattle.std.specs.Prelude.{◌≡◌, ◌+◌, ◌≤◌, true, false, length, IfOk, OnSome, option_copied};
ghost use Rattle.std.specs.Option.{option_copied_mut};
ghost use Rattle.std.specs.Borrow.{sem};
ghost use Rattle.rdm_slots.specs.Places.{nothing_put, held, IsEmptyPlace, value_at, with_value, without};
ghost use Rattle.rdm_slots.specs.Places as Places;
ghost use Rattle.rdm_slots.specs.Counts.{CountsMove, EmptyHasNone};

use std::alloc::{AllocError, Global};
use std::marker::Model;
use std::mem;

#[cfg(test)]
mod tests;

/// A fixed count of places, each empty or with a value. It must be spent, by `end`.
pub struct Slots<T> {
    places: Vec<Option<T>>,
    // The numbers of the empty places. There is memory for the numbers of all of them.
    empty: Vec<usize>,
}

impl<T> Model for Slots<T> {
    ghost use Rattle.rdm_slots.specs.Places.{Slots as Places};

    ghost Value = { Places T };

    ghost use Rattle.rdm_slots.specs.Kept.{seen, IsKept};

    ghost view = { seen };

    ghost invariant = { IsKept };
}

impl<T> Slots<T> {
    ghost use Rattle.rdm_slots.specs.Lends.{lends_value};

    /// Takes the memory for so many places, which are all empty. No later call takes any.
    pub fn new(alloc: Global, size: usize) -> Result<Slots<T>, AllocError>
        ensures places { IfOk result (λ s. s ≡ nothing_put size) }
        ensures empty { IfOk result (λ s. Places.is_empty s ≡ true) }
    {
        let mut empty = Vec::with_capacity(alloc, size)?;
        let mut places = Vec::with_capacity(alloc, size)?;
        for place in 0..size {
            places.push_reserved(None);
            empty.push_reserved(place);
        }
        Ok(Slots { places, empty })
    }

    /// No place is empty.
    pub fn is_full(&self) -> bool
        ensures value { result ≡ Places.is_full self.now }
        ensures within { held self.now ≤ length self.now.places }
    {
        self.empty.is_empty()
    }

    /// All places are empty.
    pub fn is_empty(&self) -> bool
        ensures { result ≡ Places.is_empty self.now }
    {
        self.empty.len() == self.places.len()
    }

    /// Puts a value into an empty place, and gives its number.
    pub fn put(&mut self, value: T) -> usize
        requires { Places.is_full self.old ≡ false }
        ensures empty { IsEmptyPlace self.old result }
        ensures after { self.new ≡ with_value self.old result value }
        ensures held { held self.new ≡ held self.old + 1 }
    {
        let place = self.empty.take_last();
        match mem::replace(&mut self.places[place], Some(value)) {
            None => place,
            Some(_) => unreachable!(),
        }
    }

    /// The value of a place.
    pub fn get(&self, place: usize) -> Option<&T>
        ensures { option_copied result ≡ value_at self.now place }
    {
        self.places.get(place)?.as_ref()
    }

    /// The value of a place, for writing.
    pub fn get_mut(&mut self, place: usize) -> Option<&mut T>
        ensures* writes_back { sem 𝓛 (lends_value T.row self.entry place result) }
        ensures value { option_copied_mut result ≡ value_at self.old place }
    {
        if self.get(place).is_none() {
            return None;
        }
        self.places[place].as_mut()
    }

    /// Takes the value of a place out. The place is empty then.
    pub fn take(&mut self, place: usize) -> Option<T>
        ensures answer { result ≡ value_at self.old place }
        ensures after { self.new ≡ without self.old place }
        ensures held { OnSome result (held self.new + 1 ≡ held self.old) }
    {
        let value = self.places.get_mut(place)?.take()?;
        self.empty.push_reserved(place);
        Some(value)
    }

    /// Gives the memory back, once all values are taken out.
    pub fn end(self)
        requires { Places.is_empty self ≡ true }
    {
        let Slots {
            mut places,
            empty: _,
        } = self;
        while let Some(place) = places.pop() {
            match place {
                None => (),
                Some(_) => unreachable!(),
            }
        }
        places.destroy_empty();
    }
}

/// What the count of values says of the places.
pub fn counts_law<T>()
    ensures move_so { CountsMove T }
    ensures empty { EmptyHasNone T }
{}
