//! Values under numbers that never repeat, and marks on some of the numbers, in memory that is taken
//! once.
#![tactic(auto)]

ghost use Rattle.std.specs.Prelude.{◌≡◌, ◌<◌, if◌then◌else◌, length, IfOk, IfSome, IfNone, option_copied};
ghost use Rattle.std.specs.Option.{option_copied_mut};
ghost use Rattle.std.specs.Borrow.{sem};
ghost use Rattle.rdm_pool.specs.Numbered.{nothing_put, next_number, put_answer, after_put, found, after_take, next_from, IsNext, HasNoNext, after_mark, after_unmark, first_marked, IsFirstMarked, HasNoMarked, IsPool};
ghost use Rattle.rdm_pool.specs.Numbered as Numbered;
ghost use Rattle.rdm_pool.specs.Runs.{NumbersComeOnce};

use rdm_num::{NoMemory, OpId};
use slab::Slab;
use std::alloc::{AllocError, Global};
use std::marker::Model;

mod ends;
mod places;
#[cfg(test)]
mod tests;

use ends::Ends;
use places::{Place, has_mark, key_of, make_room, set_mark, take_key};

/// The pool holds as many values as it may, so this one is given back.
#[derive(Clone, Debug, PartialEq, Drop)]
pub struct Full<T>(pub T);

/// Values, each under the number that its put gave.
#[derive(Drop)]
pub struct Pool<T> {
    values: Slab<T>,
    // Where the value of each number stands, by rising number. A take only marks its place as gone,
    // so it moves no other. There is memory for two places a value: where a put finds all of it
    // taken, more than half of the places are gone. The put drops those and moves the others up,
    // fewer than the puts that came since the last time.
    places: Vec<Place>,
    // The end of each place's number while it has a value. The way to the first end above a number
    // is as long as the tree is high, so no search steps over places that are gone, however many.
    ends: Ends,
    // The same for the numbers that are marked.
    marks: Ends,
    size: usize,
    made: u32,
}

impl<T> Model for Pool<T> {
    ghost use Rattle.rdm_pool.specs.Numbered.{Numbered};

    ghost Value = { Numbered T };

    ghost use Rattle.rdm_pool.specs.Places.{seen, IsKept};

    ghost view = { seen };

    ghost invariant = { IsKept };
}

impl<T> Pool<T> {
    ghost use Rattle.rdm_pool.specs.Lends.{lends_found};

    /// Takes the memory for so many values.
    #[tactic(auto, unfolding(crate::specs::Places::live, crate::specs::Places::listed))]
    pub fn new(alloc: Global, size: usize) -> Result<Pool<T>, NoMemory>
        ensures { IfOk result (λ p. p ≡ nothing_put size) }
    {
        let room = size.checked_mul(2).ok_or(AllocError)?;
        let places = Vec::with_capacity(alloc, room)?;
        let ends = Ends::new(alloc, places.capacity())?;
        let marks = Ends::new(alloc, places.capacity())?;
        let values = Slab::with_capacity(alloc, size)?;
        Ok(Pool {
            values,
            places,
            ends,
            marks,
            size,
            made: 0,
        })
    }

    /// Puts a value under the next number, unless the pool is full.
    pub fn put(&mut self, value: T) -> Result<OpId, Full<T>>
        requires { self.old.made < 4294967295 }
        ensures answer { result ≡ put_answer self.old value }
        ensures after { self.new ≡ after_put self.old value }
    {
        if self.is_full() {
            return Err(Full(value));
        }
        make_room(&mut self.places, &mut self.ends, &mut self.marks);
        let number = self.made;
        let key = self.values.insert_reserved(value);
        let place = Place {
            number,
            key: Some(key),
            is_marked: false,
        };
        self.ends.set(self.places.len(), place.end());
        self.places.push_reserved(place);
        self.made += 1;
        Ok(OpId(number))
    }

    /// The value under a number.
    pub fn get(&self, id: OpId) -> Option<&T>
        ensures { option_copied result ≡ found self.now id }
    {
        match key_of(&self.places, id) {
            Some(key) => self.values.get(key),
            None => None,
        }
    }

    /// The value under a number, for writing.
    pub fn get_mut(&mut self, id: OpId) -> Option<&mut T>
        ensures* writes_back { sem 𝓛 (lends_found T.row self.entry id result) }
        ensures value { option_copied_mut result ≡ found self.old id }
    {
        match key_of(&self.places, id) {
            Some(key) => self.values.get_mut(key),
            None => None,
        }
    }

    /// Takes the value under a number out, and the number's mark. No other value gets the number.
    pub fn take(&mut self, id: OpId) -> Option<T>
        ensures answer { result ≡ found self.old id }
        ensures after { self.new ≡ after_take self.old id }
    {
        let key = take_key(&mut self.places, &mut self.ends, &mut self.marks, id)?;
        Some(self.values.remove(key))
    }

    /// The least number from a given one on that has a value.
    pub fn next_from(&self, from: OpId) -> Option<OpId>
        ensures answer { result ≡ next_from self.now from }
        ensures next { IfSome result (IsNext self.now from) }
        ensures none { IfNone result (HasNoNext self.now from) }
    {
        let end = self.ends.first_above(from.0)?;
        Some(OpId(end - 1))
    }

    /// Marks a number that has a value, and no other. The mark stays until it or the value is taken
    /// away.
    pub fn mark(&mut self, id: OpId)
        ensures { self.new ≡ after_mark self.old id }
    {
        self.set_mark(id, true);
    }

    /// Takes the mark of a number away. Its value stays.
    pub fn unmark(&mut self, id: OpId)
        ensures { self.new ≡ after_unmark self.old id }
    {
        self.set_mark(id, false);
    }

    /// Marks a number that has a value, or takes a number's mark away.
    fn set_mark(&mut self, id: OpId, is_marked: bool)
        ensures { self.new ≡ (if is_marked then after_mark self.old id else after_unmark self.old id) }
    {
        set_mark(&mut self.places, &mut self.marks, id, is_marked);
    }

    /// The number is marked.
    pub fn is_marked(&self, id: OpId) -> bool
        ensures { result ≡ Numbered.is_marked self.now id }
    {
        has_mark(&self.places, id)
    }

    /// The least number from a given one on that is marked. It has a value.
    pub fn first_marked(&self, from: OpId) -> Option<OpId>
        ensures answer { result ≡ first_marked self.now from }
        ensures next { IfSome result (IsFirstMarked self.now from) }
        ensures none { IfNone result (HasNoMarked self.now from) }
    {
        let end = self.marks.first_above(from.0)?;
        Some(OpId(end - 1))
    }

    /// The number that the next put gives, unless the pool is full.
    pub fn next_number(&self) -> OpId
        ensures { result ≡ next_number self.now }
    {
        OpId(self.made)
    }

    /// How many numbers have a value.
    pub fn len(&self) -> usize
        ensures { result ≡ length self.now.list }
    {
        self.values.len()
    }

    /// A put would give its value back.
    pub fn is_full(&self) -> bool
        ensures value { result ≡ Numbered.is_full self.now }
        ensures pool { IsPool self.now }
    {
        self.values.len() == self.size
    }
}

/// Over any calls, the puts give the numbers 0, 1, 2 and so on, so none comes twice.
pub fn numbers_law<T>()
    ensures { NumbersComeOnce T }
{}
