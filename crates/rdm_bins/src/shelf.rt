//! Items that wait in order, and that are found by their bin or their group.
ghost use Rattle.std.specs.Prelude.{◌≡◌, ℕ, ◌+◌, ◌-◌, ◌<◌, Bool, [], ◌∷◌, ◌++◌, Option, Some, not, ◌&&◌, find, filter, length, IfNone, IfOk, OnOk, OnErr};
ghost use Rattle.std.specs.Map.{values_of};
ghost use Rattle.rdm_lists.specs.Lists.{without_first};
ghost use Rattle.rdm_bins.specs.Shelf.{no_places, item_at, without_at, entries_from, entries_on, values_on, passes, without_passing, is_in, first_passing, below};

use crate::chains::Chains;
use crate::walks::{copies, first_chained, first_item, item_of, take_item};
use rdm_num::NoMemory;
use std::alloc::{AllocError, Global};
use std::marker::Model;

/// What can wait on a shelf: it has a bin, and it has a group.
pub trait Shelved: Copy {
    ghost bin_of: { Self → Option ℕ };

    ghost group_of: { Self → Option ℕ };

    fn bin(&self) -> Option<u64>
        ensures { result ≡ bin_of self.now };

    fn group(&self) -> Option<u64>
        ensures { result ≡ group_of self.now };
}

/// What is looked for on a shelf.
pub trait Criterion<T> {
    ghost test: { Self → T → Bool };

    fn passes(&self, item: &T) -> bool
        ensures { result ≡ test self.now item.now };
}

/// Items at rising places. The place of an item that went stays empty; the items move up once most
/// places are empty and memory is asked for. Chains link the places of the items of each bin and of
/// each group.
#[derive(Drop)]
pub struct Shelf<T: Shelved> {
    alloc: Global,
    items: Vec<Option<T>>,
    bins: Chains,
    groups: Chains,
    waiting: usize,
    room: usize,
}

impl<T: Shelved> Model for Shelf<T> {
    ghost use Rattle.std.specs.Vec.{vec_len, vec_capacity};
    ghost use Rattle.rdm_bins.specs.Shelf.{Places, places_code, IsShelf, HasPlaces};

    ghost Value = { Places T };

    ghost coded = { places_code T.code };

    ghost view = { λ s. record { items = s.items.items; room = s.room } };

    ghost invariant = { λ s. IsShelf T.bin_of T.group_of s.items.items s.bins s.groups s.waiting × HasPlaces s.room (vec_len s.items) (vec_capacity s.items) s.bins s.groups };
}

impl<T: Shelved> Shelf<T> {
    pub fn new(alloc: Global) -> Shelf<T>
        ensures { result ≡ no_places }
    {
        Shelf {
            alloc,
            items: Vec::new(alloc),
            bins: Chains::new(alloc),
            groups: Chains::new(alloc),
            waiting: 0,
            room: 0,
        }
    }

    /// Makes room for one item more.
    pub fn reserve(&mut self) -> Result<(), NoMemory>
        ensures values { values_on self.new ≡ values_on self.old }
        ensures ok { OnOk result (self.new.room ≡ self.old.room + 1) }
        ensures err { OnErr result (self.new.room ≡ self.old.room) }
    {
        self.move_up();
        let more = self.room.checked_add(1).ok_or(AllocError)?;
        self.set_room(more)
    }

    /// Makes room for so many more items.
    fn set_room(&mut self, room: usize) -> Result<(), NoMemory>
        ensures items { self.new.items ≡ self.old.items }
        ensures ok { OnOk result (self.new.room ≡ room) }
        ensures err { OnErr result (self.new.room ≡ self.old.room) }
    {
        self.items.reserve(room)?;
        self.bins.reserve(room)?;
        self.groups.reserve(room)?;
        self.room = room;
        Ok(())
    }

    /// Gives back room for one item.
    pub fn give_back(&mut self)
        requires { 0 < self.old.room }
        ensures items { self.new.items ≡ self.old.items }
        ensures room { self.new.room ≡ self.old.room - 1 }
    {
        self.room -= 1;
    }

    /// Puts an item at the next place, behind all others.
    pub fn push_reserved(&mut self, item: T)
        requires { 0 < self.old.room }
        ensures values { values_on self.new ≡ values_on self.old ++ item ∷ [] }
        ensures room { self.new.room ≡ self.old.room - 1 }
    {
        self.bins.append(item.bin());
        self.groups.append(item.group());
        self.items.push_reserved(Some(item));
        self.waiting = self.waiting.saturating_add(1);
        self.room -= 1;
    }

    /// The first item that passes.
    pub fn first<P: Criterion<T>>(&self, test: &P) -> Option<(usize, T)>
        ensures { result ≡ first_passing (P.test test.now) (entries_on self.now) }
    {
        first_item(&self.items, test)
    }

    /// The first item of a bin that passes.
    pub fn first_in_bin<P: Criterion<T>>(&self, bin: Option<u64>, test: &P) -> Option<(usize, T)>
        ensures { result ≡ first_passing (λ x. is_in T.bin_of bin (Some x) && P.test test.now x) (entries_on self.now) }
    {
        first_chained(&self.items, &self.bins, bin, test, None)
    }

    /// The first item of a bin that passes, if it stands before an end that is set.
    pub fn first_in_bin_before<P: Criterion<T>>(
        &self,
        bin: Option<u64>,
        test: &P,
        end: Option<usize>,
    ) -> Option<(usize, T)>
        ensures { result ≡ below end (first_passing (λ x. is_in T.bin_of bin (Some x) && P.test test.now x) (entries_on self.now)) }
    {
        first_chained(&self.items, &self.bins, bin, test, end)
    }

    /// The first item of a group that passes.
    pub fn first_in_group<P: Criterion<T>>(
        &self,
        group: Option<u64>,
        test: &P,
    ) -> Option<(usize, T)>
        ensures { result ≡ first_passing (λ x. is_in T.group_of group (Some x) && P.test test.now x) (entries_on self.now) }
    {
        first_chained(&self.items, &self.groups, group, test, None)
    }

    /// Takes out the item at a place.
    fn remove(&mut self, place: usize)
        ensures items { self.new.items ≡ without_at self.old.items place }
        ensures room { self.new.room ≡ self.old.room }
    {
        if let Some(item) = take_item(&mut self.items, place) {
            self.bins.remove(item.bin(), place);
            self.groups.remove(item.group(), place);
            self.waiting = self.waiting.saturating_sub(1);
        }
    }

    /// Moves the items up where most places are empty. For want of memory they stay where they are.
    fn move_up(&mut self)
        ensures values { values_on self.new ≡ values_on self.old }
        ensures room { self.new.room ≡ self.old.room }
    {
        if self.is_sparse() {
            if let Ok(renewed) = renewed(self.alloc, &self.items, self.room) {
                *self = renewed;
            }
        }
    }

    /// More than seven of eight places are empty, and not only a few.
    fn is_sparse(&self) -> bool {
        self.items.len() / 8 > self.waiting.saturating_add(8)
    }

    /// Takes out an item that was found, if one was. Of what passes a test it was the first one.
    pub fn take(&mut self, found: Option<(usize, T)>) -> Option<T>
        ensures answer { (p : T → Bool) → found ≡ first_passing p (entries_on self.old) → result ≡ find p (values_on self.old) }
        ensures after { (p : T → Bool) → found ≡ first_passing p (entries_on self.old) → values_on self.new ≡ without_first p (values_on self.old) }
        ensures none { IfNone result (self.new ≡ self.old) }
        ensures room { self.new.room ≡ self.old.room }
    {
        match found {
            None => None,
            Some(entry) => {
                self.remove(entry.0);
                Some(entry.1)
            }
        }
    }

    /// The items that pass, in order.
    pub fn passing<P: Criterion<T>>(&self, alloc: Global, test: &P) -> Result<Vec<T>, NoMemory>
        ensures { IfOk result (λ v. v.items ≡ filter (P.test test.now) (values_on self.now)) }
    {
        copies(alloc, &self.items, test)
    }

    /// Takes out the items that pass.
    pub fn drop_passing<P: Criterion<T>>(&mut self, test: &P)
        ensures values { values_on self.new ≡ filter (λ x. not (P.test test.now x)) (values_on self.old) }
        ensures room { self.new.room ≡ self.old.room }
    {
        for place in 0..self.places() {
            self.remove_passing(place, test);
        }
    }

    /// Takes out the item at a place if it passes.
    fn remove_passing<P: Criterion<T>>(&mut self, place: usize, test: &P)
        ensures items { self.new.items ≡ without_passing (P.test test.now) self.old.items place }
        ensures room { self.new.room ≡ self.old.room }
    {
        if self.passes_at(place, test) {
            self.remove(place);
        }
    }

    /// How many places there are, empty ones among them.
    fn places(&self) -> usize
        ensures { result ≡ length self.now.items }
    {
        self.items.len()
    }

    /// A place holds an item that passes.
    fn passes_at<P: Criterion<T>>(&self, place: usize, test: &P) -> bool
        ensures { result ≡ passes (P.test test.now) (item_at self.now.items place) }
    {
        match item_of(&self.items, place) {
            None => false,
            Some(item) => test.passes(&item),
        }
    }
}

/// A shelf of the items with no empty places, and with room for so many more.
fn renewed<T: Shelved>(
    alloc: Global,
    items: &Vec<Option<T>>,
    room: usize,
) -> Result<Shelf<T>, NoMemory>
    ensures values { IfOk result (λ s. values_on s ≡ values_of (entries_from 0 items.now.items)) }
    ensures room { IfOk result (λ s. s.room ≡ room) }
{
    let mut shelf = Shelf::new(alloc);
    for place in 0..items.len() {
        if let Some(item) = items[place] {
            shelf.set_room(1)?;
            shelf.push_reserved(item);
        }
    }
    shelf.set_room(room)?;
    Ok(shelf)
}
