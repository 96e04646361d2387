//! Where the values of a pool stand, by their numbers, the ends of these, and their marks.
ghost use Rattle.std.specs.Prelude.{◌≡◌, ◌*◌, ◌<◌, ◌≤◌, length, filter, is_some, IfSome, IfNone, vec_len, vec_capacity};
ghost use Rattle.rdm_pool.specs.Numbered.{value_at, without};
ghost use Rattle.rdm_pool.specs.Places.{Rises, AreBelow, StayRising, StayBelow, StayEnding, MovesSeldom, IsAt, IsNowhere, HaveEnds, HaveMarks, end_of, if_marked, live, marked_numbers, after_set_mark};
ghost use Rattle.rdm_pool.specs.Marks.{has_number, without_number};

use crate::ends::Ends;
use rdm_num::OpId;

/// Where the value of a number stands, or stood.
#[derive(Clone, Copy)]
pub struct Place {
    pub number: u32,
    /// `None` once the value is taken: the place is gone.
    pub key: Option<usize>,
    /// Of a place that is gone this says nothing.
    pub is_marked: bool,
}

impl Place {
    /// One more than the number, and 0 once the place is gone.
    pub fn end(&self) -> u32
        requires { self.now.number < 4294967295 }
        ensures { result ≡ end_of self.now.number self.now.key }
    {
        match self.key {
            Some(_) => self.number + 1,
            None => 0,
        }
    }

    /// The end where the number is marked, and else 0.
    pub fn mark_end(&self) -> u32
        requires { self.now.number < 4294967295 }
        ensures { result ≡ end_of self.now.number (if_marked self.now).key }
    {
        if self.is_marked { self.end() } else { 0 }
    }
}

/// The index of a number's place, among places of rising numbers.
fn place_of(places: &[Place], id: OpId) -> Option<usize>
    requires { Rises 0 places.now }
    ensures within { IfSome result (λ i. i < length places.now) }
    ensures found { IfSome result (IsAt places.now id.0) }
    ensures absent { IfNone result (IsNowhere places.now id.0) }
{
    places
        .binary_search_by_key(&id.0, |place| place.number)
        .ok()
}

/// The key of a number's value, among places of rising numbers.
pub fn key_of(places: &[Place], id: OpId) -> Option<usize>
    requires { Rises 0 places.now }
    ensures { result ≡ value_at (live places.now) id.0 }
{
    let at = place_of(places, id)?;
    places[at].key
}

/// The key of a number's value. The place is gone from now on, and no other place moves.
pub fn take_key(places: &mut [Place], ends: &mut Ends, marks: &mut Ends, id: OpId) -> Option<usize>
    requires rises { Rises 0 places.old }
    requires ends { HaveEnds places.old ends.old }
    requires marks { HaveMarks places.old marks.old }
    ensures key { result ≡ value_at (live places.old) id.0 }
    ensures live { live places.new ≡ without (live places.old) id.0 }
    ensures rises { StayRising places.old places.new }
    ensures below { StayBelow places.old places.new }
    ensures ends { HaveEnds places.new ends.new }
    ensures ends_stay { length ends.new ≡ length ends.old }
    ensures marked { marked_numbers places.new ≡ without_number (marked_numbers places.old) id.0 }
    ensures marks { HaveMarks places.new marks.new }
    ensures marks_stay { length marks.new ≡ length marks.old }
{
    let at = place_of(places, id)?;
    ends.set(at, 0);
    marks.set(at, 0);
    places[at].key.take()
}

/// The number has a value and is marked.
pub fn has_mark(places: &[Place], id: OpId) -> bool
    requires { Rises 0 places.now }
    ensures { result ≡ has_number (marked_numbers places.now) id.0 }
{
    match place_of(places, id) {
        Some(at) => places[at].is_marked && places[at].key.is_some(),
        None => false,
    }
}

/// Marks a number that has a value, or takes its mark away.
pub fn set_mark(places: &mut [Place], marks: &mut Ends, id: OpId, is_marked: bool)
    requires rises { Rises 0 places.old }
    requires below { AreBelow 4294967295 places.old }
    requires marks { HaveMarks places.old marks.old }
    ensures live { live places.new ≡ live places.old }
    ensures marked { marked_numbers places.new ≡
        after_set_mark is_marked (value_at (live places.old) id.0) (marked_numbers places.old) id.0 }
    ensures rises { StayRising places.old places.new }
    ensures below { StayBelow places.old places.new }
    ensures ends { StayEnding places.old places.new }
    ensures marks { HaveMarks places.new marks.new }
    ensures marks_stay { length marks.new ≡ length marks.old }
{
    let Some(at) = place_of(places, id) else {
        return;
    };
    let place = &mut places[at];
    place.is_marked = is_marked;
    marks.set(at, place.mark_end());
}

/// Drops the places that are gone.
fn drop_gone(places: &mut Vec<Place>)
    ensures items { places.new.items ≡ filter (λ place. is_some place.key) places.old.items }
    ensures capacity { vec_capacity places.new ≡ vec_capacity places.old }
{
    places.retain(|place| place.key.is_some());
}

/// Sets the ends and the marks of some places, and all others to 0.
fn set_ends(ends: &mut Ends, marks: &mut Ends, places: &[Place])
    requires below { AreBelow 4294967295 places.now }
    requires room { length places.now ≤ length ends.old }
    requires marks_room { length places.now ≤ length marks.old }
    ensures ends { HaveEnds places.now ends.new }
    ensures ends_stay { length ends.new ≡ length ends.old }
    ensures marks { HaveMarks places.now marks.new }
    ensures marks_stay { length marks.new ≡ length marks.old }
{
    ends.clear();
    marks.clear();
    for (at, place) in places.iter().enumerate() {
        ends.set(at, place.end());
        marks.set(at, place.mark_end());
    }
}

/// Sees that one more place fits. Only where all the memory is taken are the places that are gone
/// dropped, and the others moved up.
pub fn make_room(places: &mut Vec<Place>, ends: &mut Ends, marks: &mut Ends)
    requires few { 2 * length (live places.old.items) < vec_capacity places.old }
    requires below { AreBelow 4294967295 places.old.items }
    requires ends { HaveEnds places.old.items ends.old }
    requires has_ends { vec_capacity places.old ≤ length ends.old }
    requires marks { HaveMarks places.old.items marks.old }
    requires has_marks { vec_capacity places.old ≤ length marks.old }
    ensures live { live places.new.items ≡ live places.old.items }
    ensures rises { StayRising places.old.items places.new.items }
    ensures below { StayBelow places.old.items places.new.items }
    ensures room { vec_len places.new < vec_capacity places.new }
    ensures capacity { vec_capacity places.new ≡ vec_capacity places.old }
    ensures seldom { MovesSeldom places.old places.new }
    ensures ends { HaveEnds places.new.items ends.new }
    ensures ends_stay { length ends.new ≡ length ends.old }
    ensures marked { marked_numbers places.new.items ≡ marked_numbers places.old.items }
    ensures marks { HaveMarks places.new.items marks.new }
    ensures marks_stay { length marks.new ≡ length marks.old }
{
    if places.len() == places.capacity() {
        drop_gone(places);
        set_ends(ends, marks, places);
    }
}
