//! Places in chains: those of a bin follow one another in rising order.
ghost use Rattle.std.specs.Prelude.{◌≡◌, ℕ, ◌+◌, ◌≤◌, ◌++◌, [], ◌∷◌, Option, Some, None, cond, nat_eq, length, OnOk, IsSome};
ghost use Rattle.std.specs.Option.{option_eq};
ghost use Rattle.std.specs.HashMap.{spare};
ghost use Rattle.std.specs.Vec.{vec_len, vec_capacity};
ghost use Rattle.rdm_bins.specs.Chains.{first_of, last_of, after_at, before_at, ends_at, with_after, with_before, ends_with, ends_without, HasRoom};

use rdm_num::NoMemory;
use std::alloc::Global;
use std::collections::HashMap;

/// The first and the last place of a chain.
#[derive(Clone, Copy)]
pub struct Ends {
    first: usize,
    last: usize,
}

/// The neighbours of a place in its chain.
#[derive(Clone, Copy)]
pub struct Link {
    before: Option<usize>,
    after: Option<usize>,
}

/// A chain for each bin, and a link for each place. The bin without a number has a chain too.
#[derive(Drop)]
pub struct Chains {
    tagged: HashMap<u64, Ends>,
    other: Option<Ends>,
    links: Vec<Link>,
}

impl Chains {
    pub fn new(alloc: Global) -> Chains
        ensures ends { (b : Option ℕ) → ends_at result b ≡ None }
        ensures links { result.links.items ≡ [] }
        ensures room { HasRoom 0 result }
    {
        Chains {
            tagged: HashMap::new(alloc),
            other: None,
            links: Vec::new(alloc),
        }
    }

    /// Makes room for so many more places.
    pub fn reserve(&mut self, room: usize) -> Result<(), NoMemory>
        ensures ends { (b : Option ℕ) → ends_at self.new b ≡ ends_at self.old b }
        ensures links { self.new.links.items ≡ self.old.links.items }
        ensures room { OnOk result (HasRoom room self.new) }
        ensures kept { (n : ℕ) → HasRoom n self.old → HasRoom n self.new }
    {
        self.links.reserve(room)?;
        self.tagged.reserve(room)?;
        Ok(())
    }

    /// The ends of a bin's chain.
    #[tactic(auto, unfolding(crate::specs::Chains::ends_at))]
    fn ends(&self, bin: Option<u64>) -> Option<Ends>
        ensures { result ≡ ends_at self.now bin }
    {
        match bin {
            None => self.other,
            Some(tag) => self.tagged.get(&tag).copied(),
        }
    }

    /// The first place of a bin's chain.
    pub fn first(&self, bin: Option<u64>) -> Option<usize>
        ensures { result ≡ first_of (ends_at self.now bin) }
    {
        match self.ends(bin) {
            None => None,
            Some(ends) => Some(ends.first),
        }
    }

    /// The place behind a place.
    pub fn after(&self, place: usize) -> Option<usize>
        ensures { result ≡ after_at self.now.links.items place }
    {
        match self.links.get(place) {
            None => None,
            Some(link) => link.after,
        }
    }

    /// The place before a place.
    fn before(&self, place: usize) -> Option<usize>
        ensures { result ≡ before_at self.now.links.items place }
    {
        match self.links.get(place) {
            None => None,
            Some(link) => link.before,
        }
    }

    /// Sets the ends of a bin's chain, and gives those that it had.
    #[tactic(auto, unfolding(crate::specs::Chains::ends_at))]
    fn set_ends(&mut self, bin: Option<u64>, ends: Ends) -> Option<Ends>
        requires { 1 ≤ spare self.old.tagged }
        ensures answer { result ≡ ends_at self.old bin }
        ensures ends { (b : Option ℕ) → ends_at self.new b ≡ cond (option_eq nat_eq bin b) (Some ends) (ends_at self.old b) }
        ensures links { self.new.links ≡ self.old.links }
        ensures spare { spare self.old.tagged ≤ spare self.new.tagged + 1 }
    {
        match bin {
            None => self.other.replace(ends),
            Some(tag) => {
                let Ok(old) = self.tagged.insert(tag, ends) else {
                    unreachable!()
                };
                old
            }
        }
    }

    /// Sets the ends of a bin's chain that is there.
    #[tactic(auto, unfolding(crate::specs::Chains::ends_at))]
    fn change_ends(&mut self, bin: Option<u64>, ends: Ends)
        requires { IsSome (ends_at self.old bin) }
        ensures ends { (b : Option ℕ) → ends_at self.new b ≡ cond (option_eq nat_eq bin b) (Some ends) (ends_at self.old b) }
        ensures links { self.new.links ≡ self.old.links }
        ensures spare { spare self.new.tagged ≡ spare self.old.tagged }
    {
        match bin {
            None => self.other = Some(ends),
            Some(tag) => {
                if let Some(old) = self.tagged.get_mut(&tag) {
                    *old = ends;
                }
            }
        }
    }

    /// Takes a bin's chain away.
    fn drop_ends(&mut self, bin: Option<u64>)
        ensures ends { (b : Option ℕ) → ends_at self.new b ≡ cond (option_eq nat_eq bin b) None (ends_at self.old b) }
        ensures links { self.new.links ≡ self.old.links }
        ensures spare { spare self.old.tagged ≤ spare self.new.tagged }
    {
        match bin {
            None => self.other = None,
            Some(tag) => {
                self.tagged.remove(&tag);
            }
        }
    }

    /// Puts the next place at the end of a bin's chain.
    pub fn append(&mut self, bin: Option<u64>)
        requires { HasRoom 1 self.old }
        ensures ends { (b : Option ℕ) → ends_at self.new b ≡ cond (option_eq nat_eq bin b) (Some (ends_with (ends_at self.old bin) (length self.old.links.items))) (ends_at self.old b) }
        ensures links { self.new.links.items ≡ with_after self.old.links.items (last_of (ends_at self.old bin)) (Some (length self.old.links.items)) ++ record { before = last_of (ends_at self.old bin); after = None } ∷ [] }
        ensures room { (n : ℕ) → HasRoom (n + 1) self.old → HasRoom n self.new }
    {
        let place = self.links.len();
        let before = last_place(self.end_with(bin, place));
        set_after(&mut self.links, before, Some(place));
        self.links.push_reserved(Link {
            before,
            after: None,
        });
    }

    /// Makes a place the last one of a bin's chain, and gives the ends that the chain had. A chain of
    /// no places, the usual case, costs one step of hashing.
    fn end_with(&mut self, bin: Option<u64>, place: usize) -> Option<Ends>
        requires { 1 ≤ spare self.old.tagged }
        ensures answer { result ≡ ends_at self.old bin }
        ensures ends { (b : Option ℕ) → ends_at self.new b ≡ cond (option_eq nat_eq bin b) (Some (ends_with (ends_at self.old bin) place)) (ends_at self.old b) }
        ensures links { self.new.links ≡ self.old.links }
        ensures spare { spare self.old.tagged ≤ spare self.new.tagged + 1 }
    {
        let old = self.set_ends(
            bin,
            Ends {
                first: place,
                last: place,
            },
        );
        if let Some(ends) = old {
            self.change_ends(
                bin,
                Ends {
                    last: place,
                    ..ends
                },
            );
        }
        old
    }

    /// Takes a place out of a bin's chain.
    pub fn remove(&mut self, bin: Option<u64>, place: usize)
        ensures ends { (b : Option ℕ) → ends_at self.new b ≡ cond (option_eq nat_eq bin b) (ends_without (ends_at self.old bin) (before_at self.old.links.items place) (after_at self.old.links.items place)) (ends_at self.old b) }
        ensures links { self.new.links.items ≡ with_before (with_after self.old.links.items (before_at self.old.links.items place) (after_at self.old.links.items place)) (after_at self.old.links.items place) (before_at self.old.links.items place) }
        ensures room { (n : ℕ) → HasRoom n self.old → HasRoom n self.new }
    {
        let before = self.before(place);
        let after = self.after(place);
        self.close_ends(bin, before, after);
        set_after(&mut self.links, before, after);
        set_before(&mut self.links, after, before);
    }

    /// Moves the ends of a bin's chain to the neighbours of a place that goes. A place that has both
    /// neighbours is no end.
    fn close_ends(&mut self, bin: Option<u64>, before: Option<usize>, after: Option<usize>)
        ensures ends { (b : Option ℕ) → ends_at self.new b ≡ cond (option_eq nat_eq bin b) (ends_without (ends_at self.old bin) before after) (ends_at self.old b) }
        ensures links { self.new.links ≡ self.old.links }
        ensures spare { spare self.old.tagged ≤ spare self.new.tagged }
    {
        match (before, after) {
            (None, None) => self.drop_ends(bin),
            (None, Some(first)) => self.set_first(bin, first),
            (Some(last), None) => self.set_last(bin, last),
            (Some(_before), Some(_after)) => {}
        }
    }

    /// Lets a bin's chain, if there is one, begin at another place.
    fn set_first(&mut self, bin: Option<u64>, first: usize)
        ensures ends { (b : Option ℕ) → ends_at self.new b ≡ cond (option_eq nat_eq bin b) (ends_without (ends_at self.old bin) None (Some first)) (ends_at self.old b) }
        ensures links { self.new.links ≡ self.old.links }
        ensures spare { spare self.old.tagged ≤ spare self.new.tagged }
    {
        if let Some(ends) = self.ends(bin) {
            self.change_ends(bin, Ends { first, ..ends });
        }
    }

    /// Lets a bin's chain, if there is one, end at another place.
    fn set_last(&mut self, bin: Option<u64>, last: usize)
        ensures ends { (b : Option ℕ) → ends_at self.new b ≡ cond (option_eq nat_eq bin b) (ends_without (ends_at self.old bin) (Some last) None) (ends_at self.old b) }
        ensures links { self.new.links ≡ self.old.links }
        ensures spare { spare self.old.tagged ≤ spare self.new.tagged }
    {
        if let Some(ends) = self.ends(bin) {
            self.change_ends(bin, Ends { last, ..ends });
        }
    }
}

/// The last place of a chain.
fn last_place(ends: Option<Ends>) -> Option<usize>
    ensures { result ≡ last_of ends }
{
    match ends {
        None => None,
        Some(ends) => Some(ends.last),
    }
}

/// Links the place behind another one, if there is one.
fn set_after(links: &mut Vec<Link>, place: Option<usize>, after: Option<usize>)
    ensures links { links.new.items ≡ with_after links.old.items place after }
    ensures len { vec_len links.new ≡ vec_len links.old }
    ensures capacity { vec_capacity links.new ≡ vec_capacity links.old }
{
    if let Some(place) = place {
        if let Some(link) = links.get_mut(place) {
            link.after = after;
        }
    }
}

/// Links the place before another one, if there is one.
fn set_before(links: &mut Vec<Link>, place: Option<usize>, before: Option<usize>)
    ensures links { links.new.items ≡ with_before links.old.items place before }
    ensures len { vec_len links.new ≡ vec_len links.old }
    ensures capacity { vec_capacity links.new ≡ vec_capacity links.old }
{
    if let Some(place) = place {
        if let Some(link) = links.get_mut(place) {
            link.before = before;
        }
    }
}
