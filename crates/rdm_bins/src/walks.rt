//! Walks over places, in their order or along a chain.
ghost use Rattle.std.specs.Prelude.{◌≡◌, ℕ, Option, Some, ◌&&◌, filter, length, IfOk};
ghost use Rattle.std.specs.Map.{values_of};
ghost use Rattle.std.specs.Vec.{vec_len, vec_capacity};
ghost use Rattle.rdm_bins.specs.Chains.{AreChains};
ghost use Rattle.rdm_bins.specs.Shelf.{item_at, without_at, entries_from, is_in, is_in_at, first_passing, below};
ghost use Rattle.rdm_bins.specs.Shelf as Shelves;

use crate::chains::Chains;
use crate::shelf::{Criterion, Shelved};
use rdm_num::NoMemory;
use std::alloc::Global;

/// Takes out what a place holds.
pub fn take_item<T: Shelved>(items: &mut Vec<Option<T>>, place: usize) -> Option<T>
    ensures answer { result ≡ item_at items.old.items place }
    ensures after { items.new.items ≡ without_at items.old.items place }
    ensures len { vec_len items.new ≡ vec_len items.old }
    ensures capacity { vec_capacity items.new ≡ vec_capacity items.old }
{
    match items.get_mut(place) {
        None => None,
        Some(item) => item.take(),
    }
}

/// The first item that passes.
pub fn first_item<T: Shelved, P: Criterion<T>>(
    items: &Vec<Option<T>>,
    test: &P,
) -> Option<(usize, T)>
    ensures { result ≡ first_passing (P.test test.now) (entries_from 0 items.now.items) }
{
    for place in 0..items.len() {
        if let Some(item) = items[place] {
            if test.passes(&item) {
                return Some((place, item));
            }
        }
    }
    None
}

/// The first item of a chain that passes, if it stands before an end that is set. The walk goes no
/// further than that end.
pub fn first_chained<T: Shelved, P: Criterion<T>>(
    items: &Vec<Option<T>>,
    chains: &Chains,
    bin: Option<u64>,
    test: &P,
    end: Option<usize>,
) -> Option<(usize, T)>
    ghost bin_of: { T → Option ℕ }
    requires { AreChains (is_in_at bin_of items.now.items) (length items.now.items) chains.now }
    ensures { result ≡ below end (first_passing (λ x. is_in bin_of bin (Some x) && P.test test.now x) (entries_from 0 items.now.items)) }
{
    let mut next = chains.first(bin);
    while let Some(place) = next {
        if !is_within(end, place) {
            return None;
        }
        if let Some(item) = item_of(items, place) {
            if test.passes(&item) {
                return Some((place, item));
            }
        }
        next = chains.after(place);
    }
    None
}

/// The place comes before the end, if one is set.
fn is_within(end: Option<usize>, place: usize) -> bool
    ensures { result ≡ Shelves.is_within end place }
{
    match end {
        None => true,
        Some(end) => place < end,
    }
}

/// What a place holds.
pub fn item_of<T: Shelved>(items: &Vec<Option<T>>, place: usize) -> Option<T>
    ensures { result ≡ item_at items.now.items place }
{
    match items.get(place) {
        None => None,
        Some(item) => *item,
    }
}

/// Copies of the items that pass, in order.
pub fn copies<T: Shelved, P: Criterion<T>>(
    alloc: Global,
    items: &Vec<Option<T>>,
    test: &P,
) -> Result<Vec<T>, NoMemory>
    ensures { IfOk result (λ v. v.items ≡ filter (P.test test.now) (values_of (entries_from 0 items.now.items))) }
{
    let mut copies = Vec::new(alloc);
    for place in 0..items.len() {
        if let Some(item) = items[place] {
            if test.passes(&item) {
                copies.push(item)?;
            }
        }
    }
    Ok(copies)
}
