//! The places of clauses by their numbers.

ghost use Rattle.std.specs.Prelude.{◌≡◌, ◌≤◌, ◌<◌, ◌+◌, ◌-◌, ◌^◌, ℕ, ◌==◌, None, Some, if◌then◌else◌, length, max, slice_index_or, OnOk, OnErr};
ghost use Rattle.mal_check.specs.Places.{place_of, place_in, no_places};

use crate::held::Place;
use mal_base::ClauseId;
use std::alloc::{AllocError, Global};
use std::collections::BTreeMap;
use std::marker::Model;

/// The places of numbers: those of small numbers in a list by number, the others in a map. Whoever writes a proof
/// chooses its numbers, so a list alone could be asked for any room. Contracts see both; `place_in` is the place of a
/// number.
#[derive(Drop)]
pub struct PlaceTable {
    dense: Vec<Option<Place>>,
    sparse: BTreeMap<u64, Place>,
}

impl Model for PlaceTable {
    ghost use Rattle.mal_check.specs.Places.{Placed};

    ghost Value = { Placed };

    ghost view = { λ t. record { dense = t.dense.items; sparse = t.sparse.entries } };
}

impl PlaceTable {
    /// No number has a place. Takes no memory.
    pub fn new(alloc: Global) -> PlaceTable
        ensures { result ≡ no_places }
    {
        PlaceTable {
            dense: Vec::new(alloc),
            sparse: BTreeMap::new(alloc),
        }
    }

    /// The place of a number.
    pub fn get(&self, id: ClauseId) -> Option<Place>
        ensures { result ≡ place_in self.now id }
    {
        let number = id.number();
        match dense_at(self.dense.as_slice(), number as usize) {
            Some(place) => Some(place),
            None => sparse_at(&self.sparse, number),
        }
    }

    /// Gives a number a place. It stands in the list where the number is below this bound, or the list is longer; so the
    /// list gets no longer than the bound. Where memory is refused nothing changes.
    pub fn put(&mut self, id: ClauseId, place: Place, bound: usize) -> Result<(), AllocError>
        ensures ok { OnOk result
            ((q : ℕ) → place_in self.new q ≡ (if q == id then Some place else place_in self.old q)) }
        ensures room { length self.new.dense ≤ max (length self.old.dense) bound }
        ensures err { OnErr result (self.new ≡ self.old) }
    {
        let number = id.number();
        let at = number as usize;
        if at < bound || at < self.dense.len() {
            return put_dense(&mut self.dense, at, place);
        }
        self.sparse.insert(number, place)?;
        Ok(())
    }

    /// Takes a number's place away, if it has one.
    pub fn remove(&mut self, id: ClauseId)
        ensures places { (q : ℕ) → place_in self.new q ≡ (if q == id then None else place_in self.old q) }
        ensures room { length self.new.dense ≡ length self.old.dense }
    {
        let number = id.number();
        remove_dense(self.dense.as_mut_slice(), number as usize);
        self.sparse.remove(&number);
    }
}

/// What the list has for a number.
fn dense_at(dense: &[Option<Place>], at: usize) -> Option<Place>
    ensures { result ≡ slice_index_or dense.now at None }
{
    match dense.get(at) {
        None => None,
        Some(place) => *place,
    }
}

/// What the map has for a number.
fn sparse_at(sparse: &BTreeMap<u64, Place>, number: u64) -> Option<Place>
    ensures { result ≡ place_of sparse.now.entries number }
{
    match sparse.get(&number) {
        None => None,
        Some(place) => Some(*place),
    }
}

/// Gives a number a place in the list. Where memory is refused nothing changes.
fn put_dense(dense: &mut Vec<Option<Place>>, at: usize, place: Place) -> Result<(), AllocError>
    requires { at < 2 ^ 64 - 1 }
    ensures ok { OnOk result
        ((q : ℕ)
        → slice_index_or dense.new.items q None
        ≡ (if q == at then Some place else slice_index_or dense.old.items q None)) }
    ensures room { length dense.new.items ≤ max (length dense.old.items) (at + 1) }
    ensures err { OnErr result (dense.new.items ≡ dense.old.items) }
{
    if dense.len() <= at {
        dense.resize(at + 1, None)?;
    }
    dense[at] = Some(place);
    Ok(())
}

/// Takes a number's place out of the list.
fn remove_dense(dense: &mut [Option<Place>], at: usize)
    ensures places { (q : ℕ) → slice_index_or dense.new q None ≡ (if q == at then None else slice_index_or dense.old q None) }
    ensures room { length dense.new ≡ length dense.old }
{
    if at < dense.len() {
        dense[at] = None;
    }
}
