//! The clauses of a checker.

ghost use Rattle.std.specs.Prelude.{◌≡◌, ◌≤◌, ◌+◌, ◌*◌, ℕ, ◌∷◌, ◌++◌, ◌==◌, [], None, Some, length, if◌then◌else◌, OnOk, OnErr};
ghost use Rattle.std.specs.{List.{list_any}, Option.{option_map}};
ghost use Rattle.spec_logic.specs.Refutation.{with_clause, without};
ghost use Rattle.mal_check.specs.{Places.{IsPlace, IsShort, clause_at, place_in, no_places}, Checked.{held}};

use crate::places::PlaceTable;
use mal_base::{Clause, ClauseId};
use std::alloc::{AllocError, Global};
use std::marker::Model;

/// Where a clause lies: among the originals, or among the added ones, by its place from 0 on.
#[derive(Clone, Copy, Debug, Drop)]
pub enum Place {
    Original(usize),
    Added(usize),
}

/// The original clauses and those that lines added. A deleted clause stays in its list and is held no more: the goal
/// counts an accepted clause also where it was deleted later, and nothing is copied.
#[derive(Drop)]
pub struct Clauses {
    originals: Vec<Option<Clause>>,
    added: Vec<Option<Clause>>,
    ids: PlaceTable,
}

impl Model for Clauses {
    ghost use Rattle.mal_check.specs.{Places.{HavePlaces, IsShort}, Checked.{Checked}};

    ghost Value = { Checked };

    ghost view = { λ c. record { originals = c.originals.items; added = c.added.items; ids = c.ids } };

    ghost invariant = { λ c. HavePlaces c.originals.items c.added.items c.ids × IsShort c.originals.items c.added.items c.ids };
}

impl Clauses {
    /// No clauses. Takes no memory.
    pub fn new(alloc: Global) -> Clauses
        ensures { result ≡ record { originals = []; added = []; ids = no_places } }
    {
        Clauses {
            originals: Vec::new(alloc),
            added: Vec::new(alloc),
            ids: PlaceTable::new(alloc),
        }
    }

    /// The clause held under an id. None exactly where nothing is.
    pub fn get(&self, id: ClauseId) -> Option<&Option<Clause>>
        ensures { option_map (λ c. c.now) result ≡ held self.now id }
    {
        match self.ids.get(id) {
            None => None,
            Some(place) => Some(clause_at(self.originals.as_slice(), self.added.as_slice(), place)),
        }
    }

    /// Adds an original clause under an id that is not held. Where memory is refused nothing changes.
    pub fn add_original(&mut self, id: ClauseId, clause: Option<Clause>) -> Result<(), AllocError>
        requires { held self.old id ≡ None }
        ensures originals { OnOk result (self.new.originals ≡ self.old.originals ++ clause ∷ []) }
        ensures added { OnOk result (self.new.added ≡ self.old.added) }
        ensures held { OnOk result (held self.new ≡ with_clause (held self.old) id clause) }
        ensures room { IsShort self.new.originals self.new.added self.new.ids }
        ensures err { OnErr result (self.new ≡ self.old) }
    {
        let bound = self.bound();
        self.originals.reserve(1)?;
        let place = Place::Original(self.originals.len());
        self.ids.put(id, place, bound)?;
        self.originals.push_reserved(clause);
        Ok(())
    }

    /// Adds the clause of a line under an id that is not held. Where memory is refused nothing changes.
    pub fn add(&mut self, id: ClauseId, clause: Option<Clause>) -> Result<(), AllocError>
        requires { held self.old id ≡ None }
        ensures originals { OnOk result (self.new.originals ≡ self.old.originals) }
        ensures added { OnOk result (self.new.added ≡ self.old.added ++ clause ∷ []) }
        ensures held { OnOk result (held self.new ≡ with_clause (held self.old) id clause) }
        ensures room { IsShort self.new.originals self.new.added self.new.ids }
        ensures err { OnErr result (self.new ≡ self.old) }
    {
        let bound = self.bound();
        self.added.reserve(1)?;
        let place = Place::Added(self.added.len());
        self.ids.put(id, place, bound)?;
        self.added.push_reserved(clause);
        Ok(())
    }

    /// Holds the clauses of these ids no more; an id that is not held changes nothing.
    pub fn delete(&mut self, ids: &[ClauseId])
        ensures originals { self.new.originals ≡ self.old.originals }
        ensures added { self.new.added ≡ self.old.added }
        ensures held { held self.new ≡ without (held self.old) ids.now }
        ensures room { IsShort self.new.originals self.new.added self.new.ids }
    {
        forget(&mut self.ids, ids);
    }

    /// Twice as many as there are clauses, and a few. The places of numbers below it take no more room than the
    /// clauses.
    fn bound(&self) -> usize
        ensures { result ≤ 2 * (length self.now.originals + length self.now.added) + 64 }
    {
        let count = self.originals.len().saturating_add(self.added.len());
        count.saturating_mul(2).saturating_add(64)
    }

    /// The added clauses, in the order of their lines; None stands for a tautology.
    pub fn added(&self) -> &[Option<Clause>]
        ensures { result.now ≡ self.now.added }
    {
        self.added.as_slice()
    }
}

/// The clause at a place that has one.
fn clause_at<'a>(
    originals: &'a [Option<Clause>],
    added: &'a [Option<Clause>],
    place: Place,
) -> &'a Option<Clause>
    requires { IsPlace originals.now added.now place }
    ensures { Some result.now ≡ clause_at originals.now added.now place }
{
    match place {
        Place::Original(n) => &originals[n],
        Place::Added(n) => &added[n],
    }
}

/// Takes these ids away.
fn forget(places: &mut PlaceTable, ids: &[ClauseId])
    ensures places { (id : ℕ)
        → place_in places.new id ≡ (if list_any (λ i. i == id) ids.now then None else place_in places.old id) }
    ensures room { length places.new.dense ≡ length places.old.dense }
{
    for id in ids {
        places.remove(*id);
    }
}
