//! The engine.

ghost use Rattle.std.specs.Prelude.{◌≡◌, ◌+◌, ◌≤◌, true, length, take, None, vec_capacity};
ghost use Rattle.mal_base.specs.{Clauses.{rises}, NumberedClause.{lits_under}};
ghost use Rattle.spec_node.specs.{Adding.{with_clause}, Batch.{after_batch}};
ghost use Rattle.mal_trail.specs.{Rooms.{IsRoomFor, IsLeft, are_within}, Trailed.{Grows}};
ghost use Rattle.mal_watch.specs.{Finding.{pending}, Fitting.{room_in, Fits}, FollowLaws.{follows-push, follows-cut, follows-alike, follows-less}};

use crate::found::Found;
use crate::watch_lists::WatchLists;
use crate::{batch, found, pair, walk};
use mal_base::{ClauseId, ClauseView, Lit, grown};
use mal_store::{Store, sort_ids};
use mal_trail::{Engine, Listed, Trail};
use std::alloc::{AllocError, Global};

/// The clauses, and for each of two or more literals, in the order in which these came, the two literals that it
/// watches. It fits a trail where, under each beginning of the handled entries, a watched literal is false only where
/// the other watched one of its clause is true, or all others are false but that one.
#[derive(Drop)]
pub struct Watcher {
    store: Store,
    lists: WatchLists,
    found: Vec<Found>,
}

impl Watcher {
    /// Adds a clause, whose literals rise by variable. Takes no memory.
    fn add(&mut self, id: ClauseId, lits: &[Lit], trail: &Trail)
        requires new { lits_under id self.old.store.clauses ≡ None }
        requires form { rises lits.now ≡ true }
        requires room { IsRoomFor lits.now (room_in self.old) }
        requires fits { Fits self.old trail.now.entries trail.now.processed }
        ensures clauses { self.new.store.clauses ≡ with_clause
            (record { id = id; lits = lits.now }) self.old.store.clauses }
        ensures room { IsLeft 1 (length lits.now) (room_in self.old) (room_in self.new) }
        ensures fits { Fits self.new trail.now.entries trail.now.processed }
    {
        self.store.add_reserved(id, lits);
        // A clause of one literal or none has nothing to watch: the batch of the empty front goes over all of these.
        if lits.len() < 2 {
            return;
        }
        // Under the entries that are handled already, the two must be such as a clause would watch that was there before.
        let handled = trail.processed().saturating_sub(1) as usize;
        let (first, second) = pair::pick(trail, handled, lits);
        self.lists.add(first);
        self.lists.add(second);
    }

    /// Finds what is pending of the batch of the first entries of the trail, so many: its clauses whose literal left is
    /// not true, by rising number. Takes no memory.
    fn find(&mut self, trail: &Trail, count: usize)
        requires some { 1 ≤ count }
        requires count { count ≤ length trail.now.entries }
        requires fits { Fits self.old trail.now.entries count }
        ensures found { self.new.found.items
            ≡ pending (take count trail.now.entries) trail.now.entries self.old.store.clauses }
        ensures store { self.new.store ≡ self.old.store }
        ensures lists { self.new.lists.count ≡ self.old.lists.count }
        ensures watches { self.new.lists.room ≡ self.old.lists.room }
        ensures capacity { vec_capacity self.new.found ≡ vec_capacity self.old.found }
        ensures fits { Fits self.new trail.now.entries (count + 1) }
    {
        self.found.clear();
        let last = trail.entries()[count - 1];
        let lit = last.lit.negate();
        // What was false before is in the batch of an earlier entry.
        if trail.is_false_before(count - 1, lit) {
            return;
        }
        trail.is_consistent();
        self.lists.take(lit);
        walk::walk(
            &mut self.lists,
            &mut self.found,
            &mut self.store,
            trail,
            count,
            lit,
        );
        // Lists are in no order, and a batch is by rising number: so every engine finds the same one.
        found::sort(&mut self.found);
    }

    /// Handles the next batch, which does not count as handled yet. The result is the conflict. Takes no memory.
    fn handle_next(&mut self, trail: &mut Trail) -> Option<ClauseId>
        requires left { trail.old.processed ≤ length trail.old.entries }
        requires within { are_within trail.old.room self.old.store.clauses ≡ true }
        requires fits { Fits self.old trail.old.entries trail.old.processed }
        ensures progress { after_batch trail.old.processed trail.old.entries self.old.store.clauses
            ≡ record { trail = trail.new.entries; conflict = result } }
        ensures grows { Grows trail.old trail.new }
        ensures store { self.new.store ≡ self.old.store }
        ensures lists { self.new.lists.count ≡ self.old.lists.count }
        ensures watches { self.new.lists.room ≡ self.old.lists.room }
        ensures capacity { vec_capacity self.new.found ≡ vec_capacity self.old.found }
        ensures fits { Fits self.new trail.new.entries (trail.old.processed + 1) }
    {
        let count = trail.processed() as usize;
        if count == 0 {
            return batch::handle_short(trail, &self.store);
        }
        self.find(trail, count);
        batch::handle(trail, self.found.as_slice())
    }
}

impl ClauseView for Watcher {
    ghost clauses = { λ s. s.store.clauses };

    fn get(&self, id: ClauseId) -> Option<&[Lit]> {
        self.store.get(id)
    }
}

impl Engine for Watcher {
    ghost room = { room_in };

    ghost fits = { Fits };

    fn new(alloc: Global) -> Watcher {
        Watcher {
            store: Store::new(alloc),
            lists: WatchLists::new(alloc),
            found: Vec::new(alloc),
        }
    }

    fn reserve(
        &mut self,
        variables: u32,
        clauses: usize,
        literals: usize,
    ) -> Result<(), AllocError> {
        let watches = grown(clauses, clauses, usize::MAX)?;
        let total = grown(clauses, self.store.count_long(), usize::MAX)?;
        self.store.reserve(clauses, literals)?;
        // A list for each code of a literal, of which the first is 2.
        self.lists.reserve(2 * variables as usize + 2, watches)?;
        // One batch may find every long clause, and takes no memory.
        self.found.clear();
        self.found.reserve(total)
    }

    fn load(&mut self, id: ClauseId, lits: &[Lit], trail: &Trail) {
        self.add(id, lits, trail);
    }

    fn learn(&mut self, id: ClauseId, lits: &[Lit], trail: &Trail) {
        self.add(id, lits, trail);
    }

    fn forget(&mut self, ids: &mut [ClauseId]) {
        sort_ids(ids);
        self.lists.forget(&self.store, ids);
        self.store.forget(ids);
    }

    fn propagate_one(&mut self, trail: &mut Trail) -> Option<ClauseId> {
        let conflict = self.handle_next(trail);
        let processed = trail.processed();
        trail.set_processed(processed + 1);
        conflict
    }

    ghost fits_push = { λ engine entries entry processed bound fits. follows-push _ _ _ _ _ _ entries entry processed bound fits };

    ghost fits_cut = { λ engine entries processed level fits. follows-cut _ _ _ _ _ _ entries processed level fits };

    ghost fits_alike = { λ engine entries others processed alike fits. follows-alike _ _ _ _ _ _ entries others processed alike fits };

    ghost fits_less = { λ engine entries processed less bound fits. follows-less _ _ _ _ _ _ entries processed less bound fits };
}

impl Listed for Watcher {
    fn count(&self) -> usize {
        self.store.len()
    }

    fn clause_at(&self, place: usize) -> (ClauseId, &[Lit]) {
        self.store.at(place)
    }
}
