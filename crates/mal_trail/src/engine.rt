//! Engines of unit propagation.

ghost use Rattle.std.specs.Prelude.{◌≡◌, ℕ, ◌+◌, ◌≤◌, true, List, [], ◌∷◌, ◌++◌, length, map, min, None, OnOk};
ghost use Rattle.mal_base.specs.{Limits.{greatest_variable}, Clauses.{rises}, NumberedClause.{lits_under}, declared.trail_entry.TrailEntry.{TrailEntry}};
ghost use Rattle.spec_node.specs.{Adding.{with_clause, forgetting}, Batch.{after_batch}, Cut.{kept}};
ghost use Rattle.mal_trail.specs.Rooms.{Room, HasRoom, IsRoomFor, IsLeft, are_within};

use crate::trail::Trail;
use mal_base::{ClauseId, ClauseView, Lit};
use std::alloc::{AllocError, Global};

/// What holds the clauses of a node and propagates with them. It sees its clauses by rising number.
///
/// An engine may follow the entries that it has handled, those before the last batch that counts as handled: `fits`
/// says that what it keeps fits a trail of which so many batches count as handled. Whatever a node does with its trail
/// keeps this. Only `reserve` takes memory.
pub trait Engine: ClauseView + Drop {
    ghost room: { Self → Room };

    ghost fits: { Self → List TrailEntry → ℕ → Type 0 };

    /// An engine without a clause and without room. Takes no memory.
    fn new(alloc: Global) -> Self
        ensures clauses { Self.clauses result ≡ [] }
        ensures fits { (entries : List TrailEntry) (processed : ℕ) → fits result entries processed };

    /// Makes room for the variables up to this one, which a literal can be of, and for so many clauses and literals
    /// more.
    fn reserve(&mut self, variables: u32, clauses: usize, literals: usize) -> Result<(), AllocError>
        requires { variables ≤ greatest_variable }
        ensures room { OnOk result (HasRoom variables clauses literals (room self.new)) }
        ensures more { IsLeft 0 0 (room self.old) (room self.new) }
        ensures clauses { Self.clauses self.new ≡ Self.clauses self.old }
        ensures fits { (entries : List TrailEntry) (processed : ℕ) → fits self.old entries processed
            → fits self.new entries processed };

    /// Adds a clause, whose literals rise by variable, under a number that is not held. Takes no memory.
    fn load(&mut self, id: ClauseId, lits: &[Lit], trail: &Trail)
        requires new { lits_under id (Self.clauses self.old) ≡ None }
        requires form { rises lits.now ≡ true }
        requires room { IsRoomFor lits.now (room self.old) }
        requires fits { fits self.old trail.now.entries trail.now.processed }
        ensures clauses { Self.clauses self.new ≡ with_clause
            (record { id = id; lits = lits.now }) (Self.clauses self.old) }
        ensures room { IsLeft 1 (length lits.now) (room self.old) (room self.new) }
        ensures fits { fits self.new trail.now.entries trail.now.processed };

    /// Adds a clause that was derived, whose literals rise by variable, under a number that is not held. Takes no
    /// memory. Its conditions say what the node has made sure before, so an engine tests none of it again and refuses
    /// nothing.
    fn learn(&mut self, id: ClauseId, lits: &[Lit], trail: &Trail)
        requires new { lits_under id (Self.clauses self.old) ≡ None }
        requires form { rises lits.now ≡ true }
        requires room { IsRoomFor lits.now (room self.old) }
        requires fits { fits self.old trail.now.entries trail.now.processed }
        ensures clauses { Self.clauses self.new ≡ with_clause
            (record { id = id; lits = lits.now }) (Self.clauses self.old) }
        ensures room { IsLeft 1 (length lits.now) (room self.old) (room self.new) }
        ensures fits { fits self.new trail.now.entries trail.now.processed };

    /// Gives up the clauses of these numbers, which it puts in rising order. Takes no memory.
    fn forget(&mut self, ids: &mut [ClauseId])
        ensures clauses { Self.clauses self.new ≡ forgetting ids.old (Self.clauses self.old) }
        ensures room { IsLeft 0 0 (room self.old) (room self.new) }
        ensures fits { (entries : List TrailEntry) (processed : ℕ) → fits self.old entries processed
            → fits self.new entries processed };

    /// Handles the next batch, which then counts as handled. The result is the conflict, None exactly where there is
    /// none. Takes no memory.
    fn propagate_one(&mut self, trail: &mut Trail) -> Option<ClauseId>
        requires left { trail.old.processed ≤ length trail.old.entries }
        requires within { are_within trail.old.room (Self.clauses self.old) ≡ true }
        requires fits { fits self.old trail.old.entries trail.old.processed }
        ensures progress { after_batch trail.old.processed trail.old.entries (Self.clauses self.old)
            ≡ record { trail = trail.new.entries; conflict = result } }
        ensures processed { trail.new.processed ≡ trail.old.processed + 1 }
        ensures trail_room { trail.new.room ≡ trail.old.room }
        ensures clauses { Self.clauses self.new ≡ Self.clauses self.old }
        ensures room { IsLeft 0 0 (room self.old) (room self.new) }
        ensures fits { fits self.new trail.new.entries trail.new.processed };

    ghost fits_push: { (engine : Self) (entries : List TrailEntry) (entry : TrailEntry) (processed : ℕ)
        → processed ≤ length entries + 1 → fits engine entries processed
        → fits engine (entries ++ entry ∷ []) processed };

    ghost fits_cut: { (engine : Self) (entries : List TrailEntry) (processed level : ℕ) → fits engine entries processed
        → fits engine (kept level entries) (min processed (length (kept level entries) + 1)) };

    ghost fits_alike: { (engine : Self) (entries others : List TrailEntry) (processed : ℕ)
        → map (λ e. e.lit) others ≡ map (λ e. e.lit) entries → fits engine entries processed
        → fits engine others processed };

    ghost fits_less: { (engine : Self) (entries : List TrailEntry) (processed less : ℕ) → less ≤ processed
        → fits engine entries processed → fits engine entries less };
}
