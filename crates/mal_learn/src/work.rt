//! An analysis at work.

ghost use Rattle.std.specs.Prelude.{◌≡◌, ◌+◌, ◌-◌, ◌≤◌, ◌<◌, max, All, length, replicate, reverse, take, take_while, false, true};
ghost use Rattle.std.specs.Prelude.{[], ◌∷◌, ◌==◌, slice_index_or, slice_set, OnOk};
ghost use Rattle.mal_base.specs.{Limits.{greatest_variable}, Literals.{var_of}};
ghost use Rattle.mal_learn.specs.{Working.{see, see_all, lits_of, kept, resolved, by_reason, visited, visited_all, here_all}, Tracing.{begun_with, traced, traced_all, traced_from}, Shortening.{covers, is_left_out, by_shorter_reason, shorter_state, shorter_visited_all}, Shown.{IsFitted, IsFinished, HasWalkRoom, AreWithin, ClausesWithin, EntriesWithin, last_of}};

use crate::flags::Flags;
use mal_base::{ClauseId, ClauseView, Lit, TrailEntry, TrailView, Var};
use std::alloc::{AllocError, Global};
use std::marker::Model;

/// What an analysis has marked and found. Contracts see the state and the
/// bound below which there is room for each variable, 0 before there is any.
#[derive(Drop)]
pub struct Work {
    seen: Flags,
    here: Flags,
    left: u64,
    pub lits: Vec<Lit>,
    pub hints: Vec<ClauseId>,
    pub level: u32,
    room: u32,
}

impl Model for Work {
    ghost use Rattle.std.specs.Prelude.{length};
    ghost use Rattle.std.specs.Vec.{vec_capacity};
    ghost use Rattle.mal_learn.specs.Shown.{Work, IsFitted};

    ghost Value = { Work };

    ghost view = { λ w. record {
      state = record { seen = w.seen; here = w.here; left = w.left; lits = w.lits.items; hints = w.hints.items; level = w.level };
      room = w.room;
    } };

    ghost invariant = { λ w. IsFitted w.room (length w.seen) (length w.here) (vec_capacity w.lits)
        (vec_capacity w.hints) };
}

impl Work {
    /// Nothing marked, nothing found, and no room. Takes no memory.
    pub fn new(alloc: Global) -> Work
        ensures { result.room ≡ 0 }
    {
        Work {
            seen: Flags::new(alloc),
            here: Flags::new(alloc),
            left: 0,
            lits: Vec::new(alloc),
            hints: Vec::new(alloc),
            level: 0,
            room: 0,
        }
    }

    /// Makes room for the variables below this bound, each of which a literal can be of. What was found stays.
    pub fn fit(&mut self, bound: u32) -> Result<(), AllocError>
        requires { bound ≤ greatest_variable + 1 }
        ensures room { OnOk result (bound ≤ self.new.room) }
        ensures more { self.old.room ≤ self.new.room }
        ensures most { self.new.room ≤ max self.old.room bound }
        ensures lits { self.new.state.lits ≡ self.old.state.lits }
        ensures hints { self.new.state.hints ≡ self.old.state.hints }
        ensures level { self.new.state.level ≡ self.old.state.level }
    {
        if bound <= self.room {
            return Ok(());
        }
        let count = bound as usize;
        self.seen.fit(count)?;
        self.here.fit(count)?;
        self.lits.reserve(count)?;
        self.hints.reserve(count)?;
        self.room = bound;
        Ok(())
    }

    /// Puts the literals and the hints in order.
    pub fn finish(&mut self)
        ensures { IsFinished self.old self.new }
    {
        self.lits.sort_unstable();
        self.hints.as_mut_slice().reverse();
    }

    /// The last hint.
    pub fn last_hint(&self) -> ClauseId
        requires { 1 ≤ length self.now.state.hints }
        ensures { result ≡ last_of self.now.state.hints }
    {
        self.hints[self.hints.len() - 1]
    }

    /// Whether a variable is seen.
    pub fn has_seen(&self, var: Var) -> bool
        requires { var < self.now.room }
        ensures { result ≡ slice_index_or self.now.state.seen var false }
    {
        self.seen.has(var.number() as usize)
    }

    /// Sees a variable.
    fn see(&mut self, var: Var)
        requires { var < self.old.room }
        ensures state { self.new.state ≡ see var self.old.state }
        ensures room { self.new.room ≡ self.old.room }
    {
        let place = var.number() as usize;
        if self.seen.has(place) {
            return;
        }
        self.seen.insert(place);
        if self.here.has(place) {
            self.left = self.left.saturating_add(1);
        }
    }

    /// Sees the variables of literals.
    fn see_all(&mut self, lits: &[Lit])
        requires { AreWithin self.old.room lits.now }
        ensures state { self.new.state ≡ see_all lits.now self.old.state }
        ensures room { self.new.room ≡ self.old.room }
    {
        for lit in lits {
            self.see(lit.var());
        }
    }

    /// Sees the variables of a clause, if it is held.
    fn see_clause<C: ClauseView>(&mut self, clauses: &C, id: ClauseId)
        requires { ClausesWithin self.old.room (C.clauses clauses.now) }
        ensures state { self.new.state ≡ see_all (lits_of (C.clauses clauses.now) id) self.old.state }
        ensures room { self.new.room ≡ self.old.room }
    {
        match clauses.get(id) {
            None => {}
            Some(lits) => self.see_all(lits),
        }
    }

    /// Keeps an entry's negation in the clause.
    fn keep(&mut self, entry: TrailEntry, level: u32)
        requires { length self.old.state.lits + 1 < self.old.room }
        ensures state { self.new.state ≡ kept level entry self.old.state }
        ensures room { self.new.room ≡ self.old.room }
    {
        self.lits.push_reserved(entry.lit.negate());
        let own = if entry.level == level { 0 } else { entry.level };
        self.level = own.max(self.level);
    }

    /// Resolves with a reason.
    fn resolve<C: ClauseView>(&mut self, clauses: &C, reason: ClauseId)
        requires within { ClausesWithin self.old.room (C.clauses clauses.now) }
        requires room { length self.old.state.hints < self.old.room }
        ensures state { self.new.state ≡ resolved (C.clauses clauses.now) reason self.old.state }
        ensures room { self.new.room ≡ self.old.room }
    {
        self.hints.push_reserved(reason);
        self.see_clause(clauses, reason);
    }

    /// Resolves a seen entry away or keeps it.
    fn handle<C: ClauseView>(&mut self, clauses: &C, entry: TrailEntry, level: u32)
        requires within { ClausesWithin self.old.room (C.clauses clauses.now) }
        requires lit_room { length self.old.state.lits + 1 < self.old.room }
        requires hint_room { length self.old.state.hints < self.old.room }
        ensures state { self.new.state ≡ by_reason (C.clauses clauses.now) level entry self.old.state entry.reason }
        ensures room { self.new.room ≡ self.old.room }
    {
        match entry.reason {
            None => self.keep(entry, level),
            Some(reason) => {
                if entry.level == 0 || (entry.level == level && 0 < self.left) {
                    self.resolve(clauses, reason);
                } else {
                    self.keep(entry, level);
                }
            }
        }
    }

    /// Passes an entry.
    pub fn visit<C: ClauseView>(&mut self, clauses: &C, entry: TrailEntry, level: u32)
        requires within { ClausesWithin self.old.room (C.clauses clauses.now) }
        requires var { var_of entry.lit < self.old.room }
        requires lit_room { length self.old.state.lits + 1 < self.old.room }
        requires hint_room { length self.old.state.hints < self.old.room }
        ensures state { self.new.state ≡ visited (C.clauses clauses.now) level entry self.old.state }
        ensures room { self.new.room ≡ self.old.room }
    {
        let place = entry.lit.var().number() as usize;
        let seen = self.seen.has(place);
        self.here.remove(place);
        if !seen {
            return;
        }
        if entry.level == level {
            self.left = self.left.saturating_sub(1);
        }
        self.handle(clauses, entry, level);
    }

    /// Passes the entries of a trail, the latest first.
    pub fn walk<T: TrailView, C: ClauseView>(&mut self, trail: &T, clauses: &C, level: u32)
        requires room { HasWalkRoom (T.entries trail.now) self.old }
        requires within { ClausesWithin self.old.room (C.clauses clauses.now) }
        ensures state { self.new.state
            ≡ visited_all (C.clauses clauses.now) level (reverse (T.entries trail.now)) self.old.state }
        ensures room { self.new.room ≡ self.old.room }
    {
        let count = trail.len();
        for made in 0..count {
            let entry = trail.at(count - 1 - made);
            self.visit(clauses, entry, level);
        }
    }

    /// Passes the entries of this level with which a trail ends, the latest first.
    pub fn walk_level<T: TrailView, C: ClauseView>(&mut self, trail: &T, clauses: &C, level: u32)
        requires room { HasWalkRoom (T.entries trail.now) self.old }
        requires within { ClausesWithin self.old.room (C.clauses clauses.now) }
        ensures state { self.new.state
            ≡ visited_all (C.clauses clauses.now) level
            (take_while (λ e. e.level == level) (reverse (T.entries trail.now))) self.old.state }
        ensures room { self.new.room ≡ self.old.room }
    {
        let count = trail.len();
        for made in 0..count {
            let entry = trail.at(count - 1 - made);
            if entry.level != level {
                return;
            }
            self.visit(clauses, entry, level);
        }
    }

    /// Whether each variable of a clause is seen or one of these.
    fn covers<C: ClauseView>(&self, clauses: &C, base: &Flags, id: ClauseId) -> bool
        requires within { ClausesWithin self.now.room (C.clauses clauses.now) }
        requires fits { self.now.room ≤ length base.now }
        ensures { result ≡ covers self.now.state.seen base.now (lits_of (C.clauses clauses.now) id) }
    {
        match clauses.get(id) {
            None => true,
            Some(lits) => are_marked(&self.seen, base, lits),
        }
    }

    /// Resolves a seen entry away, or keeps it where the shorter clause has it.
    fn handle_shorter<C: ClauseView>(
        &mut self,
        clauses: &C,
        base: &Flags,
        entry: TrailEntry,
        level: u32,
    )
        requires within { ClausesWithin self.old.room (C.clauses clauses.now) }
        requires fits { self.old.room ≤ length base.now }
        requires lit_room { length self.old.state.lits + 1 < self.old.room }
        requires hint_room { length self.old.state.hints < self.old.room }
        ensures state { self.new.state
            ≡ by_shorter_reason (C.clauses clauses.now) level base.now entry self.old.state entry.reason }
        ensures room { self.new.room ≡ self.old.room }
    {
        match entry.reason {
            None => self.keep(entry, level),
            Some(reason) => {
                if self.is_left_out(clauses, base, entry.level, level, reason) {
                    self.resolve(clauses, reason);
                } else {
                    self.keep(entry, level);
                }
            }
        }
    }

    /// Whether the shorter clause does without a seen entry of this level and reason.
    fn is_left_out<C: ClauseView>(
        &self,
        clauses: &C,
        base: &Flags,
        own: u32,
        level: u32,
        reason: ClauseId,
    ) -> bool
        requires within { ClausesWithin self.now.room (C.clauses clauses.now) }
        requires fits { self.now.room ≤ length base.now }
        ensures { result ≡ is_left_out (C.clauses clauses.now) level base.now own self.now.state reason }
    {
        if own == 0 {
            return true;
        }
        if own == level {
            return 0 < self.left;
        }
        self.covers(clauses, base, reason)
    }

    /// Passes an entry.
    fn visit_shorter<C: ClauseView>(
        &mut self,
        clauses: &C,
        base: &mut Flags,
        entry: TrailEntry,
        level: u32,
    )
        requires within { ClausesWithin self.old.room (C.clauses clauses.now) }
        requires fits { self.old.room ≤ length base.old }
        requires var { var_of entry.lit < self.old.room }
        requires lit_room { length self.old.state.lits + 1 < self.old.room }
        requires hint_room { length self.old.state.hints < self.old.room }
        ensures state { self.new.state
            ≡ shorter_state (C.clauses clauses.now) level entry
            (slice_set base.old (var_of entry.lit) false) self.old.state }
        ensures base { base.new ≡ slice_set base.old (var_of entry.lit) false }
        ensures room { self.new.room ≡ self.old.room }
    {
        let place = entry.lit.var().number() as usize;
        let seen = self.seen.has(place);
        self.here.remove(place);
        base.remove(place);
        if !seen {
            return;
        }
        if entry.level == level {
            self.left = self.left.saturating_sub(1);
        }
        self.handle_shorter(clauses, base, entry, level);
    }

    /// Passes the entries of a trail, the latest first, for the shorter clause.
    pub fn walk_shorter<T: TrailView, C: ClauseView>(
        &mut self,
        trail: &T,
        clauses: &C,
        base: &mut Flags,
        level: u32,
    )
        requires room { HasWalkRoom (T.entries trail.now) self.old }
        requires within { ClausesWithin self.old.room (C.clauses clauses.now) }
        requires fits { self.old.room ≤ length base.old }
        ensures walk { record { state = self.new.state; base = base.new }
            ≡ shorter_visited_all (C.clauses clauses.now) level (reverse (T.entries trail.now))
            (record { state = self.old.state; base = base.old }) }
        ensures len { length base.new ≡ length base.old }
        ensures room { self.new.room ≡ self.old.room }
    {
        let count = trail.len();
        for made in 0..count {
            let entry = trail.at(count - 1 - made);
            self.visit_shorter(clauses, base, entry, level);
        }
    }

    /// Forgets all.
    fn forget(&mut self)
        ensures state { self.new.state
            ≡ (record {
              seen = replicate (length self.old.state.seen) false;
              here = replicate
                  (length self.old.state.here) false;
              left = 0;
              lits = [];
              hints = [];
              level = 0;
            }) }
        ensures fits { IsFitted
            self.old.room (length self.old.state.seen) (length self.old.state.here)
            (greatest_variable + 1) (greatest_variable + 1) }
        ensures room { self.new.room ≡ self.old.room }
    {
        self.seen.clear();
        self.here.clear();
        self.left = 0;
        self.lits.clear();
        self.hints.clear();
        self.level = 0;
    }

    /// Forgets all, marks the entries of the current level, and sees the variables of the conflict, which is the last
    /// hint.
    pub fn begin<T: TrailView, C: ClauseView>(
        &mut self,
        trail: &T,
        clauses: &C,
        conflict: ClauseId,
        level: u32,
    )
        requires some { 1 ≤ self.old.room }
        requires entries { EntriesWithin self.old.room (T.entries trail.now) }
        requires within { ClausesWithin self.old.room (C.clauses clauses.now) }
        ensures state { self.new.state ≡ see_all (lits_of (C.clauses clauses.now) conflict)
            (record {
              seen = replicate (length self.old.state.seen) false;
              here = here_all level (T.entries trail.now)
                  (replicate (length self.old.state.here) false);
              left = 0;
              lits = [];
              hints = conflict
                  ∷ [];
              level = 0;
            }) }
        ensures fits { IsFitted
            self.old.room (length self.old.state.seen) (length self.old.state.here)
            (greatest_variable + 1) (greatest_variable + 1) }
        ensures room { self.new.room ≡ self.old.room }
    {
        self.forget();
        self.hints.push_reserved(conflict);
        mark_level(&mut self.here, trail, level);
        self.see_clause(clauses, conflict);
    }

    /// Forgets all, and begins a clause with a literal.
    pub fn begin_with(&mut self, literal: Lit)
        requires { 2 ≤ self.old.room }
        ensures state { self.new.state ≡ begun_with (length self.old.state.seen) (length self.old.state.here) literal }
        ensures lits { self.new.state.lits ≡ literal ∷ [] }
        ensures hints { self.new.state.hints ≡ [] }
        ensures fits { IsFitted
            self.old.room (length self.old.state.seen) (length self.old.state.here)
            (greatest_variable + 1) (greatest_variable + 1) }
        ensures room { self.new.room ≡ self.old.room }
    {
        self.forget();
        self.lits.push_reserved(literal);
    }

    /// Keeps a decision's negation in the clause, and resolves any other entry away, if it is seen.
    fn trace<C: ClauseView>(&mut self, clauses: &C, entry: TrailEntry)
        requires within { ClausesWithin self.old.room (C.clauses clauses.now) }
        requires var { var_of entry.lit < self.old.room }
        requires lit_room { length self.old.state.lits + 1 < self.old.room }
        requires hint_room { length self.old.state.hints < self.old.room }
        ensures state { self.new.state ≡ traced (C.clauses clauses.now) entry self.old.state }
        ensures room { self.new.room ≡ self.old.room }
    {
        if !self.seen.has(entry.lit.var().number() as usize) {
            return;
        }
        match entry.reason {
            None => self.lits.push_reserved(entry.lit.negate()),
            Some(reason) => self.resolve(clauses, reason),
        }
    }

    /// Traces the first entries of a trail, as many as this, the latest first.
    fn trace_all<T: TrailView, C: ClauseView>(&mut self, trail: &T, clauses: &C, count: usize)
        requires entries { EntriesWithin self.old.room (T.entries trail.now) }
        requires within { ClausesWithin self.old.room (C.clauses clauses.now) }
        requires count { count ≤ length (T.entries trail.now) }
        requires lit_room { count + length self.old.state.lits < self.old.room }
        requires hint_room { count + length self.old.state.hints ≤ self.old.room }
        ensures state { self.new.state
            ≡ traced_all (C.clauses clauses.now) (reverse (take count (T.entries trail.now))) self.old.state }
        ensures room { self.new.room ≡ self.old.room }
    {
        for made in 0..count {
            let entry = trail.at(count - 1 - made);
            self.trace(clauses, entry);
        }
    }

    /// Resolves with the reason of the last of the first entries of a trail, as many as this, and traces those before
    /// it.
    pub fn trace_from<T: TrailView, C: ClauseView>(&mut self, trail: &T, clauses: &C, count: usize)
        requires entries { EntriesWithin self.old.room (T.entries trail.now) }
        requires within { ClausesWithin self.old.room (C.clauses clauses.now) }
        requires count { count ≤ length (T.entries trail.now) }
        requires lit_room { count + length self.old.state.lits ≤ self.old.room }
        requires hint_room { count + length self.old.state.hints ≤ self.old.room }
        ensures state { self.new.state
            ≡ traced_from (C.clauses clauses.now) (reverse (take count (T.entries trail.now))) self.old.state }
        ensures room { self.new.room ≡ self.old.room }
    {
        if count == 0 {
            return;
        }
        match trail.at(count - 1).reason {
            None => {}
            Some(reason) => {
                self.resolve(clauses, reason);
                self.trace_all(trail, clauses, count - 1);
            }
        }
    }
}

/// Whether the variable of each literal has one of two flags.
fn are_marked(seen: &Flags, base: &Flags, lits: &[Lit]) -> bool
    requires seen { AreWithin (length seen.now) lits.now }
    requires base { AreWithin (length base.now) lits.now }
    ensures { result ≡ covers seen.now base.now lits.now }
{
    for lit in lits {
        let place = lit.var().number() as usize;
        if !seen.has(place) && !base.has(place) {
            return false;
        }
    }
    true
}

/// Marks the entries of a level.
pub fn mark_level<T: TrailView>(here: &mut Flags, trail: &T, level: u32)
    requires { All (λ e. var_of e.lit < length here.old) (T.entries trail.now) }
    ensures marks { here.new ≡ here_all level (T.entries trail.now) here.old }
    ensures len { length here.new ≡ length here.old }
{
    for place in 0..trail.len() {
        let entry = trail.at(place);
        if entry.level == level {
            here.insert(entry.lit.var().number() as usize);
        }
    }
}
