//! The pieces of a step, for a search that chooses them itself.

ghost use Rattle.std.specs.Prelude.{◌≡◌, ◌+◌, ◌-◌, ◌≤◌, ◌<◌, ◌++◌, ◌∷◌, [], false, get_or, length, slice_get, Some, None};
ghost use Rattle.mal_base.specs.{Literals.{var_of}, declared.verdict.Verdict.TheVariants.{Satisfiable}};
ghost use Rattle.spec_node.specs.{Value.{has_value, level_of}, Adding.{forgetting}, Sound.{IsSound}};
ghost use Rattle.spec_learn.specs.{Learning.{analysis, derived_id, learned, line_of}, Refuting.{refuted}};
ghost use Rattle.spec_search.specs.Step.{decided};
ghost use Rattle.mal_cdcl.specs.{Sliced.{Keeps, IsShown, MayCount, HasLineRoom, IsLineLess}, Sourced.{analysis_from, line_from}, Uncounted.{uncounted}, Uniting.{united_at, line_at}};

use super::Node;
use crate::source::Source;
use mal_base::{ClauseId, Lit, Profile, TrailEntry, Var, Verdict};
use mal_learn::Scratch;
use mal_trail::{Listed, Trail};

impl<E: Listed> Node<E> {
    /// The trail.
    pub fn trail(&self) -> &Trail
        ensures entries { result.now.entries ≡ self.now.state.trail }
        ensures processed { result.now.processed ≡ self.now.state.processed }
    {
        &self.trail
    }

    /// What holds the clauses.
    pub fn engine(&self) -> &E
        ensures { E.clauses result.now ≡ self.now.state.clauses }
    {
        &self.engine
    }

    /// The conflict that waits, if there is one.
    pub fn conflict(&self) -> Option<ClauseId>
        ensures { result ≡ self.now.state.conflict }
    {
        self.conflict
    }

    /// The profile.
    pub fn profile(&self) -> Profile
        ensures { result ≡ self.now.state.profile }
    {
        self.profile
    }

    /// The assumptions.
    pub fn assumptions(&self) -> &[Lit]
        ensures { result.now ≡ self.now.state.assumptions }
    {
        self.assumptions.as_slice()
    }

    /// The number of the clause that is derived next.
    pub fn next_number(&self) -> ClauseId
        requires { MayCount self.now.state }
        ensures { result ≡ derived_id self.now.state }
    {
        ClauseId::derived(self.serial, self.index)
    }

    /// The phase of a variable: the sign of its literal that is decided.
    pub fn phase(&self, var: Var) -> bool
        requires { var ≤ self.now.state.variables }
        ensures { result ≡ get_or self.now.state.phases (var - 1) false }
    {
        self.phases[var.number() as usize - 1]
    }

    /// Makes a literal true, of a variable without a value, as a decision at a new level.
    pub fn decide_literal(&mut self, lit: Lit)
        requires within { var_of lit ≤ self.old.state.variables }
        requires free { has_value self.old.state.trail (var_of lit) ≡ false }
        requires handled { self.old.state.processed ≤ length self.old.state.trail + 1 }
        ensures state { self.new.state ≡ decided self.old.state lit }
        ensures keeps { Keeps 0 0 self.old self.new }
    {
        let level = self.trail.level() + 1;
        self.trail.push(lit, None, level);
    }

    /// Ends the search: the trail has a model.
    pub fn end_satisfiable(&mut self)
        ensures state { self.new.state ≡ record self.old.state { verdict = Some Satisfiable } }
        ensures keeps { Keeps 0 0 self.old self.new }
    {
        self.verdict = Some(Verdict::Satisfiable);
    }

    /// Gives up the clauses of these numbers, which are put in rising order. The trail stays.
    pub fn forget(&mut self, ids: &mut [ClauseId])
        ensures state { self.new.state ≡ record self.old.state { clauses = forgetting ids.old self.old.state.clauses } }
        ensures keeps { Keeps 0 0 self.old self.new }
    {
        self.engine.forget(ids);
    }

    /// Notes the line that was analysed, and holds its clause, the goal of the verdict: of a conflict at level 0 or a
    /// failed assumption.
    pub fn conclude(&mut self, source: &Source, scratch: &Scratch)
        requires sound { IsSound self.old.state }
        requires kept { IsSound (refuted (analysis_from source.now self.old.state).lits self.old.state) }
        requires shown { IsShown (analysis_from source.now self.old.state) scratch.now }
        requires counts { MayCount self.old.state }
        requires room { HasLineRoom (line_from source.now self.old.state) self.old }
        ensures state { self.new.state ≡ refuted (analysis_from source.now self.old.state).lits self.old.state }
        ensures lines { self.new.lines ≡ self.old.lines ++ line_from source.now self.old.state ∷ [] }
        ensures room { IsLineLess (line_from source.now self.old.state) self.old self.new }
    {
        let number = ClauseId::derived(self.serial, self.index);
        self.lines
            .push_reserved(number, scratch.clause(), scratch.hints());
        self.refute(number, scratch);
    }

    /// Notes the line that was analysed, and learns its clause from a conflict above level 0. The order of the variables
    /// stays, and nothing is counted.
    pub fn learn_unordered(&mut self, id: ClauseId, scratch: &Scratch)
        requires sound { IsSound self.old.state }
        requires conflict { self.old.state.conflict ≡ Some id }
        requires level { 0 < level_of self.old.state.trail }
        requires shown { IsShown (analysis id self.old.state) scratch.now }
        requires counts { MayCount self.old.state }
        requires room { HasLineRoom (line_of id self.old.state) self.old }
        ensures state { self.new.state ≡ uncounted self.old.state (learned id self.old.state) }
        ensures lines { self.new.lines ≡ self.old.lines ++ line_of id self.old.state ∷ [] }
        ensures room { IsLineLess (line_of id self.old.state) self.old self.new }
    {
        let number = ClauseId::derived(self.serial, self.index);
        self.lines
            .push_reserved(number, scratch.clause(), scratch.hints());
        self.teach(id, number, scratch);
    }

    /// Derives the literal of an entry of the trail as a clause of its own, along these hints, and makes that its reason.
    pub fn unite(&mut self, place: usize, entry: TrailEntry, hints: &[ClauseId])
        requires there { slice_get self.old.state.trail place ≡ Some entry }
        requires sound { IsSound self.old.state }
        requires kept { IsSound (united_at place entry self.old.state) }
        requires counts { MayCount self.old.state }
        requires room { HasLineRoom (line_at entry hints.now self.old.state) self.old }
        ensures state { self.new.state ≡ united_at place entry self.old.state }
        ensures lines { self.new.lines ≡ self.old.lines ++ line_at entry hints.now self.old.state ∷ [] }
        ensures room { IsLineLess (line_at entry hints.now self.old.state) self.old self.new }
    {
        let number = ClauseId::derived(self.serial, self.index);
        self.lines.push_reserved(number, &[entry.lit], hints);
        self.engine.learn(number, &[entry.lit], &self.trail);
        self.trail.set_reason(place, number);
        self.order.rewind();
        self.passed = 0;
        self.serial += 1;
    }
}
