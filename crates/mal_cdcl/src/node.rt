//! A solver node.

ghost use Rattle.std.specs.Prelude.{◌≡◌, ◌≢◌, true, ◌+◌, ◌-◌, ◌^◌, ◌<◌, ◌≤◌, length, Some, None, [], ◌∷◌, ◌++◌, OnOk, OnErr, IfOk, MatchOption, vec_capacity};
ghost use Rattle.mal_base.specs.{Limits.{limits}, Profiles.{policy}, Trails.{value_on}};
ghost use Rattle.mal_base.specs.declared.profile.Reduction.TheVariants.{Never};
ghost use Rattle.spec_node.specs.{State.{fresh, fresh_with}, Value.{next_assumption, first_free, level_of}, Batch.{propagated}, Cut.{cut}, Load.{loaded}, Laws.{AreNewNumbers}, Model.{model_of}, Sound.{IsSound}};
ghost use Rattle.mal_cdcl.specs.{ImportSizes.{lits_in, import_clauses}, Importing.{AreNewTo, lent, MayImportAll, all_imported, with_pick}, Ready.{posted, readied, greatest, clauses_in, AreNew, HasRoomFor, IsSpared}, Sliced.{HasRunRoom, HasSliceRoom, HasStepRoom, HasIdRoom, HasLowCounts, MayCount, Keeps, IsShown, IsEnded, IsStepped, IsSearched, IsFailing, HasClauseRoom, HasLineRoom, IsLineLess}, Sourced.{IsSource, analysis_from, line_from}, Uncounted.{uncounted}};
ghost use Rattle.mal_trail.specs.Rooms.{HasRoom};
ghost use Rattle.spec_learn.specs.{Learning.{analysis, derived_id, learned}, Refuting.{refuted}};
ghost use Rattle.spec_search.specs.{Step.{step, restarting, branching, case_of, after_case}, Dropping.{is_dropping_due, dropped}, Step.Case.{Decides, Restarts}, Slice.{slice, numbers_of, most_numbers}};
ghost use Rattle.mal_learn.specs.Shown.{HasLeft};
ghost use Rattle.mal_freeze.specs.Imaged.{IsImage};

mod pieces;

use crate::import_filter::{self, NewClauses};
use crate::needs::{self, Needs, SLICE_STEPS, most_numbers};
use crate::source::Source;
use crate::{assuming, copies, learning, node_load, restart};
use mal_base::{ClauseId, Lines, Lit, NumberedClause, Profile, Reduction, Var, Verdict};
use mal_buffer::Buffer;
use mal_freeze::{Image, Parts};
use mal_learn::Scratch;
use mal_order::Order;
use mal_revision::Revision;
use mal_trail::{Engine, Listed, Trail};
use std::alloc::{AllocError, Global};
use std::marker::Model;
use std::mem;

/// What each count of a search stays below before a slice.
const MOST_COUNTED: u32 = 1 << 31;

/// What the number of derived clauses stays below before a slice.
const MOST_DERIVED: u64 = 1 << 56;

/// A solver node over an engine of unit propagation: what it holds, how far its search has come, and what its last
/// slice derived. The first assumptions that were found true are passed until a cut. Contracts see the record of its
/// state, what it has room for, and the lines of that slice.
#[derive(Drop)]
pub struct Node<E: Engine> {
    index: u32,
    profile: Profile,
    variables: u32,
    serial: u64,
    conflicts_since_restart: u32,
    restart_number: u32,
    conflicts_since_dropping: u32,
    conflict: Option<ClauseId>,
    verdict: Option<Verdict>,
    assumptions: Vec<Lit>,
    order: Order,
    phases: Vec<bool>,
    trail: Trail,
    engine: E,
    lines: Lines,
    passed: usize,
}

impl<E: Engine> Model for Node<E> {
    ghost use Rattle.std.specs.Prelude.{◌-◌};
    ghost use Rattle.std.specs.Vec.{vec_len, vec_capacity};
    ghost use Rattle.mal_cdcl.specs.Within.{NodeWithRoom, IsNode, IsPast};

    ghost Value = { NodeWithRoom };

    ghost view = { λ n. record {
      state = record {
        index = n.index;
        profile = n.profile;
        variables = n.variables;
        serial = n.serial;
        conflicts_since_restart = n.conflicts_since_restart;
        restart_number = n.restart_number;
        conflicts_since_dropping = n.conflicts_since_dropping;
        processed = n.trail.processed;
        conflict = n.conflict;
        verdict = n.verdict;
        assumptions = n.assumptions.items;
        order = n.order.list;
        phases = n.phases.items;
        trail = n.trail.entries;
        clauses = E.clauses n.engine;
      };
      spare = record {
        trail = n.trail.room;
        order = n.order.room;
        phases = vec_capacity n.phases - vec_len n.phases;
        assumptions = vec_capacity n.assumptions;
        engine = E.room n.engine;
        lines = n.lines.room;
        line_literals = n.lines.lit_room;
        hints = n.lines.hint_room;
      };
      lines = n.lines.lines;
    } };

    ghost invariant = { λ n. (IsNode n.index n.variables n.trail.room n.assumptions.items n.order n.phases.items
        (E.clauses n.engine))
        × (E.fits n.engine n.trail.entries n.trail.processed)
        × (IsPast n.trail.entries n.order n.assumptions.items n.passed) };
}

impl<E: Listed> Node<E> {
    /// The node of this index (0 to 63) and of the first profile at its first start. Takes no memory.
    pub fn fresh(alloc: Global, index: u32) -> Node<E>
        requires { index ≤ 63 }
        ensures { result.state ≡ fresh index }
    {
        Node::fresh_with(alloc, index, Profile::Plain)
    }

    /// The node of this index (0 to 63) and of this profile at its first start. Takes no memory.
    pub fn fresh_with(alloc: Global, index: u32, profile: Profile) -> Node<E>
        requires { index ≤ 63 }
        ensures { result.state ≡ fresh_with index profile }
    {
        Node {
            index,
            profile,
            variables: 0,
            serial: 0,
            conflicts_since_restart: 0,
            restart_number: 1,
            conflicts_since_dropping: 0,
            conflict: None,
            verdict: None,
            assumptions: Vec::new(alloc),
            order: Order::new(alloc, index),
            phases: Vec::new(alloc),
            trail: Trail::new(alloc),
            engine: E::new(alloc),
            lines: Lines::new(alloc),
            passed: 0,
        }
    }

    /// Runs a slice: 1,000 steps, or those until a verdict stands or the next line would not fit. Takes no memory.
    pub fn run(&mut self, scratch: &mut Scratch)
        requires sound { IsSound self.old.state }
        requires stocked { HasSliceRoom self.old }
        requires fitted { self.old.state.variables < scratch.old.room }
        requires ids { HasIdRoom 1000 self.old.state scratch.old }
        requires counts { HasLowCounts self.old.state }
        ensures node { self.new.state ≡ (slice self.old.state).node }
        ensures lines { self.new.lines ≡ (slice self.old.state).lines }
        ensures room { scratch.new.room ≡ scratch.old.room }
        ensures id_room { scratch.new.ids ≡ scratch.old.ids }
    {
        let mut used = 0;
        for _made in 0..SLICE_STEPS {
            match self.step(used, scratch) {
                None => return,
                Some(now) => used = now,
            }
        }
    }

    /// Gives the lines that the last slice derived away. Takes no memory.
    pub fn take_lines(&mut self) -> Lines
        ensures lines { result.lines ≡ self.old.lines }
        ensures none { self.new.lines ≡ [] }
        ensures state { self.new.state ≡ self.old.state }
    {
        let none = Lines::new(*self.phases.allocator());
        mem::replace(&mut self.lines, none)
    }

    /// Whether its counts are low enough for a slice: each below 2^31, and fewer than 2^56 clauses derived.
    pub fn may_run(&self) -> bool
        ensures low { result ≡ true → HasLowCounts self.now.state }
        ensures whole { HasLowCounts self.now.state → result ≡ true }
    {
        self.conflicts_since_restart < MOST_COUNTED
            && self.restart_number < MOST_COUNTED
            && self.conflicts_since_dropping < MOST_COUNTED
            && self.serial < MOST_DERIVED
    }

    /// The verdict, if the search has ended.
    pub fn verdict(&self) -> Option<Verdict>
        ensures { result ≡ self.now.state.verdict }
    {
        self.verdict
    }

    /// The value of a variable. None exactly where it is not on the trail.
    pub fn value(&self, var: Var) -> Option<bool>
        ensures { result ≡ value_on self.now.state.trail var }
    {
        self.trail.value(var)
    }

    /// The number of variables.
    pub fn variables(&self) -> u32
        ensures { result ≡ self.now.state.variables }
    {
        self.variables
    }

    /// The node's index, from 0 to 63.
    pub fn index(&self) -> u32
        ensures value { result ≡ self.now.state.index }
        ensures bound { result ≤ 63 }
    {
        self.index
    }

    /// Writes the truth values of the variables, in rising order, into an empty list with room for them; a variable
    /// without a value is false. Takes no memory.
    pub fn model(&self, values: &mut Vec<bool>)
        requires empty { values.old.items ≡ [] }
        requires room { self.now.state.variables ≤ vec_capacity values.old }
        ensures items { values.new.items ≡ model_of self.now.state }
        ensures len { length values.new.items ≤ limits.variables }
    {
        self.trail.truth_values(self.variables, values);
    }

    /// The node of this image. It goes on as the node of which this is the image.
    pub fn of_image(alloc: Global, image: &Image) -> Result<Node<E>, AllocError>
        ensures { IfOk result (λ n. n.state ≡ image.now) }
    {
        let parts = image.parts();
        let trail = image.trail()?;
        let engine = copies::engine_of(alloc, parts.variables, parts.clauses.as_slice(), &trail)?;
        Ok(Node {
            index: parts.index,
            profile: parts.profile,
            variables: parts.variables,
            serial: parts.serial,
            conflicts_since_restart: parts.conflicts_since_restart,
            restart_number: parts.restart_number,
            conflicts_since_dropping: parts.conflicts_since_dropping,
            conflict: parts.conflict,
            verdict: parts.verdict,
            assumptions: Vec::from_slice(alloc, parts.assumptions.as_slice())?,
            order: Order::of_list(alloc, parts.index, parts.order.as_slice())?,
            phases: Vec::from_slice(alloc, parts.phases.as_slice())?,
            trail,
            engine,
            lines: Lines::new(alloc),
            passed: 0,
        })
    }

    /// Makes room for these loads, the clauses that are taken and so many steps of a slice after them, in a scratch too,
    /// and takes the lines away, in exchange for the scratch's spare lines.
    fn make_room(
        &mut self,
        loads: &[(&Revision, u32)],
        picks: &[NewClauses],
        steps: u32,
        scratch: &mut Scratch,
    ) -> Result<(), AllocError>
        ensures room { OnOk result (HasRoomFor steps (posted loads.now) picks.now self.new) }
        ensures fitted { OnOk result (greatest (posted loads.now) self.old.state.variables < scratch.new.room) }
        ensures ids { OnOk result
            ((policy self.old.state.profile).reduction ≢ Never
            → length self.old.state.clauses + (clauses_in (posted loads.now) + import_clauses picks.now + steps)
            ≤ scratch.new.ids) }
        ensures more { scratch.old.room ≤ scratch.new.room }
        ensures more_ids { scratch.old.ids ≤ scratch.new.ids }
        ensures state { self.new.state ≡ self.old.state }
        ensures kept { OnErr result (self.new.lines ≡ self.old.lines) }
    {
        let needs = needs::needs_in_all(loads, picks, steps, self.variables)?;
        self.fit(needs, scratch)?;
        needs::reserve(
            &mut self.trail,
            &mut self.order,
            &mut self.phases,
            &mut self.assumptions,
            &mut self.engine,
            needs,
            needs.variables - self.variables,
        )?;
        let numbers = most_numbers(needs.variables);
        scratch.swap_spare(&mut self.lines, steps as usize, numbers, numbers)
    }

    /// Makes room in a scratch for these variables, and where the profile reduces for the numbers of the clauses
    /// held and of as many more as are needed.
    fn fit(&self, needs: Needs, scratch: &mut Scratch) -> Result<(), AllocError>
        requires { needs.variables ≤ limits.variables }
        ensures room { OnOk result (needs.variables < scratch.new.room) }
        ensures ids { OnOk result
            ((policy self.now.state.profile).reduction ≢ Never
            → length self.now.state.clauses + needs.clauses ≤ scratch.new.ids) }
        ensures more { scratch.old.room ≤ scratch.new.room }
        ensures more_ids { scratch.old.ids ≤ scratch.new.ids }
    {
        scratch.fit(needs.variables)?;
        match self.profile.policy().reduction {
            Reduction::Never => Ok(()),
            Reduction::After { .. } => {
                let ids = needs::added(self.engine.count(), needs.clauses)?;
                scratch.fit_ids(ids)
            }
        }
    }

    /// Loads a revision, whose first clause has this number, where there is room for it. Takes no memory.
    fn load_reserved(&mut self, revision: &Revision, first: u32)
        requires new { AreNewNumbers revision.now first self.old.state }
        requires room { HasRoomFor 0 ((revision.now, first) ∷ []) [] self.old }
        ensures state { self.new.state ≡ loaded revision.now first self.old.state }
        ensures spare { IsSpared revision.now self.old self.new }
    {
        let variables = revision.variables();
        let added = variables.saturating_sub(self.variables);
        self.cut(0);
        self.trail.set_processed(0);
        self.order.rewind();
        self.order.append_reserved(added);
        node_load::push_phases(&mut self.phases, self.index % 2 == 1, added);
        node_load::replace(&mut self.assumptions, revision.assumptions());
        self.passed = 0;
        node_load::add_clauses(&mut self.engine, &self.trail, first, revision.clauses());
        self.variables = self.variables.max(variables);
        self.conflict = None;
        self.verdict = None;
    }

    /// Imports what was taken of a list, where there is room for it: where the profile skips empty imports, a list of
    /// which nothing was taken changes nothing. Takes no memory.
    fn take_pick(&mut self, exported: &[NumberedClause])
        requires new { AreNewTo self.old.state.clauses self.old.state.variables exported.now }
        requires room { HasRoom self.old.state.variables (length exported.now) (lits_in exported.now) self.old.spare.engine }
        ensures state { self.new.state ≡ with_pick exported.now self.old.state }
        ensures keeps { Keeps (length exported.now) (lits_in exported.now) self.old self.new }
    {
        if node_load::is_left_off(self.profile, exported) {
            return;
        }
        self.cut(0);
        self.trail.set_processed(0);
        node_load::add_imported(&mut self.engine, &self.trail, exported);
        self.serial = node_load::serial_above(self.serial, exported);
        self.conflict = None;
    }

    /// Goes back to a level. The sign of each literal that leaves the trail becomes its variable's phase.
    pub fn cut(&mut self, level: u32)
        ensures state { self.new.state ≡ cut level self.old.state }
        ensures spare { self.new.spare ≡ self.old.spare }
        ensures lines { self.new.lines ≡ self.old.lines }
    {
        node_load::save(self.phases.as_mut_slice(), self.trail.above(level));
        self.order.rewind();
        self.passed = 0;
        self.trail.back_to(level);
    }

    /// Makes a step of a slice in which so many literals and hints were derived, and tells how many were after it. None
    /// where the slice is over.
    fn step(&mut self, used: usize, scratch: &mut Scratch) -> Option<usize>
        requires sound { IsSound self.old.state }
        requires room { HasStepRoom 1 used self.old }
        requires fitted { self.old.state.variables < scratch.old.room }
        requires ids { HasIdRoom 0 self.old.state scratch.old }
        requires counts { MayCount self.old.state }
        ensures step { MatchOption result (IsEnded used self.old self.new)
            (λ now. IsStepped used self.old now self.new) }
        ensures room { scratch.new.room ≡ scratch.old.room }
        ensures id_room { scratch.new.ids ≡ scratch.old.ids }
    {
        if self.verdict.is_some() {
            return None;
        }
        match self.conflict {
            None => self.go_on(used, scratch),
            Some(id) => self.derive(&Source::Conflict(id), used, scratch),
        }
    }

    /// Makes a step where no conflict waits and no verdict stands, in a slice in which so many literals and hints were
    /// derived, and tells how many were after it. None where the slice is over.
    fn go_on(&mut self, used: usize, scratch: &mut Scratch) -> Option<usize>
        requires sound { IsSound self.old.state }
        requires goes { self.old.state.verdict ≡ None }
        requires calm { self.old.state.conflict ≡ None }
        requires room { HasStepRoom 1 used self.old }
        requires fitted { self.old.state.variables < scratch.old.room }
        requires ids { HasIdRoom 0 self.old.state scratch.old }
        requires counts { MayCount self.old.state }
        ensures step { MatchOption result (IsEnded used self.old self.new)
            (λ now. IsStepped used self.old now self.new) }
        ensures room { scratch.new.room ≡ scratch.old.room }
        ensures id_room { scratch.new.ids ≡ scratch.old.ids }
    {
        match self.search(scratch) {
            None => Some(used),
            Some(assumption) => self.derive(&Source::Failed(assumption), used, scratch),
        }
    }

    /// Makes a step where no conflict waits, unless an assumption has failed: then tells which one, and the node stays.
    fn search(&mut self, scratch: &mut Scratch) -> Option<Lit>
        requires calm { self.old.state.conflict ≡ None }
        requires counts { MayCount self.old.state }
        requires ids { HasIdRoom 0 self.old.state scratch.old }
        ensures searched { MatchOption result (IsSearched (case_of self.old.state) self.old self.new)
            (λ a. IsFailing (case_of self.old.state) a self.old self.new) }
        ensures room { scratch.new.room ≡ scratch.old.room }
        ensures id_room { scratch.new.ids ≡ scratch.old.ids }
    {
        if self.trail.processed() as usize <= self.trail.len() {
            self.propagate();
            return None;
        }
        if self.is_dropping_due() {
            self.drop_longer_half(scratch);
            return None;
        }
        self.restart_or_branch()
    }

    /// Whether a dropping is due, as it never is under a profile that reduces nothing.
    fn is_dropping_due(&self) -> bool
        ensures value { result ≡ is_dropping_due self.now.state }
        ensures reduces { result ≡ true → (policy self.now.state.profile).reduction ≢ Never }
    {
        let reduction = self.profile.policy().reduction;
        reduction.is_due(self.conflicts_since_dropping)
    }

    /// Restarts where that is due, else branches.
    fn restart_or_branch(&mut self) -> Option<Lit>
        requires counts { MayCount self.old.state }
        requires handled { self.old.state.processed ≤ length self.old.state.trail + 1 }
        ensures { MatchOption result (IsSearched (restarting self.old.state) self.old self.new)
            (λ a. IsFailing (restarting self.old.state) a self.old self.new) }
    {
        if restart::is_due(self.conflicts_since_restart, self.restart_number) {
            self.restart();
            return None;
        }
        self.branch()
    }

    /// Handles the next batch.
    pub fn propagate(&mut self)
        requires { self.old.state.processed ≤ length self.old.state.trail }
        ensures state { self.new.state ≡ propagated self.old.state }
        ensures keeps { Keeps 0 0 self.old self.new }
    {
        self.conflict = self.engine.propagate_one(&mut self.trail);
    }

    /// Goes back to level 0, and gives up the longer half of the derived clauses that may go.
    fn drop_longer_half(&mut self, scratch: &mut Scratch)
        requires { length self.old.state.clauses ≤ scratch.old.ids }
        ensures state { self.new.state ≡ dropped self.old.state }
        ensures keeps { Keeps 0 0 self.old self.new }
        ensures room { scratch.new.room ≡ scratch.old.room }
        ensures id_room { scratch.new.ids ≡ scratch.old.ids }
    {
        self.cut(0);
        mal_learn::choose_longer_half(&self.trail, &self.engine, scratch);
        self.engine.forget(scratch.chosen_mut());
        self.conflicts_since_dropping = 0;
    }

    /// Goes back to level 0, and counts the conflicts anew.
    fn restart(&mut self)
        requires { self.old.state.restart_number < 2 ^ 32 - 1 }
        ensures state { self.new.state ≡ after_case Restarts self.old.state }
        ensures keeps { Keeps 0 0 self.old self.new }
    {
        self.cut(0);
        self.conflicts_since_restart = 0;
        self.restart_number += 1;
    }

    /// Assumes the first assumption that is not true, unless it is false: then tells which one it is. Where all are
    /// true, decides or ends.
    fn branch(&mut self) -> Option<Lit>
        requires { self.old.state.processed ≤ length self.old.state.trail + 1 }
        ensures { MatchOption result (IsSearched (branching self.old.state) self.old self.new)
            (λ a. IsFailing (branching self.old.state) a self.old self.new) }
    {
        match self.next_assumption() {
            None => {
                self.decide();
                None
            }
            Some(lit) => self.assume(lit),
        }
    }

    /// The first assumption that is not true. Those in front of it are passed.
    pub fn next_assumption(&mut self) -> Option<Lit>
        ensures value { result ≡ next_assumption self.old.state.trail self.old.state.assumptions }
        ensures same { self.new ≡ self.old }
    {
        assuming::next_assumption(&self.trail, self.assumptions.as_slice(), &mut self.passed)
    }

    /// Assumes this assumption, the first that is not true, at a new level, unless it is false: then gives it back.
    fn assume(&mut self, lit: Lit) -> Option<Lit>
        requires found { next_assumption self.old.state.trail self.old.state.assumptions ≡ Some lit }
        requires handled { self.old.state.processed ≤ length self.old.state.trail + 1 }
        ensures { MatchOption result (IsSearched (branching self.old.state) self.old self.new)
            (λ a. IsFailing (branching self.old.state) a self.old self.new) }
    {
        if self.trail.is_false(lit) {
            return Some(lit);
        }
        let level = self.trail.level() + 1;
        self.trail.push(lit, None, level);
        None
    }

    /// Decides the first variable without a value with its phase, at a new level. Where each has a value the search
    /// ends.
    fn decide(&mut self)
        requires found { next_assumption self.old.state.trail self.old.state.assumptions ≡ None }
        requires handled { self.old.state.processed ≤ length self.old.state.trail + 1 }
        ensures state { self.new.state ≡ after_case (branching self.old.state) self.old.state }
        ensures keeps { Keeps 0 0 self.old self.new }
    {
        match self.order.first_free(&self.trail) {
            None => self.verdict = Some(Verdict::Satisfiable),
            Some(var) => self.decide_var(var),
        }
    }

    /// Decides this variable, the first without a value, with its phase, at a new level.
    fn decide_var(&mut self, var: Var)
        requires found { first_free self.old.state.trail self.old.state.order ≡ Some var }
        requires handled { self.old.state.processed ≤ length self.old.state.trail + 1 }
        ensures state { self.new.state ≡ after_case (Decides var) self.old.state }
        ensures keeps { Keeps 0 0 self.old self.new }
    {
        let positive = self.phases[var.number() as usize - 1];
        let level = self.trail.level() + 1;
        self.trail.push(var.literal(positive), None, level);
    }

    /// Derives a clause from a waiting conflict or a failed assumption in a slice in which so many literals and hints
    /// were derived, and tells how many were after it. None where they would be too many, and the slice is over.
    fn derive(&mut self, source: &Source, used: usize, scratch: &mut Scratch) -> Option<usize>
        requires sound { IsSound self.old.state }
        requires goes { self.old.state.verdict ≡ None }
        requires source { IsSource source.now self.old.state }
        requires room { HasStepRoom 1 used self.old }
        requires fitted { self.old.state.variables < scratch.old.room }
        requires counts { MayCount self.old.state }
        ensures step { MatchOption result (IsEnded used self.old self.new)
            (λ now. IsStepped used self.old now self.new) }
        ensures room { scratch.new.room ≡ scratch.old.room }
        ensures id_room { scratch.new.ids ≡ scratch.old.ids }
    {
        let numbers = self.analyse(source, scratch);
        if most_numbers(self.variables) < used + numbers {
            return None;
        }
        self.hold(source, scratch);
        Some(used + numbers)
    }

    /// Analyses a conflict or a failed assumption, and tells how many literals and hints come of it.
    pub fn analyse(&self, source: &Source, scratch: &mut Scratch) -> usize
        requires sound { IsSound self.now.state }
        requires source { IsSource source.now self.now.state }
        requires fitted { self.now.state.variables < scratch.old.room }
        ensures shown { HasLeft (analysis_from source.now self.now.state) scratch.old scratch.new }
        ensures numbers { result ≡ numbers_of (line_from source.now self.now.state) }
        ensures few { result ≤ self.now.state.variables + 1 }
    {
        self.analyse_from(source, scratch);
        scratch.clause().len() + scratch.hints().len()
    }

    /// Analyses a conflict or a failed assumption.
    fn analyse_from(&self, source: &Source, scratch: &mut Scratch)
        requires sound { IsSound self.now.state }
        requires source { IsSource source.now self.now.state }
        requires fitted { self.now.state.variables < scratch.old.room }
        ensures { HasLeft (analysis_from source.now self.now.state) scratch.old scratch.new }
    {
        let (trail, engine) = (&self.trail, &self.engine);
        match source {
            Source::Conflict(id) => mal_learn::analyse_in(
                self.profile,
                trail,
                engine,
                *id,
                scratch,
            ),
            Source::Failed(literal) => mal_learn::final_core(trail, engine, *literal, scratch),
        }
    }

    /// Notes the line that was analysed. Learns from a conflict above level 0; else the line refutes the clauses under
    /// the assumptions.
    fn hold(&mut self, source: &Source, scratch: &Scratch)
        requires sound { IsSound self.old.state }
        requires source { IsSource source.now self.old.state }
        requires shown { IsShown (analysis_from source.now self.old.state) scratch.now }
        requires counts { MayCount self.old.state }
        requires room { HasLineRoom (line_from source.now self.old.state) self.old }
        ensures state { self.new.state ≡ step self.old.state }
        ensures lines { self.new.lines ≡ self.old.lines ++ line_from source.now self.old.state ∷ [] }
        ensures room { IsLineLess (line_from source.now self.old.state) self.old self.new }
    {
        let number = ClauseId::derived(self.serial, self.index);
        self.lines
            .push_reserved(number, scratch.clause(), scratch.hints());
        match source {
            Source::Failed(_) => self.refute(number, scratch),
            Source::Conflict(id) => {
                if self.trail.level() == 0 {
                    self.refute(number, scratch);
                } else {
                    self.learn(*id, number, scratch);
                }
            }
        }
    }

    /// Holds the derived clause of a scratch, the goal of the verdict.
    fn refute(&mut self, number: ClauseId, scratch: &Scratch)
        requires sound { IsSound self.old.state }
        requires kept { IsSound (refuted scratch.now.clause self.old.state) }
        requires number { number ≡ derived_id self.old.state }
        requires counts { MayCount self.old.state }
        requires room { HasClauseRoom scratch.now.clause self.old }
        ensures state { self.new.state ≡ refuted scratch.now.clause self.old.state }
        ensures keeps { Keeps 1 (length scratch.now.clause) self.old self.new }
    {
        self.engine.learn(number, scratch.clause(), &self.trail);
        self.serial += 1;
        // A conflict stays after the empty clause: the node has its verdict and makes no step; a load clears both.
        self.verdict = Some(Verdict::Unsatisfiable { goal: number });
    }

    /// Learns the clause that was derived from a conflict above level 0, moves its variables to the front, and counts the
    /// conflict.
    fn learn(&mut self, id: ClauseId, number: ClauseId, scratch: &Scratch)
        requires sound { IsSound self.old.state }
        requires conflict { self.old.state.conflict ≡ Some id }
        requires level { 0 < level_of self.old.state.trail }
        requires shown { IsShown (analysis id self.old.state) scratch.now }
        requires number { number ≡ derived_id self.old.state }
        requires counts { MayCount self.old.state }
        requires room { HasClauseRoom (analysis id self.old.state).lits self.old }
        ensures state { self.new.state ≡ learned id self.old.state }
        ensures keeps { Keeps 1 (length (analysis id self.old.state).lits) self.old self.new }
    {
        self.teach(id, number, scratch);
        learning::bump_all(&mut self.order, scratch.clause());
        self.conflicts_since_restart += 1;
        let reduction = self.profile.policy().reduction;
        let count = reduction.counted(self.conflicts_since_dropping);
        self.conflicts_since_dropping = count;
    }

    /// Goes back to the level to jump to, holds the clause that was derived from a conflict above level 0, and makes its
    /// remaining literal true.
    fn teach(&mut self, id: ClauseId, number: ClauseId, scratch: &Scratch)
        requires sound { IsSound self.old.state }
        requires conflict { self.old.state.conflict ≡ Some id }
        requires level { 0 < level_of self.old.state.trail }
        requires shown { IsShown (analysis id self.old.state) scratch.now }
        requires number { number ≡ derived_id self.old.state }
        requires counts { MayCount self.old.state }
        requires room { HasClauseRoom (analysis id self.old.state).lits self.old }
        ensures state { self.new.state ≡ uncounted self.old.state (learned id self.old.state) }
        ensures keeps { Keeps 1 (length (analysis id self.old.state).lits) self.old self.new }
    {
        self.cut(scratch.level());
        self.engine.learn(number, scratch.clause(), &self.trail);
        learning::force(&mut self.trail, number, scratch.clause());
        self.serial += 1;
        self.conflict = None;
    }
}

impl<E: Listed> Node<E> {
    /// Loads revisions, each with the number of its first clause, one after another, then imports what others exported,
    /// one list after another, and makes room for a slice in the node and in a scratch. The room for the slice's lines
    /// is that of the scratch's spare lines. Where memory runs out the node's state and its lines stay as they were;
    /// else the lines of the last slice are taken away.
    pub fn ready(
        &mut self,
        loads: &[(&Revision, u32)],
        imports: &[&Buffer],
        scratch: &mut Scratch,
    ) -> Result<(), AllocError>
        requires new { AreNew (posted loads.now) self.old.state }
        requires exported { MayImportAll (lent imports.now) (readied (posted loads.now) self.old.state) }
        ensures loaded { OnOk result
            (self.new.state ≡ all_imported (lent imports.now) (readied (posted loads.now) self.old.state)) }
        ensures unchanged { OnErr result (self.new.state ≡ self.old.state) }
        ensures kept { OnErr result (self.new.lines ≡ self.old.lines) }
        ensures stocked { OnOk result (HasSliceRoom self.new) }
        ensures fitted { OnOk result (self.new.state.variables < scratch.new.room) }
        ensures ids { OnOk result (HasIdRoom 1000 self.new.state scratch.new) }
        ensures more { scratch.old.room ≤ scratch.new.room }
        ensures more_ids { scratch.old.ids ≤ scratch.new.ids }
    {
        self.ready_for(SLICE_STEPS, loads, imports, scratch)
    }

    /// The same, for a slice of so many steps.
    pub fn ready_for(
        &mut self,
        steps: u32,
        loads: &[(&Revision, u32)],
        imports: &[&Buffer],
        scratch: &mut Scratch,
    ) -> Result<(), AllocError>
        requires new { AreNew (posted loads.now) self.old.state }
        requires exported { MayImportAll (lent imports.now) (readied (posted loads.now) self.old.state) }
        ensures loaded { OnOk result
            (self.new.state ≡ all_imported (lent imports.now) (readied (posted loads.now) self.old.state)) }
        ensures unchanged { OnErr result (self.new.state ≡ self.old.state) }
        ensures kept { OnErr result (self.new.lines ≡ self.old.lines) }
        ensures stocked { OnOk result (HasRunRoom steps self.new) }
        ensures fitted { OnOk result (self.new.state.variables < scratch.new.room) }
        ensures ids { OnOk result (HasIdRoom steps self.new.state scratch.new) }
        ensures more { scratch.old.room ≤ scratch.new.room }
        ensures more_ids { scratch.old.ids ≤ scratch.new.ids }
    {
        let alloc = *self.phases.allocator();
        let picks = import_filter::new_clauses_of(alloc, &self.engine, loads, imports)?;
        self.make_room(loads, picks.as_slice(), steps, scratch)?;
        for load in loads {
            let (revision, first) = load;
            self.load_reserved(revision, *first);
        }
        for pick in picks.as_slice() {
            self.take_pick(pick.entries());
        }
        Ok(())
    }

    /// The number of clauses held.
    pub fn clause_count(&self) -> usize
        ensures { result ≡ length self.now.state.clauses }
    {
        self.engine.count()
    }

    /// The image of this node, whose state is in form, as that of each sound node of a serial below 2^57 is.
    pub fn image(&self) -> Result<Image, AllocError>
        requires { IsImage self.now.state }
        ensures { IfOk result (λ i. i ≡ self.now.state) }
    {
        let alloc = *self.phases.allocator();
        let parts = Parts {
            index: self.index,
            profile: self.profile,
            variables: self.variables,
            serial: self.serial,
            conflicts_since_restart: self.conflicts_since_restart,
            restart_number: self.restart_number,
            conflicts_since_dropping: self.conflicts_since_dropping,
            processed: self.trail.processed(),
            conflict: self.conflict,
            verdict: self.verdict,
            assumptions: Vec::from_slice(alloc, self.assumptions.as_slice())?,
            order: self.order.variables()?,
            phases: Vec::from_slice(alloc, self.phases.as_slice())?,
            trail: Vec::from_slice(alloc, self.trail.entries())?,
            clauses: copies::clauses_of(alloc, &self.engine)?,
        };
        Ok(Image::of_form(parts))
    }
}
