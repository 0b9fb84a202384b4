//! The scratch of an analysis, and the analysis.

ghost use Rattle.std.specs.Prelude.{◌≡◌, ◌-◌, ◌<◌, ◌≤◌, [], length, reverse, take, OnOk, OnErr};
ghost use Rattle.mal_base.specs.Limits.{greatest_variable};
ghost use Rattle.spec_learn.specs.{Analysis.{analysed, core, reached, top}, Shorter.{shortened}};
ghost use Rattle.mal_learn.specs.Shown.{HasRoom, HasLeft, last_of};

use crate::dropping::Choice;
use crate::flags::Flags;
use crate::work::{Work, mark_level};
use mal_base::{ClauseId, ClauseView, Lines, Lit, TrailView};
use std::alloc::{AllocError, Global};
use std::marker::Model;
use std::mem;

/// What an analysis works in, and what the last one left: a derived clause, its hints and the level to jump to.
/// Contracts see these and the bound below which there is room for each variable, 0 before the first `fit`; then for
/// how many clauses there is room to choose among them, 0 before the first `fit_ids`, and those that were chosen last.
/// What else a scratch holds never changes an analysis. Beside that it keeps spare lines, whose room one slice after
/// another derives its lines in.
#[derive(Drop)]
pub struct Scratch {
    work: Work,
    base: Flags,
    pub choice: Choice,
    spare: Lines,
}

impl Model for Scratch {
    ghost use Rattle.std.specs.Prelude.{◌≤◌, length};
    ghost use Rattle.mal_learn.specs.Shown.{Shown};

    ghost Value = { Shown };

    ghost view = { λ s. record {
      clause = s.work.state.lits;
      hints = s.work.state.hints;
      level = s.work.state.level;
      room = s.work.room;
      ids = s.choice.ids;
      chosen = s.choice.chosen;
    } };

    ghost invariant = { λ s. s.work.room ≤ length s.base };
}

impl Scratch {
    ghost use Rattle.std.specs.Borrow.{sem};
    ghost use Rattle.mal_learn.specs.Lending.{ScratchLends};

    /// A scratch without room. Takes no memory.
    pub fn new(alloc: Global) -> Scratch
        ensures { result.room ≡ 0 }
    {
        Scratch {
            work: Work::new(alloc),
            base: Flags::new(alloc),
            choice: Choice::new(alloc),
            spare: Lines::new(alloc),
        }
    }

    /// Makes room for the variables up to this one, which a literal can be of. What the last analysis left stays.
    pub fn fit(&mut self, variables: u32) -> Result<(), AllocError>
        requires { variables ≤ greatest_variable }
        ensures room { OnOk result (variables < self.new.room) }
        ensures more { self.old.room ≤ self.new.room }
        ensures clause { self.new.clause ≡ self.old.clause }
        ensures hints { self.new.hints ≡ self.old.hints }
        ensures level { self.new.level ≡ self.old.level }
        ensures id_room { self.new.ids ≡ self.old.ids }
    {
        self.base.fit(variables as usize + 1)?;
        // Each entry of a trail gives one literal or one hint at most, so this is room for every analysis.
        self.work.fit(variables + 1)
    }

    /// Makes room to choose among so many clauses. What the last analysis left stays; what was chosen is forgotten.
    pub fn fit_ids(&mut self, ids: usize) -> Result<(), AllocError>
        ensures ids { OnOk result (ids ≤ self.new.ids) }
        ensures more { self.old.ids ≤ self.new.ids }
        ensures chosen { self.new.chosen ≡ [] }
        ensures room { self.new.room ≡ self.old.room }
        ensures clause { self.new.clause ≡ self.old.clause }
        ensures hints { self.new.hints ≡ self.old.hints }
        ensures level { self.new.level ≡ self.old.level }
    {
        self.choice.fit(ids)
    }

    /// Puts the spare lines, emptied and with room for so many lines, literals and hints, in place of these, which are
    /// the spare from now on. If memory runs out, these lines are as before.
    pub fn swap_spare(
        &mut self,
        lines: &mut Lines,
        count: usize,
        lits: usize,
        hints: usize,
    ) -> Result<(), AllocError>
        ensures none { OnOk result (lines.new.lines ≡ []) }
        ensures room { OnOk result (count ≤ lines.new.room) }
        ensures lit_room { OnOk result (lits ≤ lines.new.lit_room) }
        ensures hint_room { OnOk result (hints ≤ lines.new.hint_room) }
        ensures kept { OnErr result (lines.new ≡ lines.old) }
        ensures same { self.new ≡ self.old }
    {
        self.spare.clear();
        self.spare.reserve(count, lits, hints)?;
        mem::swap(&mut self.spare, lines);
        Ok(())
    }

    /// Keeps these lines as the spare, for the room that they have. Takes no memory.
    pub fn keep_spare(&mut self, lines: Lines)
        ensures { self.new ≡ self.old }
    {
        self.spare = lines;
    }

    /// The numbers of the clauses that were chosen last, to be put in another order. All else stays.
    pub fn chosen_mut(&mut self) -> &mut [ClauseId]
        ensures* writes_back { sem 𝓛 (ScratchLends self.entry result) }
        ensures value { result.now ≡ self.old.chosen }
    {
        self.choice.chosen_mut()
    }

    /// The literals of the clause, in order.
    pub fn clause(&self) -> &[Lit]
        ensures { result.now ≡ self.now.clause }
    {
        self.work.lits.as_slice()
    }

    /// The hints, in the order in which unit propagation uses them.
    pub fn hints(&self) -> &[ClauseId]
        ensures { result.now ≡ self.now.hints }
    {
        self.work.hints.as_slice()
    }

    /// The level to jump to: the greatest of the clause's literals below the current level, 0 for none.
    pub fn level(&self) -> u32
        ensures { result ≡ self.now.level }
    {
        self.work.level
    }
}

/// Analyses a conflict (first unique implication point): leaves in a fitted scratch the clause that is learned above
/// level 0, at level 0 the empty clause, with its hints in trail order and the level to jump to. Takes no memory. The
/// time is linear in the trail and the literals of the reasons used.
pub fn analyse<T: TrailView, C: ClauseView>(
    trail: &T,
    clauses: &C,
    conflict: ClauseId,
    scratch: &mut Scratch,
)
    requires { HasRoom 1 scratch.old.room (T.entries trail.now) (C.clauses clauses.now) }
    ensures { HasLeft
        (analysed (C.clauses clauses.now) (reverse (T.entries trail.now)) conflict) scratch.old scratch.new }
{
    let level = current_level(trail);
    scratch.work.begin(trail, clauses, conflict, level);
    scratch.work.walk(trail, clauses, level);
    scratch.work.finish();
}

/// Shortens the clause that was learned from a conflict, which is the last hint: leaves in the scratch the shorter
/// clause with its hints in trail order and the same level. Takes no memory. The time is linear in the trail and twice
/// the literals of the reasons looked at.
pub fn shorten<T: TrailView, C: ClauseView>(trail: &T, clauses: &C, scratch: &mut Scratch)
    requires room { HasRoom 1 scratch.old.room (T.entries trail.now) (C.clauses clauses.now) }
    requires analysed { 1 ≤ length scratch.old.hints }
    ensures { HasLeft
        (shortened (C.clauses clauses.now) (reverse (T.entries trail.now))
        (last_of scratch.old.hints)) scratch.old scratch.new }
{
    // It asks for no more of the scratch than the conflict, and walks again.
    let conflict = scratch.work.last_hint();
    analyse_shorter(trail, clauses, conflict, scratch);
}

/// Analyses a conflict, and leaves in a fitted scratch the shorter clause with its hints in trail order and the level to
/// jump to: one walk finds it, since what the first unique implication point leaves out is left out too. Takes no
/// memory. The time is linear in the trail and twice the literals of the reasons looked at.
pub fn analyse_shorter<T: TrailView, C: ClauseView>(
    trail: &T,
    clauses: &C,
    conflict: ClauseId,
    scratch: &mut Scratch,
)
    requires { HasRoom 1 scratch.old.room (T.entries trail.now) (C.clauses clauses.now) }
    ensures { HasLeft
        (shortened (C.clauses clauses.now) (reverse (T.entries trail.now)) conflict) scratch.old scratch.new }
{
    let level = current_level(trail);
    scratch.work.begin(trail, clauses, conflict, level);
    scratch.base.clear();
    mark_level(&mut scratch.base, trail, 0);
    scratch
        .work
        .walk_shorter(trail, clauses, &mut scratch.base, level);
    scratch.work.finish();
}

/// Analyses a false assumption (final conflict): leaves in a fitted scratch the core clause, which has the negation of
/// the assumption and negated decisions, with its hints in trail order, the reason of the negation last. Takes no
/// memory. The time is linear in the trail and the literals of the reasons used.
pub fn final_core<T: TrailView, C: ClauseView>(
    trail: &T,
    clauses: &C,
    assumption: Lit,
    scratch: &mut Scratch,
)
    requires { HasRoom 2 scratch.old.room (T.entries trail.now) (C.clauses clauses.now) }
    ensures { HasLeft
        (core (C.clauses clauses.now) (reverse (T.entries trail.now)) assumption) scratch.old scratch.new }
{
    let negation = assumption.negate();
    // Of any literal: where the negation is not on the trail, or was decided, the clause is the negation alone, without
    // hints. At level 0 the negation may stand too: the clause is not made empty, since without the assumption the
    // clauses need not be refuted.
    let count = count_to(trail, negation);
    scratch.work.begin_with(negation);
    scratch.work.trace_from(trail, clauses, count);
    scratch.work.finish();
}

/// How many entries a trail has up to the last one of a literal, 0 where it has none.
fn count_to<T: TrailView>(trail: &T, literal: Lit) -> usize
    ensures is { reached literal (reverse (T.entries trail.now)) ≡ reverse (take result (T.entries trail.now)) }
    ensures bound { result ≤ length (T.entries trail.now) }
{
    let count = trail.len();
    for made in 0..count {
        if trail.at(count - 1 - made).lit == literal {
            return count - made;
        }
    }
    0
}

/// The level that a trail has reached.
pub fn current_level<T: TrailView>(trail: &T) -> u32
    ensures { result ≡ top (reverse (T.entries trail.now)) }
{
    let count = trail.len();
    if count == 0 {
        return 0;
    }
    trail.at(count - 1).level
}
