//! A solver node that takes clauses and assumptions at any time, and runs slices.

ghost use Rattle.std.specs.Prelude.{◌≡◌, ℕ, ◌+◌, [], ◌++◌, length, Some, None, is_some, IfOk, IfSome, OnOk, OnErr, MatchResult};
ghost use Rattle.mal_base.specs.declared.verdict.Verdict.TheVariants.{Satisfiable, Unsatisfiable};
ghost use Rattle.spec_node.specs.{State.{fresh_with}, Sound.{IsSound}};
ghost use Rattle.spec_search.specs.Slice.{slice};
ghost use Rattle.spec_solving.specs.Solving.{Promises, Answer.{Open, Unknown, Core}};
ghost use Rattle.spec_solving.specs.Holding.{all_given_up, may_be_given_up, HasGivenUp};
ghost use Rattle.mal_solving.specs.Loaded.{core_lines};

use crate::answer::Answer;
use crate::given::{Given, with_revision};
use crate::log::{empty_log, enter, last_negated, refutation};
use mal_base::{ClauseId, Lines, Lit, Profile, Verdict, grown};
use mal_cdcl::Node;
use mal_learn::{Scratch, is_reason};
use mal_proof::Log;
use mal_revision::Revision;
use mal_trail::Trail;
use mal_watch::Watcher;
use spec_solving::Refusal;
use std::alloc::{AllocError, Global};
use std::marker::Model;

/// A solver node with its scratch, and a log where proofs are kept. Contracts see the clauses that it was given, the
/// state of the node and the lines that are kept; the type keeps that the node holds these clauses, and what it derived
/// of them alone.
#[derive(Drop)]
pub struct Kernel {
    node: Node<Watcher>,
    scratch: Scratch,
    log: Option<Log>,
    given: Given,
    /// The goals of answers that are found again as fast without them: a load gives them up, many at a time.
    easy: Vec<ClauseId>,
    /// Whether a goal without literals was kept, which every slice from then on finds at once.
    refuted: bool,
    count: u32,
    alloc: Global,
}

impl Model for Kernel {
    ghost use Rattle.mal_solving.specs.Loaded.{Loaded, IsLoaded, given_clauses, lines_kept};

    ghost Value = { Loaded };

    ghost view = { λ k. record { clauses = given_clauses k.given; node = k.node.state; kept = lines_kept k.log } };

    ghost invariant = { λ k. IsLoaded k.count
        (record { clauses = given_clauses k.given; node = k.node.state; kept = lines_kept k.log }) };
}

impl Kernel {
    /// A node that was given nothing. Takes no memory.
    pub fn new(alloc: Global, profile: Profile, proving: bool) -> Kernel
        ensures clauses { result.clauses ≡ [] }
        ensures node { result.node ≡ fresh_with 0 profile }
        ensures kept { is_some result.kept ≡ proving }
    {
        Kernel {
            node: Node::fresh_with(alloc, 0, profile),
            scratch: Scratch::new(alloc),
            log: empty_log(alloc, proving),
            given: Given::Nothing,
            easy: Vec::new(alloc),
            refuted: false,
            count: 0,
            alloc,
        }
    }

    /// Whether proofs are kept.
    pub fn is_proving(&self) -> bool
        ensures { result ≡ is_some self.now.kept }
    {
        self.log.is_some()
    }

    /// How many clauses it was given.
    pub fn count(&self) -> u32
        ensures { result ≡ length self.now.clauses }
    {
        self.count
    }

    /// Takes more clauses, and the assumptions of the next answer. More than 2^32 - 2 clauses are out of memory. Where
    /// memory runs out all is as before.
    pub fn load(&mut self, revision: &Revision) -> Result<(), AllocError>
        ensures clauses { OnOk result (self.new.clauses ≡ self.old.clauses ++ revision.now.clauses) }
        ensures assumed { OnOk result (self.new.node.assumptions ≡ revision.now.assumptions) }
        ensures calm { OnOk result (self.new.node.verdict ≡ None) }
        ensures kept { OnOk result (self.new.kept ≡ self.old.kept) }
        ensures same { OnErr result (self.new ≡ self.old) }
    {
        let count = grown(self.count as usize, revision.clauses().len(), MOST_CLAUSES)?;
        self.easy.reserve(1)?;
        self.node
            .ready(&[(revision, self.count + 1)], &[], &mut self.scratch)?;
        give_up_many(&mut self.node, &mut self.easy);
        self.given = with_revision(&self.given, revision);
        self.count = count as u32;
        Ok(())
    }

    /// Runs a slice, where none has ended yet. What comes of it is an answer; `Limit` where the counts of the search
    /// are too high, and `OutOfMemory`, after which proofs may be kept no more.
    pub fn run(&mut self) -> Result<Answer, Refusal>
        requires goes { self.old.node.verdict ≡ None }
        ensures clauses { self.new.clauses ≡ self.old.clauses }
        ensures assumed { self.new.node.assumptions ≡ self.old.node.assumptions }
        ensures kept { OnOk result (is_some self.new.kept ≡ is_some self.old.kept) }
        ensures goes { IfOk result (λ a. a ≡ Unknown → self.new.node.verdict ≡ None) }
        ensures asked { IfOk result (λ a. a ≡ Open → ⊥) }
        ensures promises { IfOk result
            (λ a. Promises (is_some self.old.kept) self.old.clauses self.old.node.assumptions a) }
    {
        let proving = self.log.is_some();
        let lines = run_slice(&mut self.node, &mut self.scratch)?;
        let failed = last_negated(self.alloc, &lines);
        let empty = ends_empty(&lines);
        let easy = easy_goal(self.node.verdict(), lines.count(), empty, self.refuted);
        note(&mut self.easy, easy);
        self.refuted = self.refuted || empty;
        enter(self.alloc, &mut self.log, lines, &mut self.scratch);
        if self.log.is_some() != proving {
            return Err(Refusal::OutOfMemory);
        }
        match self.found(failed) {
            Ok(answer) => Ok(answer),
            Err(_) => Err(Refusal::OutOfMemory),
        }
    }

    /// What the node found; these assumptions failed where it refutes.
    fn found(&self, failed: Result<Vec<Lit>, AllocError>) -> Result<Answer, AllocError>
        ensures goes { IfOk result (λ a. a ≡ Unknown → self.now.node.verdict ≡ None) }
        ensures asked { IfOk result (λ a. a ≡ Open → ⊥) }
        ensures model { self.now.node.verdict ≡ Some Satisfiable
            → IfOk result (λ a. Promises (is_some self.now.kept) self.now.clauses self.now.node.assumptions a) }
        ensures core { (goal : ℕ) → self.now.node.verdict ≡ Some (Unsatisfiable goal)
            → IfOk result (λ a. MatchResult failed (λ lits. a ≡ Core lits.items (core_lines goal self.now)) (λ _. ⊥)) }
        ensures none { self.now.node.verdict ≡ None → IfOk result (λ a. a ≡ Unknown) }
    {
        let Some(verdict) = self.node.verdict() else {
            drop(failed);
            return Ok(Answer::unknown(self.alloc));
        };
        match verdict {
            Verdict::Satisfiable => {
                drop(failed);
                self.model()
            }
            Verdict::Unsatisfiable { goal } => self.core(goal, failed?),
        }
    }

    /// The model of a node that has one.
    fn model(&self) -> Result<Answer, AllocError>
        requires { self.now.node.verdict ≡ Some Satisfiable }
        ensures promises { IfOk result
            (λ a. Promises (is_some self.now.kept) self.now.clauses self.now.node.assumptions a) }
        ensures asked { IfOk result (λ a. a ≡ Open → ⊥) }
        ensures known { IfOk result (λ a. a ≡ Unknown → ⊥) }
    {
        let mut values = Vec::with_capacity(self.alloc, self.node.variables() as usize)?;
        self.node.model(&mut values);
        Ok(Answer::model(self.alloc, values))
    }

    /// These failed assumptions, with the lines that a goal needs where they are kept.
    fn core(&self, goal: ClauseId, failed: Vec<Lit>) -> Result<Answer, AllocError>
        ensures { IfOk result (λ a. a ≡ Core failed.items (core_lines goal self.now)) }
    {
        let lines = refutation(self.alloc, &self.log, goal, self.count)?;
        Ok(Answer::core(self.alloc, failed, lines))
    }
}

/// Gives up the clauses of these numbers, where they are many.
fn give_up_many(node: &mut Node<Watcher>, ids: &mut Vec<ClauseId>)
    ensures { HasGivenUp node.old.state node.new.state }
{
    if ids.len() >= MANY_EASY {
        give_up_all(node, ids);
    }
}

/// Gives up the clauses of these numbers that are derived and no entry's reason, and empties the list. Each call goes over
/// all clauses.
fn give_up_all(node: &mut Node<Watcher>, ids: &mut Vec<ClauseId>)
    ensures { node.new.state ≡ all_given_up ids.old.items node.old.state }
{
    let trail = node.trail();
    ids.retain(|id| may_be_given_up(trail, *id));
    node.forget(ids.as_mut_slice());
    ids.clear();
}

/// Whether the clause of a number is derived and no entry's reason.
fn may_be_given_up(trail: &Trail, id: ClauseId) -> bool
    ensures { result ≡ may_be_given_up trail.now.entries id }
{
    id.number() >= FIRST_DERIVED && !is_reason(trail, id, &[])
}

/// Notes a goal, if there is one, where there is room for it: a goal that is not noted stays, and costs time alone.
fn note(easy: &mut Vec<ClauseId>, goal: Option<ClauseId>) {
    if let Some(goal) = goal
        && easy.len() < easy.capacity()
    {
        easy.push_reserved(goal);
    }
}

/// Runs a slice of a node, and takes its lines.
#[tactic(auto, using(crate::proofs::KernelLemmas::slice_assumed))]
fn run_slice(node: &mut Node<Watcher>, scratch: &mut Scratch) -> Result<Lines, Refusal>
    requires sound { IsSound node.old.state }
    ensures lines { IfOk result (λ l. l.lines ≡ (slice node.old.state).lines) }
    ensures node { OnOk result (node.new.state ≡ (slice node.old.state).node) }
    ensures same { OnErr result (node.new.state ≡ node.old.state) }
    ensures assumed { node.new.state.assumptions ≡ node.old.state.assumptions }
{
    if !node.may_run() {
        return Err(Refusal::Limit);
    }
    if node.ready(&[], &[], scratch).is_err() {
        return Err(Refusal::OutOfMemory);
    }
    node.run(scratch);
    Ok(node.take_lines())
}

/// Whether the last line has no literals.
fn ends_empty(lines: &Lines) -> bool {
    let count = lines.count();
    count > 0 && lines.lits(count - 1).is_empty()
}

/// The goal of a verdict that a slice of so many lines came to, where the next one finds it again as fast: it is the
/// only line, or is empty as one that was kept.
fn easy_goal(verdict: Option<Verdict>, lines: usize, empty: bool, refuted: bool) -> Option<ClauseId>
    ensures { IfSome result (λ goal. verdict ≡ Some (Unsatisfiable goal)) }
{
    let Verdict::Unsatisfiable { goal } = verdict? else {
        return None;
    };
    let easy = if empty { refuted } else { lines == 1 };
    easy.then_some(goal)
}

/// The most clauses that are numbered: derived ones have numbers from 2^32 on.
const MOST_CLAUSES: usize = u32::MAX as usize - 1;

/// The least number of a derived clause.
const FIRST_DERIVED: u64 = 1 << 32;

/// So many goals are given up at a time.
const MANY_EASY: usize = 64;
