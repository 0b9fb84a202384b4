//! The solver.

ghost use Rattle.std.specs.Prelude.{◌≡◌, ◌≢◌, ◌+◌, ◌≤◌, true, false, Contains, None, Some, [], ◌∷◌, IfOk, IfErr, OnOk, OnErr, MatchOption};
ghost use Rattle.mal_base.specs.{Limits.{limits}, Literals.{literal, var_of}};
ghost use Rattle.spec_solving.specs.{Solving.{fresh, reopened, with_literal, with_assumption, Promises}, Calls.{IsRefusal, IsTaken, IsEnded, IsBegun, IsRun, IsAsked}};
ghost use Rattle.spec_solving.specs.Solving.Answer.{Open, Unknown};
ghost use Rattle.spec_solving.specs.declared.refusal.Refusal.TheVariants.{OpenClause};
ghost use Rattle.mal_solving.specs.{Answers.{stage_of, value_in, failed_in, lines_of}, Steps.{IsLoadedWith, IsPut}};

use crate::answer::{Answer, Stage};
use crate::kernel::Kernel;
use mal_base::{Clause, ClauseList, LIMITS, Lines, Lit, Profile, Var};
use mal_revision::{Revision, RevisionFault, opposite};
use spec_solving::Refusal;
use std::alloc::{AllocError, Global};
use std::marker::Model;
use std::mem;

/// An incremental solver. Contracts see what it was given, and what it answered. A refused input is for good: some of
/// what was given is lost then, so it answers nothing more.
#[derive(Drop)]
pub struct Solver {
    kernel: Kernel,
    /// The clauses that were ended since the node was loaded.
    pending: ClauseList,
    clause: Vec<Lit>,
    assumptions: Vec<Lit>,
    variables: u32,
    refused: Option<Refusal>,
    answer: Answer,
    alloc: Global,
}

impl Model for Solver {
    ghost use Rattle.spec_solving.specs.Solving.{Solving};
    ghost use Rattle.mal_solving.specs.Steps.{solving_of, IsSolving};

    ghost Value = { Solving };

    ghost view = { λ s. solving_of s.kernel s.pending s.clause.items s.assumptions.items s.refused s.answer };

    ghost invariant = { λ s. IsSolving s.kernel s.pending
        (solving_of s.kernel s.pending s.clause.items s.assumptions.items s.refused s.answer) };
}

/// Where more clauses or literals than these wait, they are loaded at the next clause's end: a revision has no room for
/// many more.
const MOST_PENDING: usize = LIMITS.clauses / 2;

const MOST_LITERALS: usize = LIMITS.literals / 2;

impl Solver {
    /// A solver that was given nothing, of a profile, which keeps proofs or not. Takes no memory.
    pub fn new(alloc: Global, profile: Profile, proving: bool) -> Solver
        ensures { result ≡ fresh proving }
    {
        Solver {
            kernel: Kernel::new(alloc, profile, proving),
            pending: ClauseList::new(alloc),
            clause: Vec::new(alloc),
            assumptions: Vec::new(alloc),
            variables: 0,
            refused: None,
            answer: Answer::open(alloc),
            alloc,
        }
    }

    /// Whether it was given nothing yet.
    pub fn is_fresh(&self) -> bool
        ensures { result ≡ true → self.now ≡ fresh self.now.proving }
    {
        self.kernel.count() == 0
            && self.pending.len() == 0
            && self.clause.is_empty()
            && self.assumptions.is_empty()
            && self.refused.is_none()
            && self.answer.stage() == Stage::Open
    }

    /// Puts a literal after those of the open clause. One of a variable above the limits is refused.
    pub fn add(&mut self, lit: Lit)
        ensures taken { IsTaken self.old (with_literal lit (reopened self.old)) self.new }
        ensures beyond { limits.variables + 1 ≤ var_of lit → IsRefusal self.old self.new }
    {
        if self.admit(lit) && self.clause.push(lit).is_err() {
            self.refuse(Refusal::OutOfMemory);
        }
    }

    /// Ends the open clause: it stands after the others, in rising order and each literal once, or as a tautology.
    pub fn end_clause(&mut self)
        ensures { IsEnded self.old self.new }
    {
        if self.refused.is_some() {
            return;
        }
        self.reopen();
        self.make_room();
        if self.refused.is_none() {
            self.put_clause();
        }
    }

    /// Assumes a literal for the next answer. One of a variable above the limits is refused.
    pub fn assume(&mut self, lit: Lit)
        ensures taken { IsTaken self.old (with_assumption lit (reopened self.old)) self.new }
        ensures beyond { limits.variables + 1 ≤ var_of lit → IsRefusal self.old self.new }
    {
        if self.admit(lit) && self.assumptions.push(lit).is_err() {
            self.refuse(Refusal::OutOfMemory);
        }
    }

    /// Whether a literal is taken; its variable counts then. One of a variable above the limits is refused.
    fn admit(&mut self, lit: Lit) -> bool
        ensures taken { result ≡ true → self.new ≡ reopened self.old }
        ensures refused { result ≡ false → IsRefusal self.old self.new }
        ensures beyond { limits.variables + 1 ≤ var_of lit → result ≡ false }
    {
        if self.refused.is_some() {
            return false;
        }
        self.reopen();
        let var = lit.var().number();
        if var > LIMITS.variables {
            self.refuse(Refusal::NoLiteral);
            return false;
        }
        self.variables = self.variables.max(var);
        true
    }

    /// Refuses an input for good: what a caller was told is no input.
    pub fn refuse(&mut self, cause: Refusal)
        ensures refused { IsRefusal self.old self.new }
        ensures cause { self.old.refused ≡ None → self.new ≡ record self.old { refused = Some cause; answer = Open } }
    {
        if self.refused.is_none() {
            self.refused = Some(cause);
            self.answer = Answer::open(self.alloc);
        }
    }

    /// Asks for an answer under the assumptions since the last one. An open clause is refused.
    pub fn begin(&mut self)
        ensures begun { IsBegun self.old self.new }
        ensures cause { self.new.refused ≡ Some OpenClause → self.old.refused ≢ Some OpenClause → self.old.open_clause ≢ [] }
    {
        if self.refused.is_some() {
            return;
        }
        self.reopen();
        if !self.clause.is_empty() {
            self.refuse(Refusal::OpenClause);
            return;
        }
        Lit::sort(&mut self.assumptions);
        match opposite(self.assumptions.as_slice()) {
            Some(var) => self.contradict(var),
            None => self.ask(),
        }
    }

    /// Runs at most so many slices of the search, as long as its answer is asked for and not known.
    /// How far the answer is then.
    pub fn run(&mut self, slices: u32) -> Stage
        ensures run { IsRun self.old self.new }
        ensures stage { result ≡ stage_of self.new.answer }
        ensures promises { Promises self.new.proving self.new.clauses self.new.assumed self.new.answer }
        ensures silent { self.new.refused ≢ None → self.new.answer ≡ Open }
    {
        for _ in 0..slices {
            if self.answer.stage() != Stage::Unknown {
                break;
            }
            self.run_slice();
        }
        self.stage()
    }

    /// Runs a slice, where an answer is asked for and not known.
    fn run_slice(&mut self)
        requires { self.old.answer ≡ Unknown }
        ensures { IsRun self.old self.new }
    {
        match self.kernel.run() {
            Ok(answer) => self.answer = answer,
            Err(cause) => {
                self.answer = Answer::open(self.alloc);
                self.refuse(cause);
            }
        }
    }

    /// With an input the answer is over, and so are its assumptions. Takes no memory.
    fn reopen(&mut self)
        ensures { self.new ≡ reopened self.old }
    {
        if self.answer.stage() != Stage::Open {
            self.assumptions.clear();
            self.answer = Answer::open(self.alloc);
        }
    }

    /// Loads the clauses that wait, where they are many.
    fn make_room(&mut self)
        requires { self.old.answer ≡ Open }
        ensures { IsTaken self.old self.old self.new }
    {
        if self.pending.len() < MOST_PENDING && self.pending.literals() < MOST_LITERALS {
            return;
        }
        let pending = mem::replace(&mut self.pending, ClauseList::new(self.alloc));
        match load(self.alloc, &mut self.kernel, self.variables, pending, &[]) {
            Ok(_) => {}
            Err(cause) => self.refuse(cause),
        }
    }

    /// Puts the open clause after the others.
    fn put_clause(&mut self)
        requires open { self.old.answer ≡ Open }
        requires taken { self.old.refused ≡ None }
        ensures { IsEnded self.old self.new }
    {
        match put_merged(&mut self.pending, &mut self.clause) {
            Ok(()) => self.clause.clear(),
            Err(_) => self.refuse(Refusal::OutOfMemory),
        }
    }

    /// Loads all that waits, and asks under the assumptions, none of which is the other's negation.
    fn ask(&mut self)
        requires open { self.old.answer ≡ Open }
        requires taken { self.old.refused ≡ None }
        ensures begun { IsBegun self.old self.new }
        ensures cause { self.new.refused ≢ Some OpenClause }
    {
        let pending = mem::replace(&mut self.pending, ClauseList::new(self.alloc));
        let assumptions = self.assumptions.as_slice();
        match load(
            self.alloc,
            &mut self.kernel,
            self.variables,
            pending,
            assumptions,
        ) {
            Ok(sorted) => {
                self.assumptions = sorted;
                self.answer = Answer::unknown(self.alloc);
            }
            Err(cause) => self.refuse(cause),
        }
    }

    /// Answers that both signs of a variable were assumed.
    fn contradict(&mut self, var: Var)
        requires open { self.old.answer ≡ Open }
        requires taken { self.old.refused ≡ None }
        requires both { Contains self.old.assumed (literal var true) × Contains self.old.assumed (literal var false) }
        ensures begun { IsBegun self.old self.new }
        ensures cause { self.new.refused ≢ Some OpenClause }
    {
        match both_signs(self.alloc, var) {
            Ok(failed) => self.answer = Answer::core(self.alloc, failed, Lines::new(self.alloc)),
            Err(_) => self.refuse(Refusal::OutOfMemory),
        }
    }

    /// How far the last answer is.
    pub fn stage(&self) -> Stage
        ensures stage { result ≡ stage_of self.now.answer }
        ensures promises { Promises self.now.proving self.now.clauses self.now.assumed self.now.answer }
        ensures silent { self.now.refused ≢ None → self.now.answer ≡ Open }
    {
        self.answer.stage()
    }

    /// Why an input was refused.
    pub fn refusal(&self) -> Option<Refusal>
        ensures { result ≡ self.now.refused }
    {
        self.refused
    }

    /// Whether proofs are kept.
    pub fn is_proving(&self) -> bool
        ensures { result ≡ self.now.proving }
    {
        self.kernel.is_proving()
    }

    /// Whether a literal is true in the model. None where there is no model, or its variable has no value in it.
    pub fn value(&self, lit: Lit) -> Option<bool>
        ensures { result ≡ value_in lit self.now.answer }
    {
        self.answer.value(lit)
    }

    /// Whether a literal is one of the failed assumptions.
    pub fn has_failed(&self, lit: Lit) -> bool
        ensures { result ≡ failed_in lit self.now.answer }
    {
        self.answer.has_failed(lit)
    }

    /// The lines of the refutation, numbered after the clauses.
    pub fn lines(&self) -> Option<&Lines>
        ensures { MatchOption result (lines_of self.now.answer ≡ [])
            (λ lines. lines_of self.now.answer ≡ lines.now.lines) }
    {
        self.answer.lines()
    }
}

/// Puts the clause of these literals after others, and leaves the literals in some order.
fn put_merged(clauses: &mut ClauseList, lits: &mut Vec<Lit>) -> Result<(), AllocError>
    ensures put { OnOk result (IsPut lits.old.items clauses.old clauses.new) }
    ensures same { OnErr result (clauses.new ≡ clauses.old) }
{
    if Clause::merge(lits) {
        clauses.push_rising(lits.as_slice())
    } else {
        clauses.push_tautology()
    }
}

/// The two literals of a variable.
fn both_signs(alloc: Global, var: Var) -> Result<Vec<Lit>, AllocError>
    ensures { IfOk result (λ lits. lits.items ≡ literal var true ∷ literal var false ∷ []) }
{
    let mut lits = Vec::new(alloc);
    lits.extend_from_slice(&[var.literal(true), var.literal(false)])?;
    Ok(lits)
}

/// Loads clauses of these variables under assumptions, and gives the assumptions in rising order, each once.
fn load(
    alloc: Global,
    kernel: &mut Kernel,
    variables: u32,
    clauses: ClauseList,
    assumptions: &[Lit],
) -> Result<Vec<Lit>, Refusal>
    ensures loaded { IfOk result (λ sorted. IsLoadedWith clauses assumptions.now sorted.items kernel.old kernel.new) }
    ensures cause { IfErr result (λ e. e ≢ OpenClause) }
{
    match Revision::new(alloc, variables, clauses, assumptions) {
        Err(RevisionFault::OutOfMemory) => Err(Refusal::OutOfMemory),
        Err(_) => Err(Refusal::Limit),
        Ok(revision) => {
            let Ok(sorted) = Vec::from_slice(alloc, revision.assumptions()) else {
                return Err(Refusal::OutOfMemory);
            };
            match kernel.load(&revision) {
                Err(_) => Err(Refusal::OutOfMemory),
                Ok(()) => Ok(sorted),
            }
        }
    }
}
