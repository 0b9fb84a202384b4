//! The checker.

ghost use Rattle.std.specs.Prelude.{◌≡◌, ◌∷◌, ◌++◌, ◌<◌, [], None, length, get_or, map, IsTrue, IfOk, OnOk, OnErr, All};
ghost use Rattle.std.specs.List.{list_any};
ghost use Rattle.mal_base.specs.Literals.{negated};
ghost use Rattle.mal_lrat.specs.LineView.{seen};
ghost use Rattle.spec_logic.specs.{Logic.{Entails, IsUnsatisfiable}, Derivation.{propagation, derivation}, Refutation.{numbered, with_clause, after_line, added_in, refusal, contradicts}, Refutation.ProofLine.{Add, Delete}};
ghost use Rattle.mal_check.specs.{Checked.{held, IsSound}, Places.{IsShort, no_places}, CheckAnswers.{Ends, Answers}};

use crate::assumed::has_contradiction;
use crate::effect::{Effect, effect_of};
use crate::fault::CheckFault;
use crate::held::Clauses;
use crate::trues::Trues;
use mal_base::{Clause, ClauseId, ClauseList, Formula, Lit};
use mal_lrat::Line;
use std::alloc::{AllocError, Global};
use std::marker::Model;

/// A checker of LRAT proofs: original clauses, and lines that add clauses or delete them, of which it accepts those
/// that follow. Contracts see the original clauses, the added ones, and what is held under each id; each added clause
/// is entailed by the originals. Ids may be far off: the room that their places take goes by the clauses.
#[derive(Drop)]
pub struct Checker {
    clauses: Clauses,
    trues: Trues,
}

impl Model for Checker {
    ghost use Rattle.std.specs.Prelude.{◌≡◌, []};
    ghost use Rattle.mal_check.specs.{Checked.{Checked, IsSound}, Places.{IsShort}};

    ghost Value = { Checked };

    ghost view = { λ c. c.clauses };

    ghost invariant = { λ c. IsSound c.clauses × (c.trues ≡ []) × IsShort c.clauses.originals c.clauses.added c.clauses.ids };
}

impl Checker {
    /// A checker without clauses. Takes no memory.
    pub fn new(alloc: Global) -> Checker
        ensures { result ≡ record { originals = []; added = []; ids = no_places } }
    {
        Checker {
            clauses: Clauses::new(alloc),
            trues: Trues::new(alloc),
        }
    }

    /// A checker with the clauses of a formula under the ids 1, 2, ..
    pub fn of_formula(alloc: Global, formula: &Formula) -> Result<Checker, AllocError>
        ensures originals { IfOk result (λ c. c.originals ≡ formula.now.clauses) }
        ensures added { IfOk result (λ c. c.added ≡ []) }
        ensures held { IfOk result (λ c. held c ≡ numbered formula.now.clauses) }
        ensures room { IfOk result (λ c. IsShort c.originals c.added c.ids) }
    {
        let clauses = formula.clauses();
        let mut checker = Checker::new(alloc);
        for index in 0..clauses.len() {
            let clause = copy(alloc, clauses, index)?;
            checker.original(ClauseId::original(index as u32 + 1), clause)?;
        }
        Ok(checker)
    }

    /// Adds an original clause, none for a tautology, under an id that is not held. Where memory is refused nothing
    /// changes.
    pub fn original(&mut self, id: ClauseId, clause: Option<Clause>) -> Result<(), AllocError>
        requires { held self.old id ≡ None }
        ensures originals { OnOk result (self.new.originals ≡ self.old.originals ++ clause ∷ []) }
        ensures added { OnOk result (self.new.added ≡ self.old.added) }
        ensures held { OnOk result (held self.new ≡ with_clause (held self.old) id clause) }
        ensures err { OnErr result (self.new ≡ self.old) }
        ensures room { IsShort self.new.originals self.new.added self.new.ids }
    {
        self.clauses.add_original(id, clause)
    }

    /// Takes a line. One that adds is accepted where its id is not held and its clause is derived along its hints (or
    /// is a tautology); an id that is held is `IdUsed`, and then the first hint that refuses is named. One that deletes
    /// is accepted. After a refusal the checker is as before.
    pub fn line(&mut self, line: Line) -> Result<(), CheckFault>
        ensures answer { Answers result (refusal (held self.old) (seen line)) }
        ensures originals { self.new.originals ≡ self.old.originals }
        ensures added { OnOk result (self.new.added ≡ self.old.added ++ added_in (seen line)) }
        ensures held { OnOk result (held self.new ≡ after_line (held self.old) (seen line)) }
        ensures err { OnErr result (self.new ≡ self.old) }
        ensures room { IsShort self.new.originals self.new.added self.new.ids }
        ensures entailed { All (Entails self.new.originals) self.new.added }
    {
        match line {
            Line::Add { id, clause, hints } => self.add(id, clause, hints.as_slice()),
            Line::Delete { ids } => {
                self.clauses.delete(ids.as_slice());
                Ok(())
            }
        }
    }

    /// Takes a line that adds a clause.
    fn add(
        &mut self,
        id: ClauseId,
        clause: Option<Clause>,
        hints: &[ClauseId],
    ) -> Result<(), CheckFault>
        ensures answer { Answers result (refusal (held self.old) (Add id clause hints.now)) }
        ensures originals { self.new.originals ≡ self.old.originals }
        ensures added { OnOk result (self.new.added ≡ self.old.added ++ clause ∷ []) }
        ensures held { OnOk result (held self.new ≡ with_clause (held self.old) id clause) }
        ensures err { OnErr result (self.new ≡ self.old) }
        ensures room { IsShort self.new.originals self.new.added self.new.ids }
        ensures entailed { All (Entails self.new.originals) self.new.added }
    {
        if self.clauses.get(id).is_some() {
            return Err(CheckFault::IdUsed { id });
        }
        derive(&self.clauses, &mut self.trues, &clause, hints)?;
        self.clauses.add(id, clause)?;
        Ok(())
    }

    /// Whether an accepted line added a clause that has negated assumptions alone; the empty clause is one, a tautology
    /// is none, and a clause that was deleted later counts. Then nothing satisfies the original clauses and the
    /// assumptions. Takes no memory.
    pub fn goal(&self, assumptions: &[Lit]) -> bool
        ensures exact { result ≡ list_any (contradicts assumptions.now) self.now.added }
        ensures refuted { IsTrue result → IsUnsatisfiable self.now.originals assumptions.now }
    {
        has_contradiction(assumptions, self.clauses.added())
    }
}

/// The clause at a place, as one of its own.
fn copy(alloc: Global, clauses: &ClauseList, place: usize) -> Result<Option<Clause>, AllocError>
    requires { place < length clauses.now }
    ensures { IfOk result (λ c. c ≡ get_or clauses.now place None) }
{
    match clauses.at(place) {
        None => Ok(None),
        Some(lits) => Clause::of_rising(alloc, lits),
    }
}

/// Whether a clause is derived along hints; no literal is true before and after.
fn derive(
    clauses: &Clauses,
    trues: &mut Trues,
    clause: &Option<Clause>,
    hints: &[ClauseId],
) -> Result<(), CheckFault>
    requires { trues.old ≡ [] }
    ensures end { Ends result (derivation (held clauses.now) clause.now hints.now) }
    ensures trues { trues.new ≡ [] }
{
    match clause {
        None => Ok(()),
        Some(clause) => {
            let end = refute(clauses, trues, clause.lits(), hints);
            trues.clear();
            end
        }
    }
}

/// Whether the hints refute that these literals are false.
fn refute(
    clauses: &Clauses,
    trues: &mut Trues,
    lits: &[Lit],
    hints: &[ClauseId],
) -> Result<(), CheckFault>
    requires { trues.old ≡ [] }
    ensures { Ends result (propagation (held clauses.now) (map negated lits.now) hints.now) }
{
    for lit in lits {
        trues.add(lit.negate())?;
    }
    propagate(clauses, trues, hints)
}

/// Goes through the hints from the literals that are true.
fn propagate(clauses: &Clauses, trues: &mut Trues, hints: &[ClauseId]) -> Result<(), CheckFault>
    ensures { Ends result (propagation (held clauses.now) trues.old hints.now) }
{
    for id in hints {
        let id = *id;
        match clauses.get(id) {
            None => return Err(CheckFault::UnknownHint { id }),
            Some(clause) => match effect_of(trues, clause) {
                Effect::Passes => {}
                Effect::Makes(lit) => trues.add(lit)?,
                Effect::Conflicts => return Ok(()),
                Effect::LeavesMore => return Err(CheckFault::HintNotUnit { id }),
            },
        }
    }
    Err(CheckFault::NoContradiction)
}
