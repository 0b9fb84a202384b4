//! What a solver answered.

ghost use Rattle.std.specs.Prelude.{◌≡◌, ◌↔◌, IsTrue, MatchOption, Some, None, [], Contains};
ghost use Rattle.mal_solving.specs.Answers.{answer_of, stage_of, value_in, failed_in, lines_of};
ghost use Rattle.spec_solving.specs.Solving.Answer.{Open, Unknown, Model, Core};

use mal_base::{Lines, Lit};
use std::alloc::Global;
use std::marker::Model;

/// How far an answer is.
#[derive(Clone, Copy, Debug, PartialEq, Eq, Drop)]
pub enum Stage {
    /// Nothing was asked since the last input.
    Open,
    /// It was asked, and the search has not ended.
    Unknown,
    /// Satisfiable.
    Model,
    /// Unsatisfiable.
    Core,
}

/// An answer: how far it is, with the values of the variables in rising order, or with the assumptions that failed and
/// the lines of a refutation where proofs are kept.
#[derive(Drop)]
pub struct Answer {
    stage: Stage,
    values: Vec<bool>,
    failed: Vec<Lit>,
    lines: Lines,
}

impl Model for Answer {
    ghost use Rattle.spec_solving.specs.Solving.{Answer};
    ghost use Rattle.mal_solving.specs.Answers.{answer_of};

    ghost Value = { Answer };

    ghost view = { λ a. answer_of a.stage a.values.items a.failed.items a.lines.lines };
}

impl Answer {
    /// An answer that has neither values nor lines. Takes no memory.
    fn empty(alloc: Global, stage: Stage) -> Answer
        ensures { result ≡ answer_of stage [] [] [] }
    {
        Answer {
            stage,
            values: Vec::new(alloc),
            failed: Vec::new(alloc),
            lines: Lines::new(alloc),
        }
    }

    /// Nothing was asked yet. Takes no memory.
    pub(crate) fn open(alloc: Global) -> Answer
        ensures { result ≡ Open }
    {
        Answer::empty(alloc, Stage::Open)
    }

    /// It was asked. Takes no memory.
    pub(crate) fn unknown(alloc: Global) -> Answer
        ensures { result ≡ Unknown }
    {
        Answer::empty(alloc, Stage::Unknown)
    }

    /// Satisfiable, with these values.
    pub(crate) fn model(alloc: Global, values: Vec<bool>) -> Answer
        ensures { result ≡ Model values.items }
    {
        Answer {
            stage: Stage::Model,
            values,
            failed: Vec::new(alloc),
            lines: Lines::new(alloc),
        }
    }

    /// Unsatisfiable, with these failed assumptions and these lines.
    pub(crate) fn core(alloc: Global, failed: Vec<Lit>, lines: Lines) -> Answer
        ensures { result ≡ Core failed.items lines.lines }
    {
        Answer {
            stage: Stage::Core,
            values: Vec::new(alloc),
            failed,
            lines,
        }
    }

    /// How far it is.
    pub fn stage(&self) -> Stage
        ensures { result ≡ stage_of self.now }
    {
        self.stage
    }

    /// Whether a literal is true in the model. None where there is no model, or its variable has no value in it.
    pub fn value(&self, lit: Lit) -> Option<bool>
        ensures { result ≡ value_in lit self.now }
    {
        if self.stage != Stage::Model {
            return None;
        }
        let value = self.values.get(lit.var().number() as usize - 1)?;
        Some(if lit.is_positive() { *value } else { !*value })
    }

    /// Whether a literal is one of the failed assumptions.
    pub fn has_failed(&self, lit: Lit) -> bool
        ensures { result ≡ failed_in lit self.now }
    {
        self.stage == Stage::Core && self.failed.contains(&lit)
    }

    /// The lines of the refutation, numbered after the clauses: none without one, or where proofs are not kept.
    pub fn lines(&self) -> Option<&Lines>
        ensures { MatchOption result (lines_of self.now ≡ []) (λ lines. lines_of self.now ≡ lines.now.lines) }
    {
        if self.stage == Stage::Core {
            Some(&self.lines)
        } else {
            None
        }
    }
}
