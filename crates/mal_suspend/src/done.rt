//! What came of a lease.

ghost use Rattle.std.specs.Prelude.{◌≡◌, ◌≤◌, [], None, vec_capacity, IfOk, IfErr};
ghost use Rattle.mal_base.specs.declared.verdict.Outcome.TheVariants.{Ran, Starved};
ghost use Rattle.spec_job.specs.{Journaled.{replayed, node_of}, Leased.{Tells, model_with}};
ghost use Rattle.mal_suspend.specs.Kept.{journal_of, is_gone, outcome_by};

use crate::journal::Journal;
use crate::kept::{Kept, cooled};
use crate::suspended::{Solver, Suspended};
use crate::warm::Warm;
use mal_base::{Lines, Outcome, Values, Verdict};
use mal_learn::{Scratch, packed};
use std::alloc::AllocError;
use std::marker::Model;

/// What came of a lease: the worker, how the start ended, and what is kept of the node; of a start that ran also the
/// lines of its slice, the verdict and the model. Contracts see them; the type keeps that they are those of the
/// journal's last slice. A start that did not run has the error with which memory for it was refused. What is kept of a
/// node that ran is its image where that is no longer than `FROZEN_BYTES`; else it says why not.
#[derive(Drop)]
pub struct Done {
    worker: u32,
    cause: Option<AllocError>,
    kept: Kept,
    warm: Option<Warm>,
    lines: Lines,
    verdict: Option<Verdict>,
    values: Values,
}

impl Model for Done {
    ghost use Rattle.mal_suspend.specs.Kept.{finished, outcome_by, IsCooledAfter};
    ghost use Rattle.spec_job.specs.Leased.{Finished, Tells};

    ghost Value = { Finished };

    ghost view = { λ d. finished d.worker (outcome_by d.cause) d.kept d.lines.lines d.verdict d.values };

    ghost invariant = { λ d. Tells (outcome_by d.cause)
        (finished d.worker (outcome_by d.cause) d.kept d.lines.lines d.verdict d.values)
        × IsCooledAfter (outcome_by d.cause) d.kept d.warm };
}

impl Done {
    /// A start that ran: the node with the lines of its slice, its journal, and an empty list with room for the values
    /// of a model. The node is frozen where that is cheap and memory for it is there.
    pub fn ran(worker: u32, mut node: Solver, journal: Journal, values: Vec<bool>) -> Done
        requires node { node.state ≡ node_of journal }
        requires lines { node.lines ≡ (replayed journal).lines }
        requires empty { values.items ≡ [] }
        requires room { (node_of journal).variables ≤ vec_capacity values }
        ensures worker { result.worker ≡ worker }
        ensures outcome { result.outcome ≡ Ran }
        ensures journal { result.journal ≡ journal }
    {
        let lines = node.take_lines();
        let values = with_model(&node, values);
        let verdict = node.verdict();
        let (kept, warm) = cooled(Suspended::of(node, journal));
        Done {
            worker,
            cause: None,
            kept,
            warm,
            lines,
            verdict,
            values,
        }
    }

    /// A start that ran out of memory, with the error that says so. Takes no memory.
    pub fn starved(worker: u32, kept: Kept, cause: AllocError) -> Done
        ensures worker { result.worker ≡ worker }
        ensures outcome { result.outcome ≡ Starved }
        ensures journal { result.journal ≡ journal_of kept }
        ensures gone { result.gone ≡ is_gone kept }
    {
        let alloc = kept.journal().allocator();
        Done {
            worker,
            cause: Some(cause),
            kept,
            warm: None,
            lines: Lines::new(alloc),
            verdict: None,
            values: Values::of(Vec::new(alloc)),
        }
    }

    /// The worker.
    pub fn worker(&self) -> u32
        ensures { result ≡ self.now.worker }
    {
        self.worker
    }

    /// How the start ended: it ran, or it ran out of memory.
    pub fn outcome(&self) -> Outcome
        ensures value { result ≡ self.now.outcome }
        ensures tells { Tells self.now.outcome self.now }
    {
        match self.cause {
            None => Outcome::Ran,
            Some(_) => Outcome::Starved,
        }
    }

    /// What is kept of the node.
    pub fn kept(&self) -> &Kept
        ensures journal { journal_of result.now ≡ self.now.journal }
        ensures gone { is_gone result.now ≡ self.now.gone }
    {
        &self.kept
    }

    /// The journal of the node.
    pub fn journal(&self) -> &Journal
        ensures { result.now ≡ self.now.journal }
    {
        self.kept.journal()
    }

    /// The lines of the slice; none where memory ran out.
    pub fn lines(&self) -> &Lines
        ensures value { result.now.lines ≡ self.now.lines }
        ensures tells { Tells self.now.outcome self.now }
    {
        &self.lines
    }

    /// The verdict of the slice. None where memory ran out, and where the slice ended without one.
    pub fn verdict(&self) -> Option<Verdict>
        ensures value { result ≡ self.now.verdict }
        ensures tells { Tells self.now.outcome self.now }
    {
        self.verdict
    }

    /// The values of the variables, from variable 1 on, where the verdict is satisfiable; none otherwise.
    pub fn model(&self) -> &[bool]
        ensures value { result.now ≡ self.now.model }
        ensures tells { Tells self.now.outcome self.now }
    {
        self.values.as_slice()
    }

    /// The same, with the lines in no more room than they need where memory for that is there; a scratch keeps the room
    /// that they had, for the next slice.
    pub fn packed(self, scratch: &mut Scratch) -> Done
        ensures { result ≡ self }
    {
        let alloc = self.kept.journal().allocator();
        Done {
            worker: self.worker,
            cause: self.cause,
            kept: self.kept,
            warm: self.warm,
            lines: packed(alloc, self.lines, scratch),
            verdict: self.verdict,
            values: self.values,
        }
    }

    /// The same where the start ran, else the error with which it ran out of memory.
    pub fn into_ran(self) -> Result<Done, AllocError>
        ensures same { IfOk result (λ d. d ≡ self) }
        ensures ran { IfOk result (λ d. d.outcome ≡ Ran) }
        ensures starved { IfErr result (λ _. self.outcome ≡ Starved) }
    {
        match self.cause {
            None => Ok(self),
            Some(cause) => {
                // For the proof.
                drop(self);
                Err(cause)
            }
        }
    }

    /// Gives away what is kept of the node.
    pub fn into_kept(self) -> Kept
        ensures journal { journal_of result ≡ self.journal }
        ensures gone { is_gone result ≡ self.gone }
    {
        // For the proof.
        drop(self.lines);
        drop(self.values);
        self.kept
    }

    /// Gives away what is kept of the node, the lines and the values of the model. Takes no memory.
    pub fn into_parts(self) -> (Kept, Lines, Values)
        ensures journal { journal_of result.0 ≡ self.journal }
        ensures gone { is_gone result.0 ≡ self.gone }
        ensures lines { result.1.lines ≡ self.lines }
        ensures model { result.2 ≡ self.model }
        ensures tells { Tells self.outcome self }
    {
        (self.kept, self.lines, self.values)
    }
}

/// The model that goes with a node's verdict, in an empty list with room for it. Takes no memory.
fn with_model(node: &Solver, mut values: Vec<bool>) -> Values
    requires empty { values.items ≡ [] }
    requires room { node.now.state.variables ≤ vec_capacity values }
    ensures { result ≡ model_with node.now.state.verdict node.now.state }
{
    match node.verdict() {
        None => {}
        Some(verdict) => match verdict {
            Verdict::Satisfiable => node.model(&mut values),
            Verdict::Unsatisfiable { .. } => {}
        },
    }
    Values::of(values)
}
