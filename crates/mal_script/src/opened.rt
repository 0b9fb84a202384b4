//! A job that has begun and not ended.

ghost use Rattle.std.specs.Prelude.{◌≡◌, ◌+◌, ◌≤◌, ◌∷◌, length, true, is_some, Some, Ok, IfOk};
ghost use Rattle.mal_base.specs.{Limits.{limits}, Clauses.{rises}, Formulas.{is_formula, is_within, literals_of}};
ghost use Rattle.spec_text.specs.Inputs.{words_of};
ghost use Rattle.spec_script.specs.{Assumptions.{assumptions_in}, Reading.{begun, after_header, revised, after_assumptions, after_weight, with_revision, with_weight, unended}};
ghost use Rattle.mal_script.specs.{InPlace.{between, in_block_of, in_its_block}, ReadResult.{Fails, Gives, Leaves}};

use crate::asks::weight_in;
use crate::assuming::assumptions_in;
use crate::blocks;
use crate::fault::LineRefusal;
use crate::script::ScriptJob;
use mal_base::{Ask, Formula, LIMITS, LimitKind, Limits, LineFault, Lit, Name, Weight};
use mal_dimacs::BlockReader;
use mal_revision::Revision;
use spec_script::Step;
use std::alloc::Global;
use std::marker::Model;
use std::mem;

/// A line that has a word, split there: its first word, and what is after it.
#[derive(Clone, Copy)]
pub struct SplitLine<'a> {
    pub line: &'a [u8],
    pub first: &'a [u8],
    pub others: &'a [u8],
}

/// A job that has begun and not ended: what was read of it, the number of its revisions, their clauses and literals, and
/// its block that has begun and not ended. Contracts see all but the number, which the steps say.
#[derive(Drop)]
pub struct OpenJob {
    job: ScriptJob,
    posted: usize,
    clauses: usize,
    literals: usize,
    block: Option<BlockReader>,
}

impl Model for OpenJob {
    ghost use Rattle.std.specs.Prelude.{◌≡◌, ◌≤◌, length};
    ghost use Rattle.mal_base.specs.Limits.{limits};
    ghost use Rattle.spec_script.specs.Reading as reading;
    ghost use Rattle.spec_script.specs.Script.{revisions};

    ghost Value = { reading.OpenJob };

    ghost view = { λ o. record { job = o.job; clauses = o.clauses; literals = o.literals; block = o.block } };

    ghost invariant = { λ o. (o.posted ≡ length (revisions o.job)) × (o.clauses ≤ limits.clauses) × (o.literals ≤ limits.literals) };
}

impl OpenJob {
    /// The job of a tenant that begins.
    pub fn begin(alloc: Global, tenant: Name, name: Name, ask: Ask) -> OpenJob
        ensures { result ≡ begun tenant name ask }
    {
        OpenJob {
            job: ScriptJob::new(tenant, name, ask, Vec::new(alloc)),
            posted: 0,
            clauses: 0,
            literals: 0,
            block: None,
        }
    }

    /// With this block in place of its own.
    fn set_block(&mut self, block: Option<BlockReader>)
        ensures { self.new ≡ record self.old { block = block } }
    {
        drop(mem::replace(&mut self.block, block));
    }

    /// Reads the header of a block, which is this line. Takes no memory.
    fn take_header(&mut self, limits: Limits, line: &[u8]) -> Result<(), LineRefusal>
        ensures { Leaves result self.new (after_header limits (words_of line.now) self.old) }
    {
        if self.posted >= limits.revisions {
            return Err(LineRefusal::Fault(LineFault::Limit {
                which: LimitKind::Revisions,
            }));
        }
        match blocks::opened(self.job.allocator(), line) {
            Ok(block) => {
                self.set_block(Some(block));
                Ok(())
            }
            Err(fault) => Err(LineRefusal::Fault(fault)),
        }
    }

    /// What is refused where the text ends in this job.
    pub fn unended(self) -> LineRefusal
        ensures { Fails result (unended self.block) }
    {
        let OpenJob { job, block, .. } = self;
        drop(job);
        match block {
            None => LineRefusal::Fault(LineFault::BadLine),
            Some(block) => unended(block),
        }
    }

    /// Puts one revision more, which has so many literals, in place of its block.
    fn add_revision(
        &mut self,
        formula: Formula,
        literals: usize,
        assumptions: &[Lit],
    ) -> Result<(), LineRefusal>
        requires count { literals ≡ literals_of formula.clauses }
        requires clauses { self.old.clauses + length formula.clauses ≤ limits.clauses }
        requires literals { self.old.literals + literals ≤ limits.literals }
        requires form { is_formula formula ≡ true }
        requires rising { rises assumptions.now ≡ true }
        requires within { is_within formula.variables assumptions.now ≡ true }
        ensures { Leaves result self.new (Ok (with_revision self.old formula assumptions.now)) }
    {
        // No memory holds more revisions than a number of this size says.
        let Some(posted) = self.posted.checked_add(1) else {
            drop(formula);
            return Err(LineRefusal::OutOfMemory);
        };
        let clauses = self.clauses + formula.clauses().len();
        let literals = self.literals + literals;
        let revision = revision_of(self.job.allocator(), formula, assumptions)?;
        self.job.push(Step::Revise(revision))?;
        self.posted = posted;
        self.clauses = clauses;
        self.literals = literals;
        self.set_block(None);
        Ok(())
    }

    /// Reads a revision of this formula under these assumptions.
    fn take_revision(&mut self, formula: Formula, assumptions: &[Lit]) -> Result<(), LineRefusal>
        requires rising { rises assumptions.now ≡ true }
        requires within { is_within formula.variables assumptions.now ≡ true }
        ensures { Leaves result self.new (revised self.old formula assumptions.now) }
    {
        let literals = formula.literals() as usize;
        if self.clauses + formula.clauses().len() > LIMITS.clauses {
            drop(formula);
            return Err(LineRefusal::Fault(LineFault::Limit {
                which: LimitKind::Clauses,
            }));
        }
        if self.literals + literals > LIMITS.literals {
            drop(formula);
            return Err(LineRefusal::Fault(LineFault::Limit {
                which: LimitKind::Literals,
            }));
        }
        self.add_revision(formula, literals, assumptions)
    }

    /// Reads the words after the `a` of the line that ends this block.
    fn take_assumptions(&mut self, words: &[u8], block: BlockReader) -> Result<(), LineRefusal>
        ensures { Leaves result self.new (after_assumptions (words_of words.now) self.old block) }
    {
        // The faults of the block's end come before the line's own.
        let formula = match blocks::ended(block) {
            Ok(formula) => formula,
            Err(fault) => return Err(LineRefusal::Fault(fault)),
        };
        match assumed(self.job.allocator(), words, formula.variables()) {
            Ok(assumptions) => self.take_revision(formula, assumptions.as_slice()),
            Err(refusal) => {
                drop(formula);
                Err(refusal)
            }
        }
    }

    /// Reads a line in its block, which is its first word and the others. Without a block nothing is changed.
    pub fn take_in_block(&mut self, split: SplitLine) -> Result<(), LineRefusal>
        requires { words_of split.line.now ≡ split.first.now ∷ words_of split.others.now }
        ensures { Leaves
            result self.new
            (in_its_block split.entry.first.now (words_of split.entry.others.now) self.old self.old.block) }
    {
        if split.first == b"a".as_slice() {
            return match self.block.take() {
                None => Ok(()),
                Some(block) => self.take_assumptions(split.others, block),
            };
        }
        self.take_numbers(split.line)
    }

    /// Whether a block has begun and not ended.
    pub fn has_block(&self) -> bool
        ensures { result ≡ is_some self.now.block }
    {
        self.block.is_some()
    }

    /// Reads a line of numbers of its block in place. Without a block nothing is changed.
    pub fn take_numbers(&mut self, line: &[u8]) -> Result<(), LineRefusal>
        ensures { Leaves result self.new (in_block_of (words_of line.now) self.old self.old.block) }
    {
        if let Some(block) = &mut self.block {
            return blocks::take_row(block, line);
        }
        Ok(())
    }

    /// Puts one more change of what it asks for in place of its block.
    fn add_weight(&mut self, weight: Weight) -> Result<(), LineRefusal>
        ensures { Leaves result self.new (Ok (with_weight self.old weight)) }
    {
        self.job.push(Step::Reask(weight))?;
        self.set_block(None);
        Ok(())
    }

    /// Reads the words after the `q` of a line that changes what the job asks for.
    fn take_weight(&mut self, words: &[u8]) -> Result<(), LineRefusal>
        ensures { Leaves result self.new (after_weight (words_of words.now) self.old) }
    {
        match weight_in(words) {
            Ok(weight) => self.add_weight(weight),
            Err(fault) => Err(LineRefusal::Fault(fault)),
        }
    }

    /// Reads a line in no block that does not end the job, which is its first word and the others.
    pub fn take_between(&mut self, limits: Limits, split: SplitLine) -> Result<(), LineRefusal>
        requires { words_of split.line.now ≡ split.first.now ∷ words_of split.others.now }
        ensures { Leaves
            result self.new
            (between limits split.entry.first.now (words_of split.entry.others.now) self.old) }
    {
        if split.first == b"p".as_slice() {
            return self.take_header(limits, split.line);
        }
        if split.first == b"q".as_slice() {
            return self.take_weight(split.others);
        }
        Err(LineRefusal::Fault(LineFault::BadLine))
    }

    /// What was read of the job.
    pub fn job(&self) -> &ScriptJob
        ensures { result.now ≡ self.now.job }
    {
        &self.job
    }

    /// The job, without its block.
    pub fn into_job(self) -> ScriptJob
        ensures { result ≡ self.job }
    {
        let OpenJob { job, block, .. } = self;
        drop(block);
        job
    }
}

/// The revision of this formula under these assumptions.
fn revision_of(
    alloc: Global,
    formula: Formula,
    assumptions: &[Lit],
) -> Result<Revision, LineRefusal>
    requires form { is_formula formula ≡ true }
    requires rising { rises assumptions.now ≡ true }
    requires within { is_within formula.variables assumptions.now ≡ true }
    ensures { Gives
        (λ r. r) result
        (Ok (record {
          variables = formula.variables;
          clauses = formula.clauses;
          assumptions = assumptions.now;
        })) }
{
    let variables = formula.variables();
    match Revision::new(alloc, variables, formula.into_clauses(), assumptions) {
        Ok(revision) => Ok(revision),
        Err(_) => Err(LineRefusal::OutOfMemory),
    }
}

/// What is refused where the text ends in this block: its fault, or else that it has no line of assumptions.
fn unended(block: BlockReader) -> LineRefusal
    ensures { Fails result (unended (Some block)) }
{
    match blocks::ended(block) {
        Ok(_formula) => LineRefusal::Fault(LineFault::BadLine),
        Err(fault) => LineRefusal::Fault(fault),
    }
}

/// The assumptions of these words, the fault as that of their line.
fn assumed(alloc: Global, words: &[u8], variables: u32) -> Result<Vec<Lit>, LineRefusal>
    requires { variables ≤ limits.variables }
    ensures value { Gives (λ v. v.items) result (assumptions_in variables (words_of words.now)) }
    ensures rising { IfOk result (λ v. rises v.items ≡ true) }
    ensures within { IfOk result (λ v. is_within variables v.items ≡ true) }
{
    match assumptions_in(alloc, words, variables) {
        Ok(assumptions) => Ok(assumptions),
        Err(fault) => Err(fault.refusal()),
    }
}
