//! A reader of one block: a header and the lines of clauses after it.

ghost use Rattle.std.specs.Prelude.{◌≡◌, ◌+◌, ◌<◌, ◌≤◌, ◌∷◌, ◌++◌, [], true, length, nat_abs, Ok, Err, OnOk, OnErr, IfSome};
ghost use Rattle.mal_base.specs.{Limits.{limits}, Clauses.{rises}, Formulas.{is_clause_of, size_of}};
ghost use Rattle.spec_text.specs.{Inputs.{words_of}, Numbers.{number_in}};
ghost use Rattle.spec_dimacs.specs.{Merged.{clause_of}, Blocks.{IsBlock}, Reading.{Block, after_counted, after_number, after_percent, after_row, after_words, after_zero, closed, code_of, ended, opened}};
ghost use Rattle.mal_text.specs.Numbers.{said_within};
ghost use Rattle.mal_dimacs.specs.{Merged.{merged}, Reads.{Gives, Leaves, after_said}};
ghost use Rattle.mal_base.specs.declared.stage.Stage.TheVariants as stage;
ghost use Rattle.mal_base.specs.declared.{block_fault.BlockFault.TheVariants.{Limit}, limit_kind.LimitKind.TheVariants.{Literals}};
ghost use Rattle.mal_dimacs.specs.declared.fault.DimacsError.TheVariants.{Fault};

use crate::fault::DimacsError;
use crate::header::counts;
use crate::pending::Pending;
use crate::words::{is_comment, literal};
use mal_base::{BlockFault, ClauseList, Formula, LIMITS, LimitKind, Lit, Stage};
use mal_text::{NumberFault, begins_number, first_word, number, number_in_front};
use std::alloc::{AllocError, Global};
use std::marker::Model;

/// A block of which some lines are read: the header, and then lines of clauses. Contracts see the numbers of the
/// header, the clauses that are closed, and the literals that wait for a 0. It is passed by value: after a fault
/// nothing of it is left, so no state has to be described.
#[derive(Drop)]
pub struct BlockReader {
    variables: u32,
    declared: u32,
    clauses: ClauseList,
    found: u64,
    literals: u32,
    pending: Pending,
    stage: Stage,
}

impl Model for BlockReader {
    ghost use Rattle.spec_dimacs.specs.{Blocks.{IsBlock}, Reading.{Block}};

    ghost Value = { Block };

    ghost view = { λ b. record { variables = b.variables; declared = b.declared; clauses = b.clauses; found = b.found; literals = b.literals; pending = b.pending; stage = b.stage } };

    ghost invariant = { λ b. IsBlock
        (record { variables = b.variables; declared = b.declared; clauses = b.clauses; found = b.found; literals = b.literals; pending = b.pending; stage = b.stage }) };
}

impl BlockReader {
    /// The reader after a header line, `p cnf V C` with no more variables and clauses than are served.
    ///
    /// Errors: `BadHeader` for any other words and for negative numbers, then `Limit` for too many variables, and then
    /// for too many clauses.
    pub fn of_header(alloc: Global, line: &[u8]) -> Result<BlockReader, BlockFault>
        ensures { result ≡ opened (words_of line.now) }
    {
        match counts(line) {
            Ok((variables, declared)) => Ok(BlockReader {
                variables,
                declared,
                clauses: ClauseList::new(alloc),
                found: 0,
                literals: 0,
                pending: Pending::new(alloc),
                stage: Stage::Clauses,
            }),
            Err(fault) => Err(fault),
        }
    }

    /// The reader after one more line: a line of numbers, an empty line, a comment, the line `%`, or one that may
    /// stand after it.
    ///
    /// Errors: the first fault of the line by its words from left to right, or `OutOfMemory`.
    pub fn row(self, line: &[u8]) -> Result<BlockReader, DimacsError>
        ensures { Gives result (after_row (words_of line.now) self) }
    {
        let mut reader = self;
        reader.take_row(line)?;
        Ok(reader)
    }

    /// Reads one more line in place: what it leaves is what `row` answers. After an error nothing is said of what is
    /// left.
    pub fn take_row(&mut self, line: &[u8]) -> Result<(), DimacsError>
        ensures { Leaves result self.new (after_row (words_of line.now) self.old) }
    {
        if self.is_at_numbers(line) {
            return self.read_numbers(line);
        }
        self.take_other(line)
    }

    /// Whether a line is one of numbers here, as its first byte tells. One that is not may be one all the same.
    #[tactic(auto, using(crate::proofs::Rows::is_number_row))]
    fn is_at_numbers(&self, line: &[u8]) -> bool
        ensures { result ≡ true → after_row (words_of line.now) self.now ≡ after_words (words_of line.now) self.now }
    {
        match self.stage {
            Stage::Clauses => begins_number(line),
            _ => false,
        }
    }

    /// Reads one more line in place, by its first word.
    fn take_other(&mut self, line: &[u8]) -> Result<(), DimacsError>
        ensures { Leaves result self.new (after_row (words_of line.now) self.old) }
    {
        let Some((first, rest)) = first_word(line) else {
            return Ok(());
        };
        if is_comment(first) {
            return Ok(());
        }
        if first == b"p".as_slice() {
            return Err(DimacsError::Fault(BlockFault::BadHeader));
        }
        self.take_counted(line, first, rest)
    }

    /// Reads a line that counts and does not begin with `p`.
    fn take_counted(&mut self, line: &[u8], first: &[u8], rest: &[u8]) -> Result<(), DimacsError>
        requires { words_of line.now ≡ first.now ∷ words_of rest.now }
        ensures { Leaves result self.new (after_counted self.old.stage first.now (words_of rest.now) self.old) }
    {
        match self.stage {
            Stage::Clauses => self.take_clauses(line, first, rest),
            Stage::Percent => self.take_zero(first, rest),
            Stage::Zero => Err(DimacsError::Fault(BlockFault::Trailing)),
        }
    }

    /// Reads a line of clauses, or the line `%`.
    fn take_clauses(&mut self, line: &[u8], first: &[u8], rest: &[u8]) -> Result<(), DimacsError>
        requires { words_of line.now ≡ first.now ∷ words_of rest.now }
        ensures { Leaves result self.new (after_counted stage.Clauses first.now (words_of rest.now) self.old) }
    {
        if first == b"%".as_slice() {
            self.take_percent(rest)
        } else {
            self.read_numbers(line)
        }
    }

    /// Reads the line `%`, given what stands after that word.
    fn take_percent(&mut self, rest: &[u8]) -> Result<(), DimacsError>
        ensures { Leaves result self.new (after_percent (words_of rest.now) self.old) }
    {
        match first_word(rest) {
            None => {
                self.stage = Stage::Percent;
                Ok(())
            }
            Some(_) => Err(DimacsError::Fault(BlockFault::Trailing)),
        }
    }

    /// Reads the line `0`.
    fn take_zero(&mut self, first: &[u8], rest: &[u8]) -> Result<(), DimacsError>
        ensures { Leaves result self.new (after_zero first.now (words_of rest.now) self.old) }
    {
        match first_word(rest) {
            // Numbers count by value, but after % only the word 0 itself may stand.
            None if first == b"0".as_slice() => {
                self.stage = Stage::Zero;
                Ok(())
            }
            _ => Err(DimacsError::Fault(BlockFault::Trailing)),
        }
    }

    /// Reads the numbers of a line, each in one pass over its bytes as far as they are plainly written, and then word by
    /// word.
    fn read_numbers(&mut self, line: &[u8]) -> Result<(), DimacsError>
        ensures { Leaves result self.new (after_words (words_of line.now) self.old) }
    {
        let mut rest = line;
        while let Some((number, behind)) = self.number_at(rest) {
            self.take_number(number)?;
            rest = behind;
        }
        // Most lines end after their last number.
        if rest.is_empty() {
            return Ok(());
        }
        self.read_words(rest)
    }

    /// The number that a line begins with, where it is plainly written, and the line after it.
    fn number_at<'a>(&self, line: &'a [u8]) -> Option<(i64, &'a [u8])>
        ensures next { IfSome result
            (λ cut. after_words (words_of line.now) self.now
            ≡ after_said (said_within self.now.variables cut.0) (words_of cut.1.now) self.now) }
        ensures shorter { IfSome result (λ cut. length cut.1.now < length line.now) }
    {
        number_in_front(line)
    }

    /// Takes a number, which is a literal or the 0 that closes a clause.
    fn take_number(&mut self, number: i64) -> Result<(), DimacsError>
        ensures { Leaves result self.new (after_number (said_within self.old.variables number) self.old) }
    {
        if number.unsigned_abs() > u64::from(self.variables) {
            return Err(DimacsError::Fault(BlockFault::VarTooLarge));
        }
        match number {
            0 => self.close(),
            number => self.push(number),
        }
    }

    /// Reads words, each of which is a number.
    fn read_words(&mut self, line: &[u8]) -> Result<(), DimacsError>
        ensures { Leaves result self.new (after_words (words_of line.now) self.old) }
    {
        let mut rest = line;
        while let Some((word, behind)) = first_word(rest) {
            self.read_word(word)?;
            rest = behind;
        }
        Ok(())
    }

    /// Reads a word, which is a literal or the 0 that closes a clause.
    fn read_word(&mut self, word: &[u8]) -> Result<(), DimacsError>
        ensures { Leaves result self.new (after_number (number_in word.now self.old.variables) self.old) }
    {
        match number(word, u64::from(self.variables)) {
            Err(NumberFault::NotANumber) => Err(DimacsError::Fault(BlockFault::BadNumber)),
            Err(NumberFault::TooLarge) => Err(DimacsError::Fault(BlockFault::VarTooLarge)),
            Ok(0) => self.close(),
            Ok(number) => self.push(number),
        }
    }

    /// Puts a literal after those that wait for a 0.
    fn push(&mut self, number: i64) -> Result<(), DimacsError>
        requires some { 1 ≤ nat_abs number }
        requires bound { nat_abs number ≤ self.old.variables }
        ensures { Leaves result self.new (Ok (record self.old { pending = self.old.pending ++ code_of number ∷ [] })) }
    {
        self.pending.push(literal(number))?;
        Ok(())
    }

    /// Closes the literals that wait for a 0.
    fn close(&mut self) -> Result<(), DimacsError>
        ensures { Leaves result self.new (closed (clause_of self.old.pending) self.old) }
    {
        let is_clause = self.pending.merge(self.variables);
        self.add(is_clause)
    }

    /// Adds the clause of the literals that wait for a 0, or a tautology, where the limit of the literals allows it. It
    /// is kept where it is one of those declared.
    fn add(&mut self, is_clause: bool) -> Result<(), DimacsError>
        requires { is_clause_of self.old.variables (merged is_clause self.old.pending) ≡ true }
        ensures left { Leaves result self.new (closed (merged is_clause self.old.pending) self.old) }
        // Beyond the limit of literals out of memory is never the answer.
        ensures full { limits.literals < self.old.literals + size_of (merged is_clause self.old.pending)
            → result ≡ Err (Fault (Limit Literals)) }
    {
        let size = size_of(is_clause, self.pending.lits());
        let left = LIMITS.literals - self.literals as usize;
        if size > left {
            return Err(DimacsError::Fault(BlockFault::Limit {
                which: LimitKind::Literals,
            }));
        }
        // Clauses beyond those declared are counted, up to 2^64 - 1, and not kept; they are a fault at the end anyway.
        // Their literals count.
        if self.clauses.len() < self.declared as usize {
            keep(&mut self.clauses, is_clause, self.pending.lits())?;
        }
        self.found = self.found.saturating_add(1);
        self.literals += size as u32;
        self.pending.clear();
        Ok(())
    }

    /// The formula of the whole block.
    ///
    /// Errors: `ClauseCount` where there are not as many clauses as declared, and then `Trailing` where literals wait
    /// for a 0.
    pub fn finish(self) -> Result<Formula, BlockFault>
        ensures { result ≡ ended self }
    {
        if self.found != u64::from(self.declared) {
            return Err(BlockFault::ClauseCount {
                declared: self.declared,
                found: self.found,
            });
        }
        if !self.pending.lits().is_empty() {
            return Err(BlockFault::Trailing);
        }
        match Formula::new(self.variables, self.clauses) {
            Some(formula) => Ok(formula),
            None => unreachable!(),
        }
    }
}

/// The number of the literals of a clause; a tautology counts none.
fn size_of(is_clause: bool, lits: &[Lit]) -> usize
    ensures { result ≡ size_of (merged is_clause lits.now) }
{
    if is_clause { lits.len() } else { 0 }
}

/// Puts the clause of these literals, or a tautology, after the others.
fn keep(clauses: &mut ClauseList, is_clause: bool, lits: &[Lit]) -> Result<(), AllocError>
    requires { is_clause ≡ true → rises lits.now ≡ true }
    ensures ok { OnOk result (clauses.new ≡ clauses.old ++ merged is_clause lits.now ∷ []) }
    ensures err { OnErr result (clauses.new ≡ clauses.old) }
{
    if is_clause {
        clauses.push_rising(lits)
    } else {
        clauses.push_tautology()
    }
}
