//! Lists of clauses.

ghost use Rattle.std.specs.Prelude.{◌≡◌, ◌+◌, ◌-◌, ◌<◌, ◌≤◌, ◌↔◌, [], ◌∷◌, ◌++◌, length, take, drop, get_or, slice_get, is_none, true, IsTrue, IfOk, OnOk, OnErr, IfSome, MatchOption, Some, None};
ghost use Rattle.mal_base.specs.{Clauses.{rises}, Formulas.{literals_of}};

use crate::clause::Clause;
use crate::literal::Lit;
use crate::room::grown;
use std::alloc::{AllocError, Global};
use std::marker::Model;

/// So many literals there may be.
const MOST: usize = 2_147_483_647;

/// Clauses in their order; None stands for a tautology. The literals of all stand side by side in one list, and of each
/// clause is kept twice the place where its literals end, and one more where it is a tautology. Contracts see the
/// clauses.
#[derive(Drop)]
pub struct ClauseList {
    literals: Vec<Lit>,
    marks: Vec<u32>,
}

impl Model for ClauseList {
    ghost use Rattle.std.specs.Prelude.{ℕ, List, Option};
    ghost use Rattle.mal_base.specs.ClauseLists.{IsLaid, read};

    ghost Value = { List (Option (List ℕ)) };

    ghost view = { λ c. read 0 c.literals.items c.marks.items };

    ghost invariant = { λ c. IsLaid c.literals.items c.marks.items (read 0 c.literals.items c.marks.items) };
}

impl ClauseList {
    /// No clause. Takes no memory.
    pub fn new(alloc: Global) -> ClauseList
        ensures { result ≡ [] }
    {
        ClauseList {
            literals: Vec::new(alloc),
            marks: Vec::new(alloc),
        }
    }

    /// Puts a clause after the others.
    pub fn push(&mut self, clause: &Option<Clause>) -> Result<(), AllocError>
        ensures ok { OnOk result (self.new ≡ self.old ++ clause.now ∷ []) }
        ensures err { OnErr result (self.new ≡ self.old) }
    {
        match clause {
            None => self.push_tautology(),
            Some(clause) => self.push_rising(clause.lits()),
        }
    }

    /// Puts a tautology after the others.
    pub fn push_tautology(&mut self) -> Result<(), AllocError>
        ensures ok { OnOk result (self.new ≡ self.old ++ None ∷ []) }
        ensures err { OnErr result (self.new ≡ self.old) }
    {
        self.marks.reserve(1)?;
        self.marks.push_reserved(2 * self.literals.len() as u32 + 1);
        Ok(())
    }

    /// Puts the clause of these literals, whose variables rise strictly, after the others. A list holds fewer than 2^31
    /// literals: a clause beyond them is told as out of memory.
    pub fn push_rising(&mut self, lits: &[Lit]) -> Result<(), AllocError>
        requires { rises lits.now ≡ true }
        ensures ok { OnOk result (self.new ≡ self.old ++ Some lits.now ∷ []) }
        ensures err { OnErr result (self.new ≡ self.old) }
    {
        grown(self.literals.len(), lits.len(), MOST)?;
        self.marks.reserve(1)?;
        self.literals.extend_from_slice(lits)?;
        self.marks.push_reserved(2 * self.literals.len() as u32);
        Ok(())
    }

    /// The number of clauses.
    pub fn len(&self) -> usize
        ensures { result ≡ length self.now }
    {
        self.marks.len()
    }

    /// The number of the literals of the clauses; a tautology counts none.
    pub fn literals(&self) -> usize
        ensures { result ≡ literals_of self.now }
    {
        self.literals.len()
    }

    /// The literals of the clause at a place, counted from 0, by strictly rising variable. None for a tautology.
    pub fn at(&self, place: usize) -> Option<&[Lit]>
        requires { place < length self.now }
        ensures value { MatchOption result (slice_get self.now place ≡ Some None)
            (λ lits. slice_get self.now place ≡ Some (Some lits.now)) }
        ensures rising { IfSome result (λ lits. rises lits.now ≡ true) }
    {
        if self.is_tautology(place) {
            return None;
        }
        let (start, end) = (self.start_of(place), self.end_of(place));
        Some(part(self.literals.as_slice(), start, end))
    }

    /// Whether a tautology stands at a place, counted from 0.
    fn is_tautology(&self, place: usize) -> bool
        requires { place < length self.now }
        ensures { result ≡ is_none (get_or self.now place None) }
    {
        self.marks[place] % 2 == 1
    }

    /// Where the literals of the clause at a place begin.
    fn start_of(&self, place: usize) -> usize
        requires { place < length self.now }
        ensures { result ≡ literals_of (take place self.now) }
    {
        if place == 0 {
            return 0;
        }
        self.end_of(place - 1)
    }

    /// Where the literals of the clause at a place end.
    fn end_of(&self, place: usize) -> usize
        requires { place < length self.now }
        ensures { result ≡ literals_of (take (place + 1) self.now) }
    {
        (self.marks[place] / 2) as usize
    }

    /// Whether the other list has the same clauses in the same order.
    pub fn same(&self, other: &ClauseList) -> bool
        ensures { IsTrue result ↔ (self.now ≡ other.now) }
    {
        have_same(self.marks.as_slice(), other.marks.as_slice())
            && Lit::are_same(self.literals.as_slice(), other.literals.as_slice())
    }
}

/// The literals from a place to another.
fn part(literals: &[Lit], start: usize, end: usize) -> &[Lit]
    requires order { start ≤ end }
    requires within { end ≤ length literals.now }
    ensures { result.now ≡ take (end - start) (drop start literals.now) }
{
    &literals[start..end]
}

/// Whether these are the same marks in the same order.
fn have_same(marks: &[u32], others: &[u32]) -> bool
    ensures { IsTrue result ↔ (marks.now ≡ others.now) }
{
    marks == others
}
