//! The counter of the soft literals that are false, after the clauses of a formula.

ghost use Rattle.std.specs.Prelude.{◌≡◌, ◌+◌, ◌-◌, ◌*◌, ◌/◌, ◌<◌, ◌≤◌, false, true, ◌∷◌, ◌++◌, [], length, IfOk, OnOk};
ghost use Rattle.mal_base.specs.Limits.{limits};
ghost use Rattle.mal_base.specs.{Formulas.{is_within}, Literals.{literal}};
ghost use Rattle.spec_max.specs.{Counter.{adds, carries, counted, counter, row, starts, variables_with}, Optimum.{clauses_in}};
ghost use Rattle.mal_max.specs.Seen.{instance};

use mal_base::{ClauseList, Formula, Lit, Var};
use mal_inquiry::copied;
use std::alloc::{AllocError, Global};

/// The clauses of a formula, and after them those of the counter of soft literals, 128 at most, which are of its
/// variables; with the counter's there are at most 65,536.
pub fn with_counter(
    alloc: Global,
    formula: &Formula,
    softs: &[Lit],
) -> Result<ClauseList, AllocError>
    requires within { is_within formula.now.variables softs.now ≡ true }
    requires few { length softs.now ≤ limits.softs }
    requires bound { variables_with formula.now.variables softs.now ≤ limits.variables }
    ensures { IfOk result (λ c. c ≡ clauses_in (instance formula.now softs.now)) }
{
    let mut clauses = copied(alloc, formula.clauses())?;
    push_counter(&mut clauses, formula.variables(), softs)?;
    Ok(clauses)
}

/// Puts the counter of these literals of so many variables after other clauses.
pub fn push_counter(
    clauses: &mut ClauseList,
    variables: u32,
    softs: &[Lit],
) -> Result<(), AllocError>
    requires within { is_within variables softs.now ≡ true }
    requires few { length softs.now ≤ limits.softs }
    requires bound { variables_with variables softs.now ≤ limits.variables }
    ensures { OnOk result (clauses.new ≡ clauses.old ++ counter variables softs.now) }
{
    let Some((first, rest)) = softs.split_first() else {
        return Ok(());
    };
    let counter = Counter::of(variables, softs);
    counter.push_start(clauses, 1, *first)?;
    let mut row = 1;
    for lit in rest {
        counter.push_row(clauses, row, *lit)?;
        row += 1;
    }
    Ok(())
}

/// A counter: how many variables stand before its own, and how many literals it counts. Its outputs are s(i, j), for i
/// and j from 1 to this number: that at least j of the first i literals are false.
#[derive(Clone, Copy)]
pub struct Counter {
    variables: u32,
    count: u32,
    ghost bound: { variables + count * count ≤ limits.variables },
}

impl Counter {
    /// The counter of these literals after so many variables.
    pub fn of(variables: u32, softs: &[Lit]) -> Counter
        requires few { length softs.now ≤ limits.softs }
        requires bound { variables_with variables softs.now ≤ limits.variables }
        ensures variables { result.variables ≡ variables }
        ensures count { result.count ≡ length softs.now }
    {
        Counter {
            variables,
            count: softs.len() as u32,
        }
    }

    /// The last of its variables.
    pub fn last(self) -> u32
        ensures { result ≡ self.variables + self.count * self.count }
    {
        self.variables + self.count * self.count
    }

    /// The literal that says that fewer literals than this are false, 1 to as many as there are.
    pub fn costs_less(self, cost: u32) -> Lit
        requires some { 1 ≤ cost }
        requires bound { cost ≤ self.count }
        ensures { result ≡ literal (counted self.variables self.count self.count cost) false }
    {
        self.output(self.count, cost, false)
    }

    /// The literal of the output s(i, j).
    fn output(self, i: u32, j: u32, positive: bool) -> Lit
        requires some_row { 1 ≤ i }
        requires row_bound { i ≤ self.count }
        requires some { 1 ≤ j }
        requires bound { j ≤ self.count }
        ensures { result ≡ literal (counted self.variables self.count i j) positive }
    {
        Var::of(self.variables + (i - 1) * self.count + j).literal(positive)
    }

    /// Puts the clause `lit s(i, 1)` after others.
    fn push_start(self, clauses: &mut ClauseList, i: u32, lit: Lit) -> Result<(), AllocError>
        requires some_row { 1 ≤ i }
        requires row_bound { i ≤ self.count }
        requires within { lit / 2 ≤ self.variables }
        ensures { OnOk result (clauses.new ≡ clauses.old ++ starts self.variables self.count i lit ∷ []) }
    {
        clauses.push_rising(&[lit, self.output(i, 1, true)])
    }

    /// Puts the clauses `-s(i, j) s(i + 1, j)` after others.
    fn push_carries(self, clauses: &mut ClauseList, i: u32) -> Result<(), AllocError>
        requires some_row { 1 ≤ i }
        requires row_bound { i < self.count }
        ensures { OnOk result (clauses.new ≡ clauses.old ++ carries self.variables self.count i 1 self.count) }
    {
        for j in 1..self.count + 1 {
            clauses.push_rising(&[self.output(i, j, false), self.output(i + 1, j, true)])?;
        }
        Ok(())
    }

    /// Puts the clauses `lit -s(i, j) s(i + 1, j + 1)` after others.
    fn push_adds(self, clauses: &mut ClauseList, i: u32, lit: Lit) -> Result<(), AllocError>
        requires some_row { 1 ≤ i }
        requires row_bound { i < self.count }
        requires within { lit / 2 ≤ self.variables }
        ensures { OnOk result (clauses.new ≡ clauses.old ++ adds self.variables self.count i lit 1 (self.count - 1)) }
    {
        for j in 1..self.count {
            let output = self.output(i + 1, j + 1, true);
            clauses.push_rising(&[lit, self.output(i, j, false), output])?;
        }
        Ok(())
    }

    /// Puts row i + 1, that of this literal, after others.
    fn push_row(self, clauses: &mut ClauseList, i: u32, lit: Lit) -> Result<(), AllocError>
        requires some_row { 1 ≤ i }
        requires row_bound { i < self.count }
        requires within { lit / 2 ≤ self.variables }
        ensures { OnOk result (clauses.new ≡ clauses.old ++ row self.variables self.count i lit) }
    {
        self.push_start(clauses, i + 1, lit)?;
        self.push_carries(clauses, i)?;
        self.push_adds(clauses, i, lit)
    }
}
