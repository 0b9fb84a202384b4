//! The calls of C on a solver: numbers in place of literals, answers and causes.

ghost use Rattle.std.specs.Prelude.{◌≡◌, ◌≢◌, [], length, slice_get, is_none, Some, MatchOption};
ghost use Rattle.spec_solving.specs.{Solving.{Promises}, Calls.{IsBegun}};
ghost use Rattle.spec_solving.specs.declared.refusal.Refusal.TheVariants.{OpenClause};
ghost use Rattle.mal_solving.specs.Answers.{lines_of};
ghost use Rattle.mal_c.specs.Calls.{IsAdded, IsAssumed};
ghost use Rattle.mal_c.specs.Numbers.{literal_of, value_of, failed_of, status_of, number_of_cause, numbers_of, laid};

use crate::lines::write_line;
use mal_base::Lit;
use mal_solving::{Solver, Stage};
use spec_solving::Refusal;

/// The literal of a number.
fn literal(number: i32) -> Option<Lit>
    ensures { result ≡ literal_of number }
{
    Lit::of_dimacs(number)
}

/// Puts a literal into the open clause, or ends it by 0.
pub fn add(solver: &mut Solver, number: i32)
    ensures { IsAdded number solver.old solver.new }
{
    if number == 0 {
        solver.end_clause();
        return;
    }
    match literal(number) {
        Some(lit) => solver.add(lit),
        None => solver.refuse(Refusal::NoLiteral),
    }
}

/// Assumes a literal for the next answer.
pub fn assume(solver: &mut Solver, number: i32)
    ensures { IsAssumed number solver.old solver.new }
{
    match literal(number) {
        Some(lit) => solver.assume(lit),
        None => solver.refuse(Refusal::NoLiteral),
    }
}

/// Asks for an answer. True where it is asked for then, false where an input was refused, as an open clause is here.
pub fn begin(solver: &mut Solver) -> bool
    ensures begun { IsBegun solver.old solver.new }
    ensures ready { result ≡ is_none solver.new.refused }
    ensures promises { Promises solver.new.proving solver.new.clauses solver.new.assumed solver.new.answer }
    ensures cause { solver.new.refused ≡ Some OpenClause → solver.old.refused ≢ Some OpenClause → solver.old.open_clause ≢ [] }
{
    solver.begin();
    match solver.stage() {
        Stage::Open => false,
        Stage::Unknown | Stage::Model | Stage::Core => true,
    }
}

/// How far it is: 10 for a model, 20 for failed assumptions, 0 while there is neither, -1 where an input was refused.
pub fn status(solver: &Solver) -> i32
    ensures { result ≡ status_of solver.now }
{
    match solver.refusal() {
        Some(_) => -1,
        None => match solver.stage() {
            Stage::Open | Stage::Unknown => 0,
            Stage::Model => 10,
            Stage::Core => 20,
        },
    }
}

/// The number of a literal that is true in the model, its negation where it is false, 0 where it has no value.
pub fn value(solver: &Solver, number: i32) -> i32
    ensures { result ≡ value_of number solver.now.answer }
{
    match literal(number) {
        None => 0,
        Some(lit) => match solver.value(lit) {
            None => 0,
            Some(true) => number,
            Some(false) => -number,
        },
    }
}

/// Whether the literal of a number failed.
pub fn has_failed(solver: &Solver, number: i32) -> bool
    ensures { result ≡ failed_of number solver.now.answer }
{
    match literal(number) {
        None => false,
        Some(lit) => solver.has_failed(lit),
    }
}

/// Why an input was refused, as a number from 1 on. 0 where none was.
pub fn cause(solver: &Solver) -> u32
    ensures { result ≡ number_of_cause solver.now.refused }
{
    match solver.refusal() {
        None => 0,
        Some(Refusal::NoLiteral) => 1,
        Some(Refusal::OpenClause) => 2,
        Some(Refusal::Limit) => 3,
        Some(Refusal::OutOfMemory) => 4,
    }
}

/// How many lines the refutation has.
pub fn lines(solver: &Solver) -> usize
    ensures { result ≡ length (lines_of solver.now.answer) }
{
    match solver.lines() {
        None => 0,
        Some(lines) => lines.count(),
    }
}

/// Writes a line of the refutation, as far as there is room, and tells how many numbers it has. 0 where there is no
/// such line.
pub fn line(solver: &Solver, n: usize, out: &mut [i64]) -> usize
    ensures { MatchOption (slice_get (lines_of solver.now.answer) n)
        ((result ≡ 0) × (out.new ≡ out.old))
        (λ line. (result ≡ length (numbers_of line)) × (out.new ≡ laid 0 (numbers_of line) out.old)) }
{
    match solver.lines() {
        None => 0,
        Some(lines) => {
            if n < lines.count() {
                write_line(lines, n, out)
            } else {
                0
            }
        }
    }
}
