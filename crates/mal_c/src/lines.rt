//! The lines of a refutation as numbers.

ghost use Rattle.std.specs.Prelude.{◌≡◌, ◌<◌, ◌+◌, ◌^◌, [], ◌∷◌, length, slice_get, map, Some};
ghost use Rattle.mal_base.specs.{Literals.{dimacs_of}, NumberedClause.{Line}};
ghost use Rattle.mal_c.specs.Numbers.{number_of_clause, numbers_of, laid};

use mal_base::{ClauseId, Lines, Lit};

/// Writes a line, as far as there is room, and tells how many numbers it has.
pub fn write_line(lines: &Lines, n: usize, out: &mut [i64]) -> usize
    requires { n < length lines.now.lines }
    ensures { (line : Line) → slice_get lines.now.lines n ≡ Some line →
        (result ≡ length (numbers_of line)) × (out.new ≡ laid 0 (numbers_of line) out.old) }
{
    write(out, 0, clause_number(lines.id(n)));
    let lits = lines.lits(n);
    write_lits(out, 1, lits);
    let middle = 1 + lits.len();
    write(out, middle, 0);
    let hints = lines.hints(n);
    write_hints(out, middle + 1, hints);
    let end = middle + 1 + hints.len();
    write(out, end, 0);
    end + 1
}

fn write_lits(out: &mut [i64], at: usize, lits: &[Lit])
    requires { at + length lits.now < 2 ^ 64 }
    ensures { out.new ≡ laid at (map dimacs_of lits.now) out.old }
{
    for (index, lit) in lits.iter().enumerate() {
        write(out, at + index, i64::from(lit.dimacs()));
    }
}

fn write_hints(out: &mut [i64], at: usize, hints: &[ClauseId])
    requires { at + length hints.now < 2 ^ 64 }
    ensures { out.new ≡ laid at (map number_of_clause hints.now) out.old }
{
    for (index, hint) in hints.iter().enumerate() {
        write(out, at + index, clause_number(*hint));
    }
}

/// Writes a number at a place, where there is one.
fn write(out: &mut [i64], at: usize, number: i64)
    ensures { out.new ≡ laid at (number ∷ []) out.old }
{
    if at < out.len() {
        out[at] = number;
    }
}

/// A clause's number, at most the greatest of its type.
fn clause_number(id: ClauseId) -> i64
    ensures { result ≡ number_of_clause id }
{
    id.number().min(i64::MAX as u64) as i64
}
