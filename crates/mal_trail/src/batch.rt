//! Handling a clause of a batch on the trail: what all engines do.

ghost use Rattle.std.specs.Prelude.{◌≡◌, ℕ, ◌≤◌, true, length, take};
ghost use Rattle.mal_base.specs.{Formulas.{is_within}, Literals.{var_of}};
ghost use Rattle.spec_node.specs.{Batch.{after_clause, after_literal}, Value.{left_literal}};
ghost use Rattle.mal_trail.specs.Trailed.{Grows};

use crate::trail::Trail;
use mal_base::{ClauseId, Lit};

/// The first literal that is not false under the first entries of the trail, so many.
fn left_literal(trail: &Trail, count: usize, lits: &[Lit]) -> Option<Lit>
    requires { count ≤ length trail.now.entries }
    ensures { result ≡ left_literal (take count trail.now.entries) lits.now }
{
    lits.iter()
        .copied()
        .find(|l| !trail.is_false_before(count, *l))
}

/// Pushes the literal that is left of this clause, unless it is true. The conflict is the clause where the literal is
/// false.
pub fn handle_literal(trail: &mut Trail, id: ClauseId, lit: Lit) -> Option<ClauseId>
    requires { var_of lit ≤ trail.old.room }
    ensures progress { after_literal trail.old.entries id lit
        ≡ record { trail = trail.new.entries; conflict = result } }
    ensures prefix { (n : ℕ) → n ≤ length trail.old.entries → take n trail.new.entries ≡ take n trail.old.entries }
    ensures grows { Grows trail.old trail.new }
{
    if trail.is_true(lit) {
        return None;
    }
    if trail.is_false(lit) {
        return Some(id);
    }
    let level = trail.level();
    trail.push(lit, Some(id), level);
    None
}

/// Handles a clause of the batch of the first entries of the trail, so many. The result is the conflict.
pub fn handle_clause(
    trail: &mut Trail,
    count: usize,
    id: ClauseId,
    lits: &[Lit],
) -> Option<ClauseId>
    requires count { count ≤ length trail.old.entries }
    requires within { is_within trail.old.room lits.now ≡ true }
    ensures progress { after_clause (take count trail.old.entries) trail.old.entries
        (record { id = id; lits = lits.now }) ≡ record { trail = trail.new.entries; conflict = result } }
    ensures prefix { (n : ℕ) → n ≤ length trail.old.entries → take n trail.new.entries ≡ take n trail.old.entries }
    ensures grows { Grows trail.old trail.new }
{
    match left_literal(trail, count, lits) {
        None => Some(id),
        Some(lit) => handle_literal(trail, id, lit),
    }
}
