//! What learning a clause does to a trail and to a decision order.

ghost use Rattle.std.specs.Prelude.{◌≡◌, ℕ, Bool, ◌==◌, true, take, Some};
ghost use Rattle.std.specs.List.{list_all, list_any};
ghost use Rattle.spec_node.specs.Value.{left_literal};
ghost use Rattle.spec_learn.specs.{Analysis.{vars_in}, Learning.{forced_by}, Order.{moved_all}};
ghost use Rattle.mal_cdcl.specs.Sliced.{IsForcible};

use mal_base::{ClauseId, Lit};
use mal_order::Order;
use mal_trail::Trail;

/// The first of these literals that is not false.
fn left_literal(trail: &Trail, lits: &[Lit]) -> Option<Lit>
    ensures { result ≡ left_literal trail.now.entries lits.now }
{
    lits.iter().copied().find(|l| !trail.is_false(*l))
}

/// Makes the literal that is left of a clause true, with the clause as its reason, at the level that is reached.
pub fn force(trail: &mut Trail, id: ClauseId, lits: &[Lit])
    requires { (l : ℕ) → left_literal trail.old.entries lits.now ≡ Some l → IsForcible l trail.old }
    ensures entries { trail.new.entries ≡ forced_by id trail.old.entries (left_literal trail.old.entries lits.now) }
    ensures processed { trail.new.processed ≡ trail.old.processed }
    ensures room { trail.new.room ≡ trail.old.room }
{
    match left_literal(trail, lits) {
        None => {}
        Some(lit) => {
            let level = trail.level();
            trail.push(lit, Some(id), level);
        }
    }
}

/// Moves the variables of literals to the front, one after another.
pub fn bump_all(order: &mut Order, lits: &[Lit])
    requires { list_all (λ v. list_any (λ w. w == v) order.old.list) (vars_in lits.now) ≡ true }
    ensures index { order.new.index ≡ order.old.index }
    ensures list { order.new.list ≡ moved_all (vars_in lits.now) order.old.list }
    ensures room { order.new.room ≡ order.old.room }
    ensures passed { (p : ℕ → Bool) → list_all p (take order.old.passed order.old.list) ≡ true
        → list_all p (take order.new.passed order.new.list) ≡ true }
{
    for lit in lits {
        order.bump(lit.var());
    }
}
