//! What a hint does.

ghost use Rattle.std.specs.Prelude.{◌≡◌, Some, if◌then◌else◌};
ghost use Rattle.std.specs.List.{list_any};
ghost use Rattle.spec_logic.specs.Derivation.{is_true, effect_of, effect_of_lits, Effect.{Passes, LeavesMore}};
ghost use Rattle.mal_check.specs.CheckAnswers.{effect_seen};

use crate::trues::Trues;
use mal_base::{Clause, Lit};

/// What the clause of a hint does: it changes nothing, it makes a literal true, it is false, or two literals or more
/// are left of it.
#[derive(Clone, Copy)]
pub enum Effect {
    Passes,
    Makes(Lit),
    Conflicts,
    LeavesMore,
}

/// What a clause does under the literals that are true so far; a tautology changes nothing.
pub fn effect_of(trues: &Trues, clause: &Option<Clause>) -> Effect
    ensures { effect_seen result ≡ effect_of trues.now (Some clause.now) }
{
    match clause {
        None => Effect::Passes,
        Some(clause) => effect_of_lits(trues, clause.lits()),
    }
}

/// What the clause of these literals does. Each literal is looked at once.
fn effect_of_lits(trues: &Trues, lits: &[Lit]) -> Effect
    ensures { effect_seen result ≡ effect_of_lits trues.now lits.now }
{
    let mut left = None;
    for (index, lit) in lits.iter().enumerate() {
        if trues.is_true(*lit) {
            return Effect::Passes;
        }
        if !trues.is_false(*lit) {
            match left {
                None => left = Some(*lit),
                Some(_) => return effect_of_more(trues, &lits[index + 1..]),
            }
        }
    }
    match left {
        None => Effect::Conflicts,
        Some(lit) => Effect::Makes(lit),
    }
}

/// What a clause does of which two literals are left and these stand after them, where none before these is true.
fn effect_of_more(trues: &Trues, behind: &[Lit]) -> Effect
    ensures { effect_seen result ≡ (if list_any (is_true trues.now) behind.now then Passes else LeavesMore) }
{
    if has_true(trues, behind) {
        Effect::Passes
    } else {
        Effect::LeavesMore
    }
}

/// Whether one of the literals is true.
fn has_true(trues: &Trues, lits: &[Lit]) -> bool
    ensures { result ≡ list_any (is_true trues.now) lits.now }
{
    lits.iter().any(|lit| trues.is_true(*lit))
}
