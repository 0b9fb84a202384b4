//! What a node makes of a revision: its phases, clauses and assumptions. Room was made before.

ghost use Rattle.std.specs.Prelude.{◌≡◌, ◌+◌, ◌-◌, ◌*◌, ◌/◌, ◌^◌, ◌≤◌, ◌<◌, true, All, ◌++◌, length, replicate, slice_set, vec_len, vec_capacity};
ghost use Rattle.std.specs.List.{list_all};
ghost use Rattle.mal_base.specs.{Formulas.{is_clause_of, literals_of}, NumberedClause.{NumberedClause}, Literals.{var_of, has_plus}};
ghost use Rattle.spec_node.specs.{Cut.{saved}, Load.{numbered, with_originals}, Sound.{NumbersRise}, Import.{is_left_off, with_clauses, serial_above}};
ghost use Rattle.mal_cdcl.specs.{ImportSizes.{lits_in}, Importing.{AreNewTo}};
ghost use Rattle.mal_trail.specs.Rooms.{IsLeft};

use mal_base::{ClauseId, ClauseList, Lit, NumberedClause, Profile, TrailEntry, Var};
use mal_trail::{Engine, Trail};

/// Appends the phases of so many new variables.
pub fn push_phases(phases: &mut Vec<bool>, phase: bool, added: u32)
    requires { vec_len phases.old + added ≤ vec_capacity phases.old }
    ensures items { phases.new.items ≡ phases.old.items ++ replicate added phase }
    ensures len { vec_len phases.new ≡ vec_len phases.old + added }
    ensures capacity { vec_capacity phases.new ≡ vec_capacity phases.old }
{
    for _place in 0..added {
        phases.push_reserved(phase);
    }
}

/// Makes the sign of each removed literal its variable's phase.
pub fn save(phases: &mut [bool], removed: &[TrailEntry])
    ensures phases { phases.new ≡ saved phases.old removed.now }
    ensures len { length phases.new ≡ length phases.old }
{
    for made in 0..removed.len() {
        let lit = removed[removed.len() - 1 - made].lit;
        set_phase(phases, lit);
    }
}

/// Makes the sign of a literal its variable's phase, where there is a place for it.
fn set_phase(phases: &mut [bool], lit: Lit)
    ensures phases { phases.new ≡ slice_set phases.old (var_of lit - 1) (has_plus lit) }
    ensures len { length phases.new ≡ length phases.old }
{
    let place = lit.var().number() as usize - 1;
    if place < phases.len() {
        phases[place] = lit.is_positive();
    }
}

/// Puts these literals in place of the others.
pub fn replace(assumptions: &mut Vec<Lit>, lits: &[Lit])
    requires { length lits.now ≤ vec_capacity assumptions.old }
    ensures items { assumptions.new.items ≡ lits.now }
    ensures capacity { vec_capacity assumptions.new ≡ vec_capacity assumptions.old }
{
    assumptions.clear();
    for lit in lits {
        assumptions.push_reserved(*lit);
    }
}

/// Adds the clauses under rising numbers from the first on, without the tautologies, which keep their numbers. The
/// originals that are held have smaller numbers.
pub fn add_clauses<E: Engine>(engine: &mut E, trail: &Trail, first: u32, clauses: &ClauseList)
    requires some { 1 ≤ first }
    requires bound { first + length clauses.now ≤ 2 ^ 32 }
    requires above { All (λ (c : NumberedClause). c.id < 2 ^ 32 → c.id < first) (E.clauses engine.old) }
    requires rising { NumbersRise 1 (E.clauses engine.old) }
    requires within { list_all (is_clause_of (E.room engine.old).variables) clauses.now ≡ true }
    requires clause_room { length clauses.now ≤ (E.room engine.old).clauses }
    requires literal_room { literals_of clauses.now ≤ (E.room engine.old).literals }
    requires fits { E.fits engine.old trail.now.entries trail.now.processed }
    ensures clauses { E.clauses engine.new ≡ with_originals (E.clauses engine.old) (numbered first clauses.now) }
    ensures room { IsLeft (length clauses.now) (literals_of clauses.now) (E.room engine.old) (E.room engine.new) }
    ensures fits { E.fits engine.new trail.now.entries trail.now.processed }
{
    for place in 0..clauses.len() {
        match clauses.at(place) {
            None => {}
            Some(lits) => {
                let id = ClauseId::original(first + place as u32);
                engine.load(id, lits, trail);
            }
        }
    }
}

/// Adds clauses of the variables that there is room for, under numbers that differ and are not held.
pub fn add_imported<E: Engine>(engine: &mut E, trail: &Trail, exported: &[NumberedClause])
    requires new { AreNewTo (E.clauses engine.old) (E.room engine.old).variables exported.now }
    requires clause_room { length exported.now ≤ (E.room engine.old).clauses }
    requires literal_room { lits_in exported.now ≤ (E.room engine.old).literals }
    requires fits { E.fits engine.old trail.now.entries trail.now.processed }
    ensures clauses { E.clauses engine.new ≡ with_clauses exported.now (E.clauses engine.old) }
    ensures room { IsLeft (length exported.now) (lits_in exported.now) (E.room engine.old) (E.room engine.new) }
    ensures fits { E.fits engine.new trail.now.entries trail.now.processed }
{
    for entry in exported {
        engine.learn(entry.id(), entry.lits(), trail);
    }
}

/// Whether a node of this profile leaves off an import of which these clauses are taken: where there are none, and it
/// skips such imports.
pub fn is_left_off(profile: Profile, taken: &[NumberedClause]) -> bool
    ensures { result ≡ is_left_off profile taken.now }
{
    profile.policy().skips_empty_imports && taken.len() == 0
}

/// The least serial from this one on that is above those of derived clauses.
pub fn serial_above(serial: u64, exported: &[NumberedClause]) -> u64
    ensures { result ≡ serial_above serial exported.now }
{
    let mut above = serial;
    for entry in exported {
        let own = entry.id().number().saturating_sub(1 << 32) / 64;
        above = above.max(own + 1);
    }
    above
}
