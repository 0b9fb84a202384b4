//! What room loads and the slice after them need.

ghost use Rattle.std.specs.Prelude.{◌≡◌, ℕ, ◌+◌, ◌-◌, ◌≤◌, List, IfOk, OnOk, vec_len, vec_capacity};
ghost use Rattle.mal_base.specs.{Limits.{limits}, declared.trail_entry.TrailEntry.{TrailEntry}};
ghost use Rattle.mal_trail.specs.Rooms.{HasRoom};
ghost use Rattle.spec_search.specs.Slice.{most_numbers};
ghost use Rattle.mal_cdcl.specs.{ImportSizes.{lits_in, import_clauses, import_literals}, Ready.{posted, greatest, clauses_in, literals_in, most_assumptions}};

use crate::import_filter::NewClauses;
use mal_base::{Lit, NumberedClause, grown};
use mal_order::Order;
use mal_revision::Revision;
use mal_trail::{Listed, Trail};
use std::alloc::AllocError;

/// How many steps a slice has.
pub const SLICE_STEPS: u32 = 1000;

/// How many literals and hints the lines of a slice may have, beside those of one more line.
const SLICE_ROOM: usize = 65_536;

/// What a node needs: variables in all, clauses and literals more, and assumptions of one load.
#[derive(Clone, Copy, Debug)]
pub struct Needs {
    pub variables: u32,
    pub clauses: usize,
    pub literals: usize,
    pub assumptions: usize,
}

/// What these loads need at a node of so many variables. A size that no memory holds is told as out of
/// memory.
fn needs_of(loads: &[(&Revision, u32)], variables: u32) -> Result<Needs, AllocError>
    requires { variables ≤ limits.variables }
    ensures variables { IfOk result (λ n. n.variables ≡ greatest (posted loads.now) variables) }
    ensures least { IfOk result (λ n. variables ≤ n.variables) }
    ensures bound { IfOk result (λ n. n.variables ≤ limits.variables) }
    ensures clauses { IfOk result (λ n. n.clauses ≡ clauses_in (posted loads.now)) }
    ensures literals { IfOk result (λ n. n.literals ≡ literals_in (posted loads.now)) }
    ensures assumptions { IfOk result (λ n. n.assumptions ≡ most_assumptions (posted loads.now) 0) }
{
    let mut needs = Needs {
        variables,
        clauses: 0,
        literals: 0,
        assumptions: 0,
    };
    for load in loads {
        let (revision, _first) = load;
        let literals = revision.literals() as usize;
        needs.variables = needs.variables.max(revision.variables());
        needs.clauses = added(needs.clauses, revision.clauses().len())?;
        needs.literals = added(needs.literals, literals)?;
        needs.assumptions = needs.assumptions.max(revision.assumptions().len());
    }
    Ok(needs)
}

/// What these loads, the clauses taken and then so many steps of a slice need at a node of so many variables.
pub fn needs_in_all(
    loads: &[(&Revision, u32)],
    picks: &[NewClauses],
    steps: u32,
    variables: u32,
) -> Result<Needs, AllocError>
    requires { variables ≤ limits.variables }
    ensures variables { IfOk result (λ n. n.variables ≡ greatest (posted loads.now) variables) }
    ensures least { IfOk result (λ n. variables ≤ n.variables) }
    ensures bound { IfOk result (λ n. n.variables ≤ limits.variables) }
    ensures clauses { IfOk result (λ n. n.clauses ≡ clauses_in (posted loads.now) + import_clauses picks.now + steps) }
    ensures literals { IfOk result
        (λ n. n.literals ≡ literals_in (posted loads.now) + import_literals picks.now + most_numbers n.variables) }
    ensures assumptions { IfOk result (λ n. n.assumptions ≡ most_assumptions (posted loads.now) 0) }
{
    let mut needs = needs_of(loads, variables)?;
    for pick in picks {
        let literals = count_lits(pick.entries())?;
        needs.clauses = added(needs.clauses, pick.entries().len())?;
        needs.literals = added(needs.literals, literals)?;
    }
    needs.clauses = added(needs.clauses, steps as usize)?;
    needs.literals = added(needs.literals, most_numbers(needs.variables))?;
    Ok(needs)
}

/// Makes room in the parts of a node for what it needs, so many variables of which are new. What they hold stays.
pub fn reserve<E: Listed>(
    trail: &mut Trail,
    order: &mut Order,
    phases: &mut Vec<bool>,
    assumptions: &mut Vec<Lit>,
    engine: &mut E,
    needs: Needs,
    new: u32,
) -> Result<(), AllocError>
    requires { needs.variables ≤ limits.variables }
    ensures entries { trail.new.entries ≡ trail.old.entries }
    ensures processed { trail.new.processed ≡ trail.old.processed }
    ensures trail_room { OnOk result (needs.variables ≤ trail.new.room) }
    ensures trail_more { trail.old.room ≤ trail.new.room }
    ensures index { order.new.index ≡ order.old.index }
    ensures list { order.new.list ≡ order.old.list }
    ensures passed { order.new.passed ≡ order.old.passed }
    ensures order_room { OnOk result (new ≤ order.new.room) }
    ensures phases { phases.new.items ≡ phases.old.items }
    ensures phase_room { OnOk result (new + vec_len phases.new ≤ vec_capacity phases.new) }
    ensures assumptions { assumptions.new.items ≡ assumptions.old.items }
    ensures assumption_room { OnOk result (needs.assumptions ≤ vec_capacity assumptions.new) }
    ensures clauses { E.clauses engine.new ≡ E.clauses engine.old }
    ensures room { OnOk result (HasRoom needs.variables needs.clauses needs.literals (E.room engine.new)) }
    ensures fits { (entries : List TrailEntry) (processed : ℕ) → E.fits engine.old entries processed
        → E.fits engine.new entries processed }
{
    trail.reserve(needs.variables)?;
    order.reserve(new)?;
    phases.reserve(new as usize)?;
    assumptions.reserve(needs.assumptions)?;
    engine.reserve(needs.variables, needs.clauses, needs.literals)
}

/// How many literals and hints a slice may derive, for so many variables.
pub fn most_numbers(variables: u32) -> usize
    requires { variables ≤ limits.variables }
    ensures { result ≡ most_numbers variables }
{
    SLICE_ROOM + 2 * variables as usize + 2
}

/// How many literals clauses have. A size that no memory holds is out of memory.
fn count_lits(entries: &[NumberedClause]) -> Result<usize, AllocError>
    ensures { IfOk result (λ n. n ≡ lits_in entries.now) }
{
    let mut count = 0;
    for entry in entries {
        count = added(count, entry.lits().len())?;
    }
    Ok(count)
}

/// The sum of two sizes. One that no memory holds is out of memory.
pub fn added(one: usize, more: usize) -> Result<usize, AllocError>
    ensures { IfOk result (λ n. n ≡ one + more) }
{
    grown(one, more, usize::MAX)
}
