//! The clauses of an engine as an image has them, and an engine of an image's clauses.

ghost use Rattle.std.specs.Prelude.{◌≡◌, ◌≤◌, true, IfOk};
ghost use Rattle.mal_base.specs.{Limits.{greatest_variable}, Clauses.{rises}};
ghost use Rattle.mal_freeze.specs.Imaged.{are_clauses, numbers_rise};
ghost use Rattle.mal_cdcl.specs.{Rising.{all_rise}, ImportSizes.{lits_in}};

use crate::needs::added;
use mal_base::{Clause, ClauseId, Lit, NumberedClause};
use mal_trail::{Engine, Listed, Trail};
use std::alloc::{AllocError, Global};

/// The clause of these literals, which rise by variable, under this number.
fn copied(alloc: Global, id: ClauseId, lits: &[Lit]) -> Result<NumberedClause, AllocError>
    requires { rises lits.now ≡ true }
    ensures { IfOk result (λ h. h ≡ record { id = id; lits = lits.now }) }
{
    match Clause::of_rising(alloc, lits)? {
        None => unreachable!(),
        Some(clause) => Ok(NumberedClause::new(id, clause)),
    }
}

/// Copies of the clauses of an engine, whose literals rise by variable.
pub fn clauses_of<E: Listed>(alloc: Global, engine: &E) -> Result<Vec<NumberedClause>, AllocError>
    requires { all_rise (E.clauses engine.now) ≡ true }
    ensures { IfOk result (λ v. v.items ≡ E.clauses engine.now) }
{
    let mut clauses = Vec::new(alloc);
    for place in 0..engine.count() {
        let (id, lits) = engine.clause_at(place);
        clauses.push(copied(alloc, id, lits)?)?;
    }
    Ok(clauses)
}

/// How many literals these clauses have. A size that no memory holds is out of memory.
fn count_held(clauses: &[NumberedClause]) -> Result<usize, AllocError>
    ensures { IfOk result (λ n. n ≡ lits_in clauses.now) }
{
    let mut count = 0;
    for held in clauses {
        count = added(count, held.clause().lits().len())?;
    }
    Ok(count)
}

/// An engine of these clauses, whose numbers rise, which fits a trail.
pub fn engine_of<E: Engine>(
    alloc: Global,
    variables: u32,
    clauses: &[NumberedClause],
    trail: &Trail,
) -> Result<E, AllocError>
    requires bound { variables ≤ greatest_variable }
    requires form { are_clauses variables clauses.now ≡ true }
    requires rising { numbers_rise 0 clauses.now ≡ true }
    ensures clauses { IfOk result (λ e. E.clauses e ≡ clauses.now) }
    ensures fits { IfOk result (λ e. E.fits e trail.now.entries trail.now.processed) }
{
    let mut engine = E::new(alloc);
    let literals = count_held(clauses)?;
    engine.reserve(variables, clauses.len(), literals)?;
    for held in clauses {
        engine.load(held.id(), held.clause().lits(), trail);
    }
    Ok(engine)
}
