//! The parts of a question.

ghost use Rattle.std.specs.Prelude.{◌≡◌, ◌<◌, true, ◌∷◌, ◌++◌, [], length, get_or, None, IfOk, OnOk};
ghost use Rattle.mal_revision.specs.Posted.{is_posted};

use mal_base::{ClauseList, Lit};
use mal_revision::{Revision, RevisionFault};
use std::alloc::{AllocError, Global};

/// The revision of these parts, which may be posted.
pub fn posted(
    alloc: Global,
    variables: u32,
    clauses: ClauseList,
    assumptions: &[Lit],
) -> Result<Revision, AllocError>
    requires { is_posted (record { variables = variables; clauses = clauses; assumptions = assumptions.now }) ≡ true }
    ensures { IfOk result
        (λ r. r ≡ record { variables = variables; clauses = clauses; assumptions = assumptions.now }) }
{
    match Revision::new(alloc, variables, clauses, assumptions) {
        Ok(revision) => Ok(revision),
        Err(RevisionFault::Opposite { .. }) => unreachable!(),
        Err(RevisionFault::VarTooLarge { .. }) => unreachable!(),
        Err(RevisionFault::Limit { .. }) => unreachable!(),
        Err(RevisionFault::OutOfMemory) => Err(AllocError),
    }
}

/// The same clauses once more.
pub fn copied(alloc: Global, clauses: &ClauseList) -> Result<ClauseList, AllocError>
    ensures { IfOk result (λ c. c ≡ clauses.now) }
{
    let mut copy = ClauseList::new(alloc);
    for place in 0..clauses.len() {
        push_copy(&mut copy, clauses, place)?;
    }
    Ok(copy)
}

/// Puts the clause at a place after others.
fn push_copy(copy: &mut ClauseList, clauses: &ClauseList, place: usize) -> Result<(), AllocError>
    requires { place < length clauses.now }
    ensures { OnOk result (copy.new ≡ copy.old ++ get_or clauses.now place None ∷ []) }
{
    match clauses.at(place) {
        None => copy.push_tautology(),
        Some(lits) => copy.push_rising(lits),
    }
}
