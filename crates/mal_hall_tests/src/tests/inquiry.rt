//! Inquiries whose replies are known.

ghost use Rattle.std.specs.Prelude.{◌≤◌, IsTrue, [], length};
ghost use Rattle.mal_base.specs.Formulas.{literals_of};
ghost use Rattle.spec_inquiry.specs.Rounds.{IsInquiry};

use super::making::{Posted, ask, name, revision};
use mal_base::{Ask, Name, Profile};
use mal_inquiry::{Finding, Inquiry};
use mal_learn::Scratch;
use mal_report::{Cause, Told, reply};
use mal_revision::Revision;
use std::alloc::{AllocError, Global};

/// Whether a revision has at most 1,000 clauses, with at most 1,000 literals.
fn is_small(revision: &Revision) -> bool
    ensures clauses { IsTrue result → length revision.now.clauses ≤ 1000 }
    ensures literals { IsTrue result → literals_of revision.now.clauses ≤ 1000 }
{
    revision.clauses().len() <= 1000 && revision.literals() <= 1000
}

/// What is told of a revision of which this is found.
fn told_by(alloc: Global, inquiry: &Inquiry, r: u32, found: Finding) -> Result<Told, AllocError> {
    match found {
        Finding::Model(model) => Ok(Told::Model(model)),
        Finding::Failed(failed) => match inquiry.lines(alloc, r) {
            Ok(lines) => Ok(Told::Proof { failed, lines }),
            Err(error) => {
                drop(failed);
                Err(error)
            }
        },
        Finding::Unknown(Cause::Spent(slices)) => Ok(Told::Spent(slices)),
        Finding::Unknown(Cause::Starved) => Ok(Told::Starved),
    }
}

/// What is told of both revisions of an inquiry, of which this is found.
fn both_told(
    alloc: Global,
    inquiry: &Inquiry,
    found: Finding,
    later: Finding,
) -> Result<(Told, Told), AllocError> {
    match told_by(alloc, inquiry, 1, found) {
        Ok(first) => match told_by(alloc, inquiry, 2, later) {
            Ok(second) => Ok((first, second)),
            Err(error) => {
                drop(first);
                Err(error)
            }
        },
        Err(error) => {
            drop(later);
            Err(error)
        }
    }
}

/// What an inquiry without a round is told of two small revisions.
fn ask_both(
    alloc: Global,
    inquiry: &mut Inquiry,
    ask: Ask,
    first: Revision,
    second: Revision,
    scratch: &mut Scratch,
) -> Result<(Told, Told), AllocError>
    requires begun { IsInquiry inquiry.old.key ask [] inquiry.old.events }
    requires first_clauses { length first.clauses ≤ 1000 }
    requires first_literals { literals_of first.clauses ≤ 1000 }
    requires second_clauses { length second.clauses ≤ 1000 }
    requires second_literals { literals_of second.clauses ≤ 1000 }
{
    match inquiry.ask(first, scratch) {
        Ok(found) => match inquiry.ask(second, scratch) {
            Ok(later) => both_told(alloc, inquiry, found, later),
            Err(error) => {
                drop(found);
                Err(error)
            }
        },
        Err(error) => {
            drop(second);
            Err(error)
        }
    }
}

/// What an inquiry of its own is told of two small revisions.
fn asked_twice(
    alloc: Global,
    tenant: Name,
    job: Name,
    ask: Ask,
    first: Revision,
    second: Revision,
) -> Result<(Told, Told), AllocError>
    requires first_clauses { length first.clauses ≤ 1000 }
    requires first_literals { literals_of first.clauses ≤ 1000 }
    requires second_clauses { length second.clauses ≤ 1000 }
    requires second_literals { literals_of second.clauses ≤ 1000 }
{
    match Inquiry::new(alloc, tenant, job, ask) {
        Ok(begun) => {
            let mut inquiry = begun;
            let mut scratch = Scratch::new(alloc);
            let told = ask_both(alloc, &mut inquiry, ask, first, second, &mut scratch);
            drop(scratch);
            drop(inquiry);
            told
        }
        Err(error) => {
            drop(first);
            drop(second);
            Err(error)
        }
    }
}

/// The same where both are small. None where one is not, and where memory runs out.
fn told_if_small(
    alloc: Global,
    tenant: Name,
    job: Name,
    ask: Ask,
    first: Revision,
    second: Revision,
) -> Option<(Told, Told)> {
    if is_small(&first) {
        if is_small(&second) {
            return asked_twice(alloc, tenant, job, ask, first, second).ok();
        }
    }
    drop(first);
    drop(second);
    None
}

/// What an inquiry is told that has so many slices for each of two revisions.
fn told_of(alloc: Global, slices: i64, posted: (Posted, Posted)) -> Option<(Told, Told)> {
    let (tenant, job, ask) = (name(b"a")?, name(b"p")?, ask(1, slices, Profile::Plain)?);
    let first = revision(alloc, posted.0)?;
    match revision(alloc, posted.1) {
        Some(second) => told_if_small(alloc, tenant, job, ask, first, second),
        None => {
            drop(first);
            None
        }
    }
}

/// Whether the reply to a revision that tells this is this text.
fn reads(alloc: Global, r: u32, told: &Told, known: &[u8]) -> Option<bool> {
    let text = reply(alloc, &name(b"a")?, &name(b"p")?, r, Profile::Plain, told).ok()?;
    let is_known = text.as_slice() == known;
    drop(text);
    Some(is_known)
}

/// Whether an inquiry with so many slices for each of two revisions is told what these replies tell.
fn replies(
    alloc: Global,
    slices: i64,
    posted: (Posted, Posted),
    known: (&[u8], &[u8]),
) -> Option<bool> {
    let (told, later) = told_of(alloc, slices, posted)?;
    let is_first = reads(alloc, 1, &told, known.0);
    let is_second = reads(alloc, 2, &later, known.1);
    drop(told);
    drop(later);
    Some(is_first? && is_second?)
}

#[test]
fn what_was_told_goes_into_the_next_round(rt: HostRuntime) {
    // Each assumption is at odds with one literal of the clause that was posted before.
    let posted = (Posted::Clause(&[1, 2], &[]), Posted::Assuming(&[-1, -2]));
    let model = b"r a p 1\ns SATISFIABLE\nv -1 2 0\n";
    let proof = b"r a p 2\ns UNSATISFIABLE\nk -1 -2 0\nl 2 1 2 0 1 0\n";
    assert!(rt; replies(rt.alloc(), 4, posted, (model, proof)) == Some(true));
}

#[test]
fn a_spent_budget_is_told(rt: HostRuntime) {
    // One slice is too short for 600 free variables. The next revision has a slice of its own.
    let posted = (Posted::Free(600), Posted::Clause(&[1, 2], &[-1, -2]));
    let spent = b"r a p 1\ns UNKNOWN\nu spent 1\n";
    let proof = b"r a p 2\ns UNSATISFIABLE\nk -1 -2 0\nl 2 1 2 0 1 0\n";
    assert!(rt; replies(rt.alloc(), 1, posted, (spent, proof)) == Some(true));
}
