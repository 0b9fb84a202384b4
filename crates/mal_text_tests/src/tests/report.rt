//! Replies whose text is known, to the job p of the tenant a.

use super::values::{LineRow, lines, lits, name};
use mal_base::{Profile, Values};
use mal_report::{Told, reply};
use std::alloc::Global;

/// The reply to a revision of the job under a profile, which tells this.
fn text(alloc: Global, revision: u32, profile: Profile, told: &Told) -> Option<Vec<u8>> {
    let tenant = name(b"a")?;
    let job = name(b"p")?;
    reply(alloc, &tenant, &job, revision, profile, told).ok()
}

/// Whether this is the reply to a revision of the job under a profile, which tells this.
fn is_reply(
    alloc: Global,
    revision: u32,
    profile: Profile,
    told: Option<Told>,
    known: &[u8],
) -> Option<bool> {
    let told = told?;
    let text = text(alloc, revision, profile, &told)?;
    Some(text.as_slice() == known)
}

/// That a reply carries this model.
fn model(alloc: Global, values: &[bool]) -> Option<Told> {
    if values.len() > 100 {
        return None;
    }
    let mut items = Vec::new(alloc);
    items.extend_from_slice(values).ok()?;
    Some(Told::Model(Values::of(items)))
}

#[test]
fn a_model_is_written_by_variable(rt: HostRuntime) {
    let told = model(rt.alloc(), &[false, true, true]);
    let known = b"r a p 2\ns SATISFIABLE\nv -1 2 3 0\n";
    assert!(rt; is_reply(rt.alloc(), 2, Profile::Plain, told, known) == Some(true));
}

#[test]
fn a_cause_is_told(rt: HostRuntime) {
    let known = b"r a p 1 2\ns UNKNOWN\nu starved 3\n";
    assert!(rt; is_reply(rt.alloc(), 1, Profile::Lean, Some(Told::Starved), known) == Some(true));
}

#[test]
fn a_spent_budget_is_told(rt: HostRuntime) {
    let known = b"r a p 1\ns UNKNOWN\nu spent 4\n";
    assert!(rt; is_reply(rt.alloc(), 1, Profile::Plain, Some(Told::Spent(4)), known) == Some(true));
}

/// That a reply carries a proof of one line, for two failed assumptions.
fn refutation(alloc: Global) -> Option<Told> {
    let rows: [LineRow; 1] = [(2, &[-1, -2], &[1])];
    let failed = lits(alloc, &[1, 2])?;
    let lines = lines(alloc, &rows)?;
    Some(Told::Proof { failed, lines })
}

#[test]
fn a_refutation_has_its_failed_assumptions_and_its_lines(rt: HostRuntime) {
    let known = b"r a p 2\ns UNSATISFIABLE\nk 1 2 0\nl 2 -1 -2 0 1 0\n";
    assert!(rt;
        is_reply(rt.alloc(), 2, Profile::Plain, refutation(rt.alloc()), known) == Some(true)
    );
}
