//! Scripts of many jobs and clauses, and lines of assumptions.

use super::told::{Grammar, is_told};
use super::values::has_lits;
use mal_base::Var;
use mal_script::{AssumptionFault, Script, ScriptFault, assumptions, fault_line, read};
use std::alloc::{AllocError, Global};

/// How many revisions each job of a script has.
fn revisions_of(alloc: Global, script: &Script) -> Option<Vec<usize>> {
    let mut counts = Vec::new(alloc);
    for job in script.jobs() {
        counts.push(job.revision_count()).ok()?;
    }
    Some(counts)
}

/// Whether no line tells a fault.
fn is_untold(alloc: Global, fault: ScriptFault) -> Option<bool> {
    Some(fault_line(alloc, fault).ok()?.is_none())
}

#[test]
fn no_line_tells_want_of_memory(rt: HostRuntime) {
    assert!(rt; is_untold(rt.alloc(), ScriptFault::OutOfMemory) == Some(true));
}

/// Why a line of assumptions over two variables is refused.
fn refusal(alloc: Global, line: &[u8]) -> Option<AssumptionFault> {
    assumptions(alloc, line, 2).err()
}

/// Lines of assumptions over two variables that are refused.
const REFUSED: [(&[u8], AssumptionFault); 5] = [
    (b"a 3 x 0", AssumptionFault::BadLine),
    (b"a 3 1", AssumptionFault::BadLine),
    (b"a 0 0", AssumptionFault::BadLine),
    (b"b 0", AssumptionFault::BadLine),
    (b"a 3 1 -1 0", AssumptionFault::Range),
];

/// Whether a line over three variables assumes these literals.
fn assumes(alloc: Global, line: &[u8], known: &[i32]) -> bool {
    match assumptions(alloc, line, 3) {
        Err(_) => false,
        Ok(assumed) => has_lits(assumed.as_slice(), known),
    }
}

#[test]
fn assumptions_stand_once_by_variable(rt: HostRuntime) {
    assert!(rt; assumes(rt.alloc(), b"a 3 -1 3 00", &[-1, 3]));
}

#[test]
fn other_assumptions_are_refused(rt: HostRuntime) {
    for (line, fault) in &REFUSED {
        assert!(rt; refusal(rt.alloc(), line) == Some(*fault));
    }
    let opposite = AssumptionFault::Opposite { var: Var::of(1) };
    assert!(rt; refusal(rt.alloc(), b"a 2 1 -2 -1 0") == Some(opposite));
}

/// Writes a line of a word and a number.
fn put(text: &mut Vec<u8>, word: &[u8], number: usize, rest: &[u8]) -> Result<(), AllocError> {
    text.extend_from_slice(word)?;
    text.extend_from_slice(itoa::Buffer::new().format(number).as_bytes())?;
    text.extend_from_slice(rest)
}

/// Writes a tenant with 64 jobs.
fn put_tenant(text: &mut Vec<u8>, tenant: usize) -> Result<(), AllocError> {
    put(text, b"t t", tenant, b"\n")?;
    for job in 0..64 {
        put(text, b"j j", job, b" 1 1 1\ne\n")?;
    }
    Ok(())
}

/// The text of so many tenants with 64 jobs each.
fn full_tenants(alloc: Global, tenants: usize) -> Option<Vec<u8>> {
    let mut text = Vec::new(alloc);
    for tenant in 0..tenants {
        put_tenant(&mut text, tenant).ok()?;
    }
    Some(text)
}

/// The script of that text.
fn full_script(alloc: Global, tenants: usize) -> Option<Script> {
    let text = full_tenants(alloc, tenants)?;
    read(alloc, text.as_slice()).ok()
}

/// How many jobs are read of so many tenants with 64 jobs each.
fn jobs_of(alloc: Global, tenants: usize) -> Option<usize> {
    let script = full_script(alloc, tenants)?;
    Some(revisions_of(alloc, &script)?.len())
}

#[test]
fn all_jobs_of_all_tenants_are_read(rt: HostRuntime) {
    assert!(rt; jobs_of(rt.alloc(), 64) == Some(4096));
}

/// Writes a job with 1 and then 1,048,576 clauses, 16 a line.
fn put_many_clauses(text: &mut Vec<u8>) -> Result<(), AllocError> {
    text.extend_from_slice(b"t a\nj p 1 1 1\np cnf 0 1\n0\na 0\np cnf 0 1048576\n")?;
    for _ in 0..65_536 {
        text.extend_from_slice(b"0 0 0 0 0 0 0 0 0 0 0 0 0 0 0 0\n")?;
    }
    text.extend_from_slice(b"a 0\ne\n")
}

/// Whether this is told of the script with that job.
fn is_told_of_many(alloc: Global, known: &[u8]) -> bool {
    let mut text = Vec::new(alloc);
    put_many_clauses(&mut text).is_ok() && is_told(alloc, Grammar::Script, text.as_slice(), known)
}

#[test]
fn too_many_clauses_of_a_job_are_refused(rt: HostRuntime) {
    let known = b"fault: script line 65543 Limit Clauses\n";
    assert!(rt; is_told_of_many(rt.alloc(), known));
}
