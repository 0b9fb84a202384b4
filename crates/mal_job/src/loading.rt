//! What a start of a node loads.

ghost use Rattle.std.specs.Prelude.{◌≡◌, ◌+◌, ◌<◌, ◌≤◌, ◌^◌, length, IfOk};
ghost use Rattle.spec_job.specs.SoloMachine.{clauses_in};
ghost use Rattle.mal_suspend.specs.Starting.{shared_loads, shared_imports};
ghost use Rattle.mal_job.specs.{Loads.{paired, lacking}, Viewed.{shared}};

use crate::questions::Questions;
use mal_buffer::Buffer;
use mal_revision::Revision;
use std::alloc::{AllocError, Global};
use std::sync::Arc;

/// The number of the clauses of these revisions, tautologies among them.
pub fn count_clauses(revisions: &[Arc<Revision>]) -> u32
    requires { clauses_in (shared revisions.now) < 2 ^ 32 }
    ensures { result ≡ clauses_in (shared revisions.now) }
{
    let mut count = 0;
    for revision in revisions {
        count += revision.clauses().len() as u32;
    }
    count
}

/// The loads of revisions, of which the first clause has this number. The revisions are shared.
pub fn loads_of(
    alloc: Global,
    revisions: &[Arc<Revision>],
    first: u32,
) -> Result<Vec<(Arc<Revision>, u32)>, AllocError>
    requires { first + clauses_in (shared revisions.now) < 2 ^ 32 }
    ensures { IfOk result (λ v. shared_loads v.items ≡ paired first (shared revisions.now)) }
{
    let mut loads = Vec::new(alloc);
    let mut next = first;
    for revision in revisions {
        loads.push((Arc::try_clone(revision)?, next))?;
        next += revision.clauses().len() as u32;
    }
    Ok(loads)
}

/// The loads that a node lacks up to the current revision, where it has loaded so many.
pub fn missing_loads(
    questions: &Questions,
    loaded: usize,
) -> Result<Vec<(Arc<Revision>, u32)>, AllocError>
    requires live { length questions.now.answers < length questions.now.revisions }
    requires early { loaded ≤ length questions.now.answers + 1 }
    ensures { IfOk result (λ v. shared_loads v.items ≡ lacking loaded questions.now) }
{
    let current = questions.answers().len();
    if loaded > current {
        return Ok(Vec::new(questions.allocator()));
    }
    let (before, later) = questions.revisions().split_at(loaded);
    let missing = &later[..current + 1 - loaded];
    loads_of(questions.allocator(), missing, count_clauses(before) + 1)
}

/// What was broadcast, shared.
pub fn broadcasts_of(
    alloc: Global,
    broadcasts: &[Arc<Buffer>],
) -> Result<Vec<Arc<Buffer>>, AllocError>
    ensures { IfOk result (λ v. shared_imports v.items ≡ shared_imports broadcasts.now) }
{
    let mut all = Vec::new(alloc);
    for broadcast in broadcasts {
        all.push(Arc::try_clone(broadcast)?)?;
    }
    Ok(all)
}
