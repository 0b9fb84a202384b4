//! What is kept of a node after a lease, on both sides of the greatest length of an image that is frozen, and nodes
//! that are thawed.

ghost use Rattle.std.specs.Prelude.{◌≡◌, [], IfOk};
ghost use Rattle.mal_base.specs.declared.profile.Profile.TheVariants.{Plain};
ghost use Rattle.spec_job.specs.Journal.{replay};
ghost use Rattle.mal_suspend.specs.{Kept.{journal_of}, Replaying.{MayAllReplay}, Starting.{shared_loads, start_entries}};

use super::suspend::frozen_len;
use mal_base::{ClauseList, Profile};
use mal_learn::Scratch;
use mal_revision::Revision;
use mal_suspend::{Entries, FROZEN_BYTES, Frozen, Journal, Kept, Lease, Suspended};
use std::alloc::{AllocError, Global};
use std::sync::Arc;

/// The load of a shared revision at the first start of a node.
fn loads_of(alloc: Global, revision: Arc<Revision>) -> Result<Vec<(Arc<Revision>, u32)>, AllocError>
    ensures { IfOk result (λ v. MayAllReplay (replay Plain 0 []) (start_entries (shared_loads v.items) [])) }
{
    if revision.clauses().len() > 1000 {
        return Err(AllocError);
    }
    let loads = vec![in alloc; (revision, 1)]?;
    Ok(loads)
}

/// Lets go of a node that came back, and tells why it did.
fn refusal(back: (Kept, AllocError)) -> AllocError {
    let (kept, error) = back;
    drop(kept);
    error
}

/// The first start of node 0, with these loads.
fn first(alloc: Global, kept: Kept, loads: Vec<(Arc<Revision>, u32)>) -> Result<Lease, AllocError>
    requires journal { journal_of kept ≡ record { job = 7; profile = Plain; index = 0; start = 0; entries = [] } }
    requires loads { MayAllReplay (replay Plain 0 []) (start_entries (shared_loads loads.items) []) }
{
    match Lease::new(kept, loads, Vec::new(alloc), 3, 0) {
        Err(back) => Err(refusal(back)),
        Ok(lease) => Ok(lease),
    }
}

/// How many bytes are kept of a node, none where it is live or gone.
fn cold_bytes(kept: &Kept) -> usize {
    match kept {
        Kept::Live(_) => 0,
        Kept::Cold(frozen) => frozen.bytes().len(),
        Kept::Gone(_) => 0,
    }
}

/// How many bytes are kept of a node after this lease.
fn bytes_after(lease: Lease, scratch: &mut Scratch) -> usize {
    let done = lease.work(scratch);
    let bytes = cold_bytes(done.kept());
    drop(done);
    bytes
}

/// How many bytes are kept of node 0 after its first start, with these loads.
fn first_bytes(
    alloc: Global,
    kept: Kept,
    loads: Vec<(Arc<Revision>, u32)>,
) -> Result<usize, AllocError>
    requires journal { journal_of kept ≡ record { job = 7; profile = Plain; index = 0; start = 0; entries = [] } }
    requires loads { MayAllReplay (replay Plain 0 []) (start_entries (shared_loads loads.items) []) }
{
    let lease = first(alloc, kept, loads)?;
    let mut scratch = Scratch::new(alloc);
    let bytes = bytes_after(lease, &mut scratch);
    drop(scratch);
    Ok(bytes)
}

/// A shared revision of so many variables without clauses.
fn shared(alloc: Global, variables: u32) -> Option<Arc<Revision>> {
    let revision = Revision::new(alloc, variables, ClauseList::new(alloc), &[]).ok()?;
    Arc::new(alloc, revision).ok()
}

/// How many bytes are kept of node 0, which was live, after a first start with so many variables.
fn live_bytes(alloc: Global, variables: u32) -> Option<usize> {
    let loads = loads_of(alloc, shared(alloc, variables)?).ok()?;
    let kept = Kept::Live(Suspended::fresh(alloc, 7, Profile::Plain, 0));
    first_bytes(alloc, kept, loads).ok()
}

/// How many bytes are kept of node 0, which was gone, after a first start with so many variables.
fn rebuilt_bytes(alloc: Global, variables: u32) -> Option<usize> {
    let loads = loads_of(alloc, shared(alloc, variables)?).ok()?;
    let kept = Kept::Gone(Journal::new(alloc, 7, Profile::Plain, 0));
    first_bytes(alloc, kept, loads).ok()
}

/// A slice decides 500 variables: an image has 65 bytes, 5 for each variable and 16 for each that is decided.
#[test]
fn a_node_is_frozen_up_to_the_constant(rt: HostRuntime) {
    let most = (FROZEN_BYTES - 8065) / 5;
    assert!(rt; live_bytes(rt.alloc(), most as u32) == Some(8065 + 5 * most));
    assert!(rt; live_bytes(rt.alloc(), most as u32 + 1) == Some(0));
}

/// A node that never came back is rebuilt from its journal; the lease that it went out with comes back late.
#[test]
fn a_late_lease_and_the_one_after_it_are_frozen(rt: HostRuntime) {
    assert!(rt; rebuilt_bytes(rt.alloc(), 100) == Some(2165));
    assert!(rt; live_bytes(rt.alloc(), 100) == Some(2165));
}

/// How many bytes a frozen node has that is thawed and frozen again, or that comes back where the thaw is refused. None
/// where memory runs out for the second freeze.
fn thawed_len(frozen: Frozen) -> Option<usize> {
    match frozen.thaw() {
        Err((frozen, _)) => {
            let len = frozen.bytes().len();
            drop(frozen);
            Some(len)
        }
        Ok(suspended) => frozen_len(suspended),
    }
}

/// The same of the fresh node 0.
fn fresh_len(alloc: Global) -> Option<usize> {
    match Suspended::fresh(alloc, 7, Profile::Plain, 0).freeze() {
        Ok(frozen) => thawed_len(frozen),
        Err(back) => {
            drop(back);
            None
        }
    }
}

#[test]
fn a_node_that_is_not_thawed_comes_back(rt: HostRuntime) {
    assert!(rt; fresh_len(rt.alloc()) == Some(65));
}

/// The journal of a node after this lease.
fn journal_after(lease: Lease, scratch: &mut Scratch) -> Option<Journal> {
    let done = lease.work(scratch);
    let journal = done.journal().copy().ok();
    drop(done);
    journal
}

/// The journal of node 0 after its first start, which loads a revision of two variables.
fn first_journal(alloc: Global) -> Option<Journal> {
    let loads = loads_of(alloc, shared(alloc, 2)?).ok()?;
    let kept = Kept::Live(Suspended::fresh(alloc, 7, Profile::Plain, 0));
    let lease = first(alloc, kept, loads).ok()?;
    let mut scratch = Scratch::new(alloc);
    let journal = journal_after(lease, &mut scratch);
    drop(scratch);
    journal
}

/// How many entries of a journal are listed, and how many slices are counted after them.
fn counts_of(journal: &Journal) -> (usize, u64) {
    let (counted, slices) = journal.entries().parts();
    (counted.len(), slices)
}

/// Whether a copy of a journal's entries is the same, and is not without entries.
fn are_copied(alloc: Global, journal: &Journal) -> Option<bool> {
    let entries = journal.entries().copy().ok()?;
    let none = Entries::new(alloc);
    let are_same = entries.same(journal.entries()) && !none.same(&entries);
    drop(none);
    drop(entries);
    Some(are_same)
}

/// Whether the journal of the first start lists its load, counts the slice after it, and is copied.
fn first_is_journaled(alloc: Global) -> Option<bool> {
    let journal = first_journal(alloc)?;
    let are_counted = counts_of(&journal) == (1, 1);
    let copied = are_copied(alloc, &journal);
    drop(journal);
    Some(are_counted && copied?)
}

#[test]
fn a_load_is_listed_and_the_slice_behind_it_is_counted(rt: HostRuntime) {
    assert!(rt; first_is_journaled(rt.alloc()) == Some(true));
}
