//! Nodes that are frozen, and entries of journals.

use mal_base::{ClauseList, Profile};
use mal_revision::Revision;
use mal_suspend::{Entry, Journal, Suspended, rebuild};
use std::alloc::Global;
use std::sync::Arc;

/// Node 0 of this profile before its first start.
fn fresh(alloc: Global, profile: Profile) -> Suspended {
    Suspended::fresh(alloc, 7, profile, 0)
}

/// How many bytes a node has, frozen. None where memory runs out.
pub fn frozen_len(suspended: Suspended) -> Option<usize> {
    match suspended.freeze() {
        Err(back) => {
            drop(back);
            None
        }
        Ok(frozen) => {
            let len = frozen.bytes().len();
            drop(frozen);
            Some(len)
        }
    }
}

#[test]
fn a_fresh_node_is_frozen_to_65_bytes_or_69(rt: HostRuntime) {
    assert!(rt; frozen_len(fresh(rt.alloc(), Profile::Plain)) == Some(65));
    assert!(rt; frozen_len(fresh(rt.alloc(), Profile::Lean)) == Some(69));
}

/// The journal of node 0 of this profile before its first start.
fn journal(alloc: Global, profile: Profile) -> Journal {
    Journal::new(alloc, 7, profile, 0)
}

/// Whether a journal is of this profile, and a copy of it is the same.
fn is_copied(journal: &Journal, profile: Profile) -> Option<bool> {
    let copy = journal.copy().ok()?;
    let is_same = copy.same(journal);
    drop(copy);
    Some(is_same && journal.profile() == profile)
}

/// Whether the journal of another profile is the same.
fn is_same_as_first(alloc: Global, second: &Journal) -> bool {
    let first = journal(alloc, Profile::Plain);
    let is_same = first.same(second);
    drop(first);
    is_same
}

/// Whether the journal of profile 2 is copied, and differs from that of profile 1.
fn second_is_told(alloc: Global) -> Option<bool> {
    let second = journal(alloc, Profile::Lean);
    let copied = is_copied(&second, Profile::Lean);
    let is_same = is_same_as_first(alloc, &second);
    drop(second);
    Some(copied? && !is_same)
}

#[test]
fn a_journal_names_the_profile(rt: HostRuntime) {
    assert!(rt; second_is_told(rt.alloc()) == Some(true));
}

/// How many bytes the node of a journal has that is rebuilt and frozen. None where it has another journal.
fn rebuilt_len(alloc: Global, journal: &Journal) -> Option<usize> {
    let rebuilt = rebuild(alloc, journal).ok()?;
    if rebuilt.journal().same(journal) {
        return frozen_len(rebuilt);
    }
    drop(rebuilt);
    None
}

/// The same of the journal of profile 2.
fn second_rebuilt_len(alloc: Global) -> Option<usize> {
    let journal = journal(alloc, Profile::Lean);
    let len = rebuilt_len(alloc, &journal);
    drop(journal);
    len
}

#[test]
fn a_rebuilt_node_has_the_profile_of_its_journal(rt: HostRuntime) {
    assert!(rt; second_rebuilt_len(rt.alloc()) == Some(69));
}

/// The load of a revision of two variables without clauses.
fn load(alloc: Global) -> Option<Entry> {
    let revision = Revision::new(alloc, 2, ClauseList::new(alloc), &[]).ok()?;
    Some(Entry::Load(Arc::new(alloc, revision).ok()?, 1))
}

/// Whether a copy of an entry is the same.
fn is_entry_copied(entry: &Entry) -> Option<bool> {
    let copy = entry.copy().ok()?;
    let is_same = copy.same(entry);
    drop(copy);
    Some(is_same)
}

/// The same of a load.
fn load_is_copied(alloc: Global) -> Option<bool> {
    let load = load(alloc)?;
    let is_copied = is_entry_copied(&load);
    drop(load);
    is_copied
}

#[test]
fn entries_are_copied(rt: HostRuntime) {
    assert!(rt; load_is_copied(rt.alloc()) == Some(true));
}
