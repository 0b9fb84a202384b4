//! Nodes rebuilt from their journals.

ghost use Rattle.std.specs.Prelude.{◌≡◌, IfOk, OnOk};
ghost use Rattle.spec_node.specs.State.{fresh_with};
ghost use Rattle.spec_search.specs.Slice.{slice};
ghost use Rattle.spec_job.specs.{Journal.{Run, after_entry}, Journaled.{node_of}};
ghost use Rattle.mal_suspend.specs.{Entries.{entry_of, slices_of, counted_of}, Replaying.{MayReplay, MayAllReplay, alone, after_entries}};

use crate::entry::{Counted, Entry};
use crate::journal::Journal;
use crate::suspended::{Solver, Suspended};
use mal_cdcl::Node;
use mal_learn::Scratch;
use std::alloc::{AllocError, Global};

/// The node of a journal, with the journal.
pub fn rebuild(alloc: Global, journal: &Journal) -> Result<Suspended, AllocError>
    ensures { IfOk result (λ s. s ≡ journal.now) }
{
    let journal = journal.copy()?;
    let mut scratch = Scratch::new(alloc);
    let suspended = with_node(journal, &mut scratch);
    // For the proof.
    drop(scratch);
    suspended
}

/// A journal with its node.
fn with_node(journal: Journal, scratch: &mut Scratch) -> Result<Suspended, AllocError>
    ensures { IfOk result (λ s. s ≡ journal) }
{
    match replay(&journal, scratch) {
        Ok(node) => Ok(Suspended::of(node, journal)),
        Err(error) => {
            // For the proof.
            drop(journal);
            Err(error)
        }
    }
}

/// The node of a journal: the node of its profile at its first start, and then each entry in turn.
pub fn replay(journal: &Journal, scratch: &mut Scratch) -> Result<Solver, AllocError>
    ensures { IfOk result (λ n. n.state ≡ node_of journal.now) }
{
    let mut node = Node::fresh_with(journal.allocator(), journal.index(), journal.profile());
    match follow(&mut node, journal, scratch) {
        Ok(()) => Ok(node),
        Err(error) => {
            // For the proof.
            drop(node);
            Err(error)
        }
    }
}

/// Takes a node at its first start over each entry of its journal in turn.
fn follow(node: &mut Solver, journal: &Journal, scratch: &mut Scratch) -> Result<(), AllocError>
    requires { node.old.state ≡ fresh_with journal.now.index journal.now.profile }
    ensures { OnOk result (node.new.state ≡ node_of journal.now) }
{
    let (counted, slices) = journal.entries().parts();
    for one in counted {
        go_again(node, one, scratch)?;
    }
    run_again(node, slices, scratch)
}

/// Takes a node over the slices before an entry, and then over the entry.
fn go_again(node: &mut Solver, counted: &Counted, scratch: &mut Scratch) -> Result<(), AllocError>
    requires { MayAllReplay (alone node.old.state) (counted_of counted.now) }
    ensures { OnOk result (node.new.state ≡ (after_entries node.old.state (counted_of counted.now)).node) }
{
    run_again(node, counted.slices, scratch)?;
    do_again(node, &counted.entry, scratch)
}

/// Takes a node over so many slices.
fn run_again(node: &mut Solver, slices: u64, scratch: &mut Scratch) -> Result<(), AllocError>
    requires { MayAllReplay (alone node.old.state) (slices_of slices) }
    ensures { OnOk result (node.new.state ≡ (after_entries node.old.state (slices_of slices)).node) }
{
    for _ in 0..slices {
        run_once(node, scratch)?;
    }
    Ok(())
}

/// Takes a node over one slice.
fn run_once(node: &mut Solver, scratch: &mut Scratch) -> Result<(), AllocError>
    requires { MayReplay Run node.old.state }
    ensures { OnOk result (node.new.state ≡ (slice node.old.state).node) }
{
    // Room that was made stays, so most calls of ready find it.
    node.ready(&[], &[], scratch)?;
    node.run(scratch);
    Ok(())
}

/// Takes a node over one entry.
fn do_again(node: &mut Solver, entry: &Entry, scratch: &mut Scratch) -> Result<(), AllocError>
    requires { MayReplay (entry_of entry.now) node.old.state }
    ensures { OnOk result (node.new.state ≡ (after_entry (alone node.old.state) (entry_of entry.now)).node) }
{
    match entry {
        Entry::Load(revision, first) => node.ready(&[(&**revision, *first)], &[], scratch),
        Entry::Import(told) => node.ready(&[], &[&**told], scratch),
    }
}
