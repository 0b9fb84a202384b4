//! A solver node: its state, propagation batches, cuts, loading and soundness. Definitions, and the laws about them as
//! the contracts of functions without a body.
#![tactic(auto)]

ghost use Rattle.spec_node.specs.{Examples.{HasExamples}, Laws.{FreshIsConsistent, FreshIsSound, HandledAreTrue, ImportHolds, ImportKeepsSound, ImportMayLeave, LoadHolds, LoadKeepsConsistent, LoadKeepsSound, LoadsHoldAll, NumbersMeanSame}};

/// The search of a node is consistent at its first start, and loads keep it so.
pub fn search_is_consistent()
    ensures fresh { FreshIsConsistent }
    ensures load { LoadKeepsConsistent }
{}

/// What loading a revision leaves in a node, and that clauses mean the same under their numbers.
pub fn load_holds()
    ensures load { LoadHolds }
    ensures numbers { NumbersMeanSame }
    ensures all { LoadsHoldAll }
{}

/// A node is sound at its first start, and loads of posted revisions keep it so.
pub fn node_is_sound()
    ensures fresh { FreshIsSound }
    ensures load { LoadKeepsSound }
{}

/// Each clause of a batch that was handled has a true literal, where no conflict waits.
pub fn handled_are_true()
    ensures { HandledAreTrue }
{}

/// Imports of clauses that a node may import keep it sound.
pub fn imports_keep_sound()
    ensures { ImportKeepsSound }
{}

/// What importing clauses leaves in a node, and where it leaves the whole node as it is.
pub fn import_holds()
    ensures holds { ImportHolds }
    ensures may_leave { ImportMayLeave }
{}

/// The worked examples of imports compute to the numbers that are known.
pub fn import_examples()
    ensures { HasExamples }
{}
