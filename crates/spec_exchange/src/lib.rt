//! What the solvers of one job tell each other: unions of clauses in one order, each clause once, and their longest
//! prefixes. Definitions, and the laws about them as the contracts of functions without a body.
#![tactic(auto)]

ghost use Rattle.spec_exchange.specs.{Laws.{UnionIsSorted, UnionKeepsTheLeast, SortedAreDecided, OrderDoesNotMatter, UnionOfUnions, CutsEarly, PrefixIsLongest, MergesUp, SortsOnce, NodeByNode, ClimbsToTheSame}, Examples.{HasExamples}};

/// A union is sorted, has just the lists of literals that the entries have, each with the least of its numbers, and is
/// the only such list.
pub fn union_is_decided()
    ensures sorted { UnionIsSorted }
    ensures least { UnionKeepsTheLeast }
    ensures decided { SortedAreDecided }
{}

/// Entries that are sorted once are their union, once those go that have the literals of the one before.
pub fn one_sort_is_enough()
    ensures { SortsOnce }
{}

/// The order of the entries does not matter, nor what was united before.
pub fn order_does_not_matter()
    ensures order { OrderDoesNotMatter }
    ensures unions { UnionOfUnions }
{}

/// What is cut off early would be cut off at the end. So the buffers of a tree may be
/// merged into those of the nodes above, whichever these are, and cut there.
pub fn cutting_early_loses_nothing()
    ensures early { CutsEarly }
    ensures up { MergesUp }
{}

/// What is broadcast of all exports together is what the tree gives: each solver unites its own and cuts there, and the
/// buffers climb up to the root, merged and cut at each place.
pub fn the_tree_gives_the_same()
    ensures nodes { NodeByNode }
    ensures root { ClimbsToTheSame }
{}

/// A prefix fits its room, and the entry after it does not fit any more.
pub fn prefix_is_longest()
    ensures { PrefixIsLongest }
{}

/// Worked examples.
pub fn exchange_examples()
    ensures { HasExamples }
{}
