//! A node that imports clauses, whose answers are known.

ghost use Rattle.mal_node_tests.specs.Imports.{HasImports};

/// A clause that is imported twice under different numbers stays under the first, and the node's next line has a number
/// above it.
fn imports_are_known()
    ensures { HasImports }
{}
