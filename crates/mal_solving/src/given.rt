//! The clauses that a solver was given.

ghost use Rattle.std.specs.Prelude.{◌≡◌, ◌++◌};
ghost use Rattle.mal_solving.specs.Loaded.{given_clauses};

use mal_revision::Revision;
use std::snapshot::Snapshot;

/// The revisions that were loaded. Contracts alone know them: it has no bytes but a tag.
#[derive(Drop)]
pub enum Given {
    Nothing,
    More(Snapshot<Given>, Snapshot<Revision>),
}

/// These, and one more. Takes no memory.
pub fn with_revision(given: &Given, revision: &Revision) -> Given
    ensures { given_clauses result ≡ given_clauses given.now ++ revision.now.clauses }
{
    Given::More(Snapshot::of(given), Snapshot::of(revision))
}
