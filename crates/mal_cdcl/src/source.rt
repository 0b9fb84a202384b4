//! What a line is derived from.

use mal_base::{ClauseId, Lit};

/// What a line is derived from: a conflict that waits, or an assumption that has failed.
#[derive(Clone, Copy)]
pub enum Source {
    Conflict(ClauseId),
    Failed(Lit),
}
