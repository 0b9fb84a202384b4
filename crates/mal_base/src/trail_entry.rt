//! The entries of a trail.

use crate::clause_id::ClauseId;
use crate::literal::Lit;

/// A literal that a solver has made true: the clause that forced it, none where it was decided, and its decision level.
#[derive(Clone, Copy, Debug, PartialEq, Eq)]
pub struct TrailEntry {
    pub lit: Lit,
    pub reason: Option<ClauseId>,
    pub level: u32,
}
