//! Where the parts of a derived line stand.

use crate::clause_id::ClauseId;

/// Places from a start on, up to before an end.
#[derive(Clone, Copy, Debug, PartialEq, Eq)]
pub struct Span {
    pub start: usize,
    pub end: usize,
}

/// The number of a line's clause, and where its literals and its hints stand.
#[derive(Clone, Copy, Debug, PartialEq, Eq)]
pub struct LineHead {
    pub id: ClauseId,
    pub lits: Span,
    pub hints: Span,
}
