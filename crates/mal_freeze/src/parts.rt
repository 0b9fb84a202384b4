//! What an image is made of.

use mal_base::{ClauseId, Lit, NumberedClause, Profile, TrailEntry, Var, Verdict};

/// The parts of an image, in form or not: a node's index, its profile, its variables 1 to this one, how many clauses it
/// has derived, the conflicts since the last restart, the number of the restart, the conflicts learned since the last
/// dropping (where the profile reduces), how many batches count as handled, the clause of a waiting conflict, its
/// verdict, its assumptions, its decision order, a phase for each variable, its trail, and its clauses by number.
#[derive(Drop)]
pub struct Parts {
    pub index: u32,
    pub profile: Profile,
    pub variables: u32,
    pub serial: u64,
    pub conflicts_since_restart: u32,
    pub restart_number: u32,
    pub conflicts_since_dropping: u32,
    pub processed: u32,
    pub conflict: Option<ClauseId>,
    pub verdict: Option<Verdict>,
    pub assumptions: Vec<Lit>,
    pub order: Vec<Var>,
    pub phases: Vec<bool>,
    pub trail: Vec<TrailEntry>,
    pub clauses: Vec<NumberedClause>,
}
