//! What is found of a revision.

use mal_base::{Lit, Values};
use mal_report::Cause;

/// What the reply to a revision tells but for the lines of a proof, which are not made: a model; the assumptions that
/// fail where no assignment satisfies the clauses and the assumptions; or why the answer is unknown.
#[derive(Drop)]
pub enum Finding {
    Model(Values),
    Failed(Vec<Lit>),
    Unknown(Cause),
}
