//! What a tenant posts of a job between its opening and its closing.

use mal_base::Weight;
use mal_revision::Revision;

/// A step of a job of a script. Contracts see what it posts.
#[derive(Drop)]
pub enum Step {
    /// A revision is posted.
    Revise(Revision),
    /// The job's priority and demand become these.
    Reask(Weight),
}
