//! What stands at events.

use mal_parcel::Owned;
use mal_revision::Revision;

/// What stands at an event: the revision that was posted by it, or all that the job did before that arrived by it.
#[derive(Drop)]
pub enum Content {
    Revised(Revision),
    Arrived(Owned),
}
