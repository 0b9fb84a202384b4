//! Calls of a hall with their answers, as clauses see them.

use mal_base::Name;
use mal_hall::{Back, Pick, PickFault, Post, PostFault, ReplyFault, Strange};
use mal_suspend::Done;
use std::snapshot::Snapshot;

/// A call of a hall with its arguments and its answer. They are snapshots, which have no bytes.
#[derive(Drop)]
pub(crate) enum HallCall {
    Posted {
        post: Snapshot<Post>,
        answer: Snapshot<Result<(), PostFault>>,
    },
    Asked {
        tenant: Snapshot<Name>,
        job: Snapshot<Name>,
        r: Snapshot<u32>,
        answer: Snapshot<Result<Option<Vec<u8>>, ReplyFault>>,
    },
    Picked {
        worker: Snapshot<u32>,
        answer: Snapshot<Result<Pick, PickFault>>,
    },
    Gave {
        back: Snapshot<Done>,
        answer: Snapshot<Result<Back, Strange>>,
    },
}
