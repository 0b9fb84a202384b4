//! What a line of a feed posts.

use mal_base::{Ask, Key};
use spec_script::Step;

/// What a line of a feed posts: it opens a job, is the last line of a step of one, or closes one. Contracts see what is
/// posted.
#[derive(Drop)]
pub enum FeedPost {
    Opens { key: Key, ask: Ask },
    Takes { key: Key, step: Step },
    Closes { key: Key },
}
