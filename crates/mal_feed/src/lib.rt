//! Feeds: reading a text as it comes, in pieces, whatever their cuts. Each line is read as soon as its end has come, and
//! what it posts is answered at once.
#![tactic(auto)]

mod fault;
mod feed;
mod feeder;
mod laws;
mod lines;
mod telling;

pub use fault::FeedError;
pub use feed::Feed;
pub use feeder::{Feeder, Taken};
pub use laws::read_from_the_start;
pub use spec_feed::{FeedFault, FeedPost};
pub use telling::fault_line;
