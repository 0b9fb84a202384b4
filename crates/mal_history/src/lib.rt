//! The events of a hall, its history, and the history's text, in memory or handed to a sink.
#![tactic(auto)]

mod event;
mod fault;
mod history;
mod laws;
mod line;
mod numbers;
mod owned;
mod pieced;
mod post;
mod reading;
mod sizes;
mod writing;

pub use event::{Event, Share, Shares};
pub use fault::HistoryFault;
pub use history::History;
pub use laws::{
    fault_is_first, histories_differ, reading_examples, spelled_is_read, written_is_read,
};
pub use owned::own;
pub use post::{PostKind, PostLine};
pub use reading::read;
pub use sizes::{LAST_NODE, MOST_WORKERS};
pub use writing::{append_event, write, write_to};
