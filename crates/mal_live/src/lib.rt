//! What the parts of a live service share: a desk with passes, how they wake each other, and what was told so far.
#![tactic(auto)]

mod desk;
mod signals;
mod telling;

pub use desk::{LiveDesk, News, Refused, Seen, Worked};
pub use signals::Signals;
pub use telling::{TellFault, Teller};
