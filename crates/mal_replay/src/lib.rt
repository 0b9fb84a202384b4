//! Replaying a history for a script: it is judged, and its replies are computed anew.
#![tactic(auto)]

mod contents;
mod replaying;

pub use mal_base::ReplayFault;
pub use replaying::replay;
