//! What tenants post by a script, one after the other, and whether what is posted in a history that is written down is
//! just that. Contents are not compared: a `Revise` of a history that is written down has the number of its revision
//! alone.
#![tactic(auto)]

mod cursor;
mod lines;
mod posts;

pub use cursor::{Cursor, Due, Left};
pub use posts::have_posts;
