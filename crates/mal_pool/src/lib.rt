//! Running a script: tenants post and workers work at the same time, or one thread does both, until every revision is
//! answered.
#![tactic(auto)]

mod answering;
mod board;
mod demand;
mod due;
mod gate;
mod laws;
mod leaving;
mod posting;
mod role;
mod run;
mod running;
mod served;
mod testing;
mod working;

pub use answering::{replies, replies_by};
pub use board::Board;
pub use gate::{Gate, PlainGate, Point, Step};
pub use laws::loops_end_so;
pub use mal_turn::InUse;
pub use run::{run_all, run_with};
pub use running::{post_script, run_alone};
pub use served::Served;
pub use working::{End, work_loop};
