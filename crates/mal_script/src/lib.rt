//! Scripts: reading and writing them, and the parts of which other readers of jobs are made.
#![tactic(auto)]

mod asks;
mod assuming;
mod blocks;
mod fault;
mod generating;
mod opened;
mod reader;
mod reading;
mod script;
mod taken;
mod telling;
mod writing;

pub use asks::asked;
pub use assuming::{assumptions, literals};
pub use fault::{AssumptionFault, LineRefusal, ScriptFault};
pub use generating::generate;
pub use opened::{OpenJob, SplitLine};
pub use reading::read;
pub use script::{Script, ScriptJob, revisions_of};
pub use spec_script::Step;
pub use taken::{TakenNames, is_among};
pub use telling::{fault_line, line_fault_line, which_word};
pub use writing::write;
