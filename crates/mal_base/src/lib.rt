//! The values that every layer speaks of: variables, literals, clauses and their numbers, names and asks.
#![tactic(auto)]

mod answer;
mod ask;
mod block_fault;
mod clause;
mod clause_id;
mod clause_list;
mod formula;
mod hall_fault;
mod key;
mod limit_kind;
mod limits;
mod line_fault;
mod line_head;
mod lines;
mod literal;
mod name;
mod numbered_clause;
mod profile;
mod replay_fault;
mod room;
mod stage;
mod trail_entry;
mod verdict;
mod views;
mod weight;

pub use answer::{Answer, Values};
pub use ask::Ask;
pub use block_fault::BlockFault;
pub use clause::Clause;
pub use clause_id::ClauseId;
pub use clause_list::ClauseList;
pub use formula::Formula;
pub use hall_fault::{
    AdmitFault, ApplyFault, CloseFault, OpenFault, PackFault, PickFault, ReaskFault, ReplyFault,
    ReviseFault,
};
pub use key::Key;
pub use limit_kind::LimitKind;
pub use limits::{LIMITS, Limits};
pub use line_fault::LineFault;
pub use lines::Lines;
pub use literal::{Lit, Var};
pub use name::Name;
pub use numbered_clause::NumberedClause;
pub use profile::{Policy, Profile, Reduction};
pub use replay_fault::ReplayFault;
pub use room::grown;
pub use stage::Stage;
pub use trail_entry::TrailEntry;
pub use verdict::{Outcome, Verdict};
pub use views::{ClauseView, TrailView};
pub use weight::Weight;
