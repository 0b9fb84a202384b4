//! The shared service: a hall that many threads call in turns, each call being one entry of one legal record; what a
//! record is, and what a call does to a pass.
#![tactic(auto)]

mod entry;
mod hall_call;
mod laws;
mod news;
mod noted;
mod service;

pub use entry::Entry;
pub use laws::{
    answers_make_a_legal_record, opened_job_is_found, records_lose_none, replies_are_solo,
};
pub use mal_hall::Size;
pub use mal_turn::InUse;
pub use news::{Looked, News, news_of};
pub use noted::NotedHall;
pub use service::{Pass, Service};
