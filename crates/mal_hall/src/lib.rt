//! The hall: it holds the jobs, enters each event, hands nodes out and takes them back, and keeps that its history is
//! legal.
#![tactic(auto)]

mod apply;
mod content;
mod desk;
mod enter;
mod event_list;
mod hall;
mod lodging;
mod looking;
mod moving;
mod names;
mod offer;
mod places;
mod room;
mod size;
mod spots;
mod telling;

pub use desk::{Desk, Post, PostFault};
pub use hall::Hall;
pub use mal_base::{
    AdmitFault, ApplyFault, CloseFault, OpenFault, PackFault, PickFault, ReaskFault, ReplyFault,
    ReviseFault,
};
pub use offer::{Back, FinishAnswer, Pick, PickAnswer, Strange};
pub use size::Size;
