//! A live service.
#![tactic(auto)]

mod finishing;
mod hall;
mod passing;
mod serving;

pub use serving::{ServeEnd, serve};
