//! Parcels: a job as bytes, so that it can be moved.
#![tactic(auto)]

mod answers;
mod events;
mod following;
mod nodes;
mod owned;
mod packing;
mod parcel;
mod passing;
mod reading;
mod script;
mod sized;
mod slices;
mod unpacking;

pub use owned::{OwnEvent, Owned};
pub use packing::packed;
pub use parcel::Parcel;
