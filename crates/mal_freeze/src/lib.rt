//! Images: the plain form of a solver node, in which it can be moved, and the bytes of an image.
#![tactic(auto)]

mod fault;
mod fields;
mod form;
mod image;
mod laws;
mod numbered;
mod parts;
mod reading;
mod scan;
mod thawing;
mod writing;

pub use fault::ThawFault;
pub use image::Image;
pub use laws::{fault_is_first, fresh_bytes, read_is_spelled, sound_has_image, spelled_is_read};
pub use parts::Parts;
pub use thawing::{thaw, thaw_known};
pub use writing::freeze;
