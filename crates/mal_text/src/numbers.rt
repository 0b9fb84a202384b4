//! Reading numbers.

use thiserror::Error;

/// Why a word is not the number that is wanted.
#[derive(Clone, Copy, Debug, PartialEq, Eq, Error)]
pub enum NumberFault {
    /// The word is not an optional minus sign and one digit or more, or is a zero after a minus sign.
    #[error("not a number")]
    NotANumber,
    /// The magnitude is above the maximum.
    #[error("number too large")]
    TooLarge,
}

mod front;
mod reading;

pub use front::{begins_number, number_in_front};
pub use reading::{magnitude, number};
