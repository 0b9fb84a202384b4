//! Numbers, words and lines of texts: writing and reading.
#![tactic(auto)]

mod asks;
pub mod numbers;
pub mod read;
pub mod taker;
pub mod write;

pub use asks::{ask_in, is_first, profile_in, put_ask, put_profile, weight_in};
pub use numbers::{NumberFault, begins_number, magnitude, number, number_in_front};
pub use read::{first_line, first_word, is_word_line, words};
pub use taker::Taker;
pub use write::{end_line, put_decimal, put_line, put_number, put_word};
