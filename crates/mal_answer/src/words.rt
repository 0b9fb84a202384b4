//! The words of the command line: what they ask for.

mod command;
mod laws;
mod number;
mod reading;
mod request;

pub use command::usage_line;
pub use laws::{what_is_asked, word_examples, words_have_one_meaning};
pub use reading::request_of;
pub use request::Request;
