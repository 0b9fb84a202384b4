//! What the words of the command line ask for, what the commands answer, what is written for it, and what the statuses
//! say: each command but those that run slices.
#![tactic(auto)]

mod answer;
mod checking;
mod concluding;
mod describing;
mod generating;
mod laws;
mod reading;
mod scripts;
mod summary;
mod words;

pub use answer::{Complaint, Texts};
pub use checking::check;
pub use concluding::{
    BAD_WORDS, DONE, OUT_OF_MEMORY, READ_FAULT, REFUSED, WRITE_FAULT, complain, conclude,
};
pub use describing::describe;
pub use generating::generate_text;
pub use laws::{
    commands_are_lawful, commands_have_own_words, none_is_lost_unstopped, replies_are_counted,
    run_replays,
};
pub use reading::input;
pub use scripts::script_of;
pub use summary::summarized;
pub use words::{
    Request, request_of, usage_line, what_is_asked, word_examples, words_have_one_meaning,
};
