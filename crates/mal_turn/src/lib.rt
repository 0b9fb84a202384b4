//! A value that threads take in turns, by a ticket over an atomic table, with one record of what its holders did: what
//! tokens know, the rule, and the laws about them as the contracts of functions without a body.
#![tactic(auto)]

mod holding;
mod laws;
mod rule;
mod steps;
mod table;
mod turn;
mod view;
mod waiting;

pub use laws::{
    a_token_comes_back, a_turn_adds_one_entry, a_whole_token_has_seen_all,
    each_step_keeps_the_rule, joined_tokens_are_whole, one_token_holds, what_was_seen_stays,
};
pub use table::{Held, HeldOf, InUse, Token, TokenOf, Turn};
pub use view::{Numbers, Recorded, Stage, View};
