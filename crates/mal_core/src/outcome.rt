//! What a search for a minimal core comes to.

use mal_base::{Lines, Lit, Values};
use mal_report::Cause;
use std::marker::Model;

/// A core so far: failed assumptions by rising variable, the number of the question that they were told of, and for each
/// of the first of them a model without it.
#[derive(Drop)]
pub struct Narrowing {
    pub core: Vec<Lit>,
    pub proof: u32,
    pub models: Vec<Values>,
}

/// A core: failed assumptions by rising variable, the lines that refute the formula under them, and for each of them a
/// model without it. Contracts see the three lists.
#[derive(Drop)]
pub struct Narrowed {
    pub core: Vec<Lit>,
    pub lines: Lines,
    pub models: Vec<Values>,
}

impl Model for Narrowed {
    ghost use Rattle.spec_core.specs.Core as search;

    ghost Value = { search.Narrowed };

    ghost view = { λ c. record { core = c.core.items; lines = c.lines.lines; models = c.models.items } };
}

/// What a search comes to: a minimal core, with a model for each of its literals that satisfies the formula and all
/// others; a model of the formula and all assumptions; or unknown, since a reply was, for its cause.
#[derive(Drop)]
pub enum Minimal {
    Core(Narrowed),
    Satisfiable { model: Values },
    Unknown { cause: Cause },
}
