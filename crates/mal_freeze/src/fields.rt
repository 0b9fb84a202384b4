//! The fields of an image, as they are read.

use crate::numbered::Numbered;
use mal_base::{ClauseId, Lit, Profile, TrailEntry, Var};
use std::marker::Model;

/// The index (0 to 63), the variables (up to those that are served), the serial (below 2^57), and the conflicts since
/// the last restart.
#[derive(Clone, Copy)]
pub struct Head {
    pub index: u32,
    pub variables: u32,
    pub serial: u64,
    pub conflicts_since_restart: u32,
}

/// The number of the restart (at least 1), the conflicts since the last dropping, the batches handled, and the waiting
/// conflict.
#[derive(Clone, Copy)]
pub struct Search {
    pub restart_number: u32,
    pub conflicts_since_dropping: u32,
    pub processed: u32,
    pub conflict: Option<ClauseId>,
}

/// The code of the verdict (0 for none, 1 for satisfiable, 2 for unsatisfiable), and the number of the goal.
#[derive(Clone, Copy)]
pub struct Ended {
    pub code: u8,
    pub goal: u64,
}

/// The lists, in order or not. Contracts see them as lists.
#[derive(Drop)]
pub struct Lists {
    pub assumptions: Vec<Lit>,
    pub order: Vec<Var>,
    pub phases: Vec<bool>,
    pub trail: Vec<TrailEntry>,
    pub clauses: Vec<Numbered>,
}

impl Model for Lists {
    ghost use Rattle.mal_freeze.specs.Fields.{Listing};

    ghost Value = { Listing };

    ghost view = { λ l. record {
      assumptions = l.assumptions.items;
      order = l.order.items;
      phases = l.phases.items;
      trail = l.trail.items;
      clauses = l.clauses.items;
    } };
}

/// All fields of an image of this profile, and how many bytes are left over after them.
#[derive(Drop)]
pub struct Fields {
    pub profile: Profile,
    pub head: Head,
    pub search: Search,
    pub ended: Ended,
    pub lists: Lists,
    pub left: usize,
}
