//! The image of a node.

ghost use Rattle.std.specs.Prelude.{◌≡◌, ◌≤◌, ◌↔◌, IsTrue, IfOk, MatchOption};
ghost use Rattle.mal_base.specs.Profiles.{policy, may_stand};
ghost use Rattle.mal_freeze.specs.{Imaged.{IsImage, HasRanges}, Parted.{node_of}};

use crate::parts::Parts;
use crate::scan;
use mal_base::{LIMITS, Profile, Reduction};
use mal_trail::Trail;
use std::alloc::{AllocError, Global};
use std::marker::Model;

/// The plain form of a node, whose numbers are in their ranges and whose lists are in order: the index is at most 63,
/// the variables at most those that are served, the serial below 2^57, the number of the restart at least 1; under a
/// profile that reduces nothing no conflicts count for a dropping; no more batches count as handled than the trail has
/// prefixes; the assumptions and the literals of a clause rise by variable; the order has each variable once; each
/// variable has a phase; no variable stands twice on the trail, whose levels rise by one at most; the numbers of the
/// clauses rise. Contracts see the node. An image copies, so that where memory runs out node and image are both as
/// before.
#[derive(Drop)]
pub struct Image {
    parts: Parts,
}

impl Model for Image {
    ghost use Rattle.spec_node.specs.State.{Node};
    ghost use Rattle.mal_freeze.specs.{Imaged.{IsImage}, Parted.{node_of}};

    ghost Value = { Node };

    ghost view = { λ i. node_of i.parts };

    ghost invariant = { λ i. IsImage (node_of i.parts) };
}

impl Image {
    /// The image of these parts. None exactly where they are not in form.
    pub fn new(alloc: Global, parts: Parts) -> Result<Option<Image>, AllocError>
        ensures { IfOk result
            (λ o. MatchOption o (IsImage (node_of parts) → ⊥) (λ i. (i ≡ node_of parts) × IsImage (node_of parts))) }
    {
        if is_image(alloc, &parts)? {
            Ok(Some(Image { parts }))
        } else {
            Ok(None)
        }
    }

    /// The image of these parts, which are in form. Takes no memory.
    pub fn of_form(parts: Parts) -> Image
        requires { IsImage (node_of parts) }
        ensures { result ≡ node_of parts }
    {
        Image { parts }
    }

    /// The parts, which are in form.
    pub fn parts(&self) -> &Parts
        ensures value { node_of result.now ≡ self.now }
        ensures form { IsImage self.now }
    {
        &self.parts
    }

    /// The trail of the node, with room for its variables and with so many batches handled.
    pub fn trail(&self) -> Result<Trail, AllocError>
        ensures entries { IfOk result (λ t. t.entries ≡ self.now.trail) }
        ensures processed { IfOk result (λ t. t.processed ≡ self.now.processed) }
        ensures room { IfOk result (λ t. self.now.variables ≤ t.room) }
    {
        let parts = &self.parts;
        match scan::trail_of(
            *parts.trail.allocator(),
            parts.variables,
            parts.trail.as_slice(),
        )? {
            None => unreachable!(),
            Some(trail) => {
                let mut trail = trail;
                trail.set_processed(parts.processed);
                Ok(trail)
            }
        }
    }
}

/// Whether these parts are in form.
fn is_image(alloc: Global, parts: &Parts) -> Result<bool, AllocError>
    ensures { IfOk result (λ b. IsTrue b ↔ IsImage (node_of parts.now)) }
{
    if !may_stand(parts.profile, parts.conflicts_since_dropping) {
        return Ok(false);
    }
    if !has_ranges(parts) {
        return Ok(false);
    }
    let variables = parts.variables;
    if !scan::are_literals(alloc, variables, parts.assumptions.as_slice())? {
        return Ok(false);
    }
    if !scan::is_order(alloc, variables, parts.order.as_slice())? {
        return Ok(false);
    }
    if scan::trail_of(alloc, variables, parts.trail.as_slice())?.is_none() {
        return Ok(false);
    }
    if !scan::are_clauses(variables, parts.clauses.as_slice()) {
        return Ok(false);
    }
    Ok(scan::numbers_rise(parts.clauses.as_slice()))
}

/// Whether the numbers of these parts are in their ranges, and the lengths are right.
fn has_ranges(parts: &Parts) -> bool
    ensures { IsTrue result ↔ HasRanges (node_of parts.now) }
{
    if 63 < parts.index {
        return false;
    }
    if LIMITS.variables < parts.variables {
        return false;
    }
    if 1 << 57 <= parts.serial {
        return false;
    }
    if parts.restart_number < 1 {
        return false;
    }
    if parts.trail.len() + 1 < parts.processed as usize {
        return false;
    }
    parts.phases.len() == parts.variables as usize
}

/// Whether so many conflicts may count for a dropping under a profile.
fn may_stand(profile: Profile, conflicts_since_dropping: u32) -> bool
    ensures { result ≡ may_stand (policy profile).reduction conflicts_since_dropping }
{
    match profile.policy().reduction {
        Reduction::Never => conflicts_since_dropping == 0,
        Reduction::After { .. } => true,
    }
}
