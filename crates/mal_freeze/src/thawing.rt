//! From bytes to images.

ghost use Rattle.std.specs.Prelude.{◌≡◌, true, false, Ok, IfOk, IfErr, MatchOption};
ghost use Rattle.mal_freeze.specs.{Parted.{node_of}, Reading.{Gives, ArePartsOf, fits_goal, verdict_in, is_canonical, node_in, image_in}, Spelling.{image_bytes}};

use crate::fault::ThawFault;
use crate::fields::{Ended, Fields};
use crate::image::Image;
use crate::numbered::held_of;
use crate::parts::Parts;
use crate::reading;
use mal_base::{ClauseId, Verdict};
use std::alloc::{AllocError, Global};

/// The image that these bytes spell. The bytes are all of its one spelling; else the fault is the first from front to
/// back.
pub fn thaw(alloc: Global, bytes: &[u8]) -> Result<Image, ThawFault>
    // What is read is spelled so.
    ensures spelled { IfOk result (λ i. bytes.now ≡ image_bytes i) }
    // Which image or fault it is.
    ensures exact { Gives (λ i. i) result (image_in bytes.now) }
{
    match image_at(alloc, bytes) {
        Ok(image) => Ok(image),
        Err(fault) => Err(fault),
    }
}

/// The image of bytes that are known to spell one: nothing is judged again. The only fault left is out of memory.
pub fn thaw_known(alloc: Global, bytes: &[u8]) -> Result<Image, AllocError>
    requires { IfErr (image_in bytes.now) (λ _. ⊥) }
    ensures { IfOk result (λ i. image_in bytes.now ≡ Ok i) }
{
    let fields = match reading::fields(alloc, bytes) {
        Ok(fields) => fields,
        Err(ThawFault::OutOfMemory) => return Err(AllocError),
        Err(ThawFault::BadMagic) => unreachable!(),
        Err(ThawFault::Truncated) => unreachable!(),
        Err(ThawFault::BadField { .. }) => unreachable!(),
        Err(ThawFault::NotCanonical) => unreachable!(),
    };
    match parts_of(alloc, fields)? {
        None => unreachable!(),
        Some(parts) => Ok(Image::of_form(parts)),
    }
}

/// The image that these bytes spell, else the first fault.
#[tactic(auto, unfolding(crate::specs::Reading::image_in))]
fn image_at(alloc: Global, bytes: &[u8]) -> Result<Image, ThawFault>
    ensures { Gives (λ i. i) result (image_in bytes.now) }
{
    let fields = reading::fields(alloc, bytes)?;
    // Orders are tested once all fields are read, so every fault of a range or of the end comes before.
    match image_of(alloc, fields)? {
        None => Err(ThawFault::NotCanonical),
        Some(image) => Ok(image),
    }
}

/// The image of these fields. None exactly where bytes are left over, the goal does not go with the verdict, or the
/// fields are in no order.
fn image_of(alloc: Global, fields: Fields) -> Result<Option<Image>, AllocError>
    ensures { IfOk result
        (λ o. MatchOption o (is_canonical fields ≡ false) (λ i. (i ≡ node_in fields) × (is_canonical fields ≡ true))) }
{
    match parts_of(alloc, fields)? {
        None => Ok(None),
        Some(parts) => Image::new(alloc, parts),
    }
}

/// The parts of an image that these fields give. None where bytes are left over, the goal does not go with the verdict,
/// or a clause is in no order.
fn parts_of(alloc: Global, fields: Fields) -> Result<Option<Parts>, AllocError>
    ensures { IfOk result (λ o. MatchOption o (is_canonical fields ≡ false) (λ p. ArePartsOf fields (node_of p))) }
{
    if fields.left != 0 {
        return Ok(None);
    }
    let verdict = match verdict_of(fields.ended) {
        None => return Ok(None),
        Some(verdict) => verdict,
    };
    let clauses = match held_of(alloc, fields.lists.clauses.as_slice())? {
        None => return Ok(None),
        Some(clauses) => clauses,
    };
    Ok(Some(Parts {
        index: fields.head.index,
        profile: fields.profile,
        variables: fields.head.variables,
        serial: fields.head.serial,
        conflicts_since_restart: fields.head.conflicts_since_restart,
        restart_number: fields.search.restart_number,
        conflicts_since_dropping: fields.search.conflicts_since_dropping,
        processed: fields.search.processed,
        conflict: fields.search.conflict,
        verdict,
        assumptions: fields.lists.assumptions,
        order: fields.lists.order,
        phases: fields.lists.phases,
        trail: fields.lists.trail,
        clauses,
    }))
}

/// The verdict of a code and a goal. None exactly where the goal does not go with the code.
fn verdict_of(ended: Ended) -> Option<Option<Verdict>>
    ensures { MatchOption result (fits_goal ended ≡ false) (λ v. (v ≡ verdict_in ended) × (fits_goal ended ≡ true)) }
{
    match ClauseId::of(ended.goal) {
        None => match ended.code {
            2 => None,
            1 => Some(Some(Verdict::Satisfiable)),
            _ => Some(None),
        },
        Some(goal) => match ended.code {
            2 => Some(Some(Verdict::Unsatisfiable { goal })),
            _ => None,
        },
    }
}
