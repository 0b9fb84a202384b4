//! From images to bytes.

ghost use Rattle.std.specs.Prelude.{◌≡◌, ℕ, ◌<◌, ◌^◌, ◌++◌, List, Ok, length, flat_map, IfOk, OnOk};
ghost use Rattle.std.specs.{Int.{w32, w64}, List.{AllByRecursion}};
ghost use Rattle.mal_freeze.specs.{Parted.{node_of}, Reading.{image_in}, Spelling.{spelled, dropping_bytes, number_or_0, code_of, goal_of, counted, phase_bytes, entry_bytes, clause_bytes, head_bytes, search_bytes, verdict_bytes, list_bytes, image_bytes}, Widths.{FitsNumber, FitsGoal, FitsEntry, FitsClause, FitsCounts, FitsLists, Fits}};

use crate::form::Form;
use crate::image::Image;
use crate::parts::Parts;
use mal_base::{ClauseId, Lit, NumberedClause, Profile, TrailEntry, Var, Verdict, grown};
use std::alloc::{AllocError, Global};

/// The one spelling of an image, which `thaw` reads again. More clauses than 32 bits count are out of memory too.
pub fn freeze(alloc: Global, image: &Image) -> Result<Vec<u8>, AllocError>
    ensures spelled { IfOk result (λ v. v.items ≡ image_bytes image.now) }
    ensures again { IfOk result (λ v. image_in v.items ≡ Ok image.now) }
{
    let bytes = bytes_of(alloc, image.parts())?;
    Ok(bytes)
}

/// The bytes of the image of these parts.
fn bytes_of(alloc: Global, parts: &Parts) -> Result<Vec<u8>, AllocError>
    ensures spelled { IfOk result (λ v. v.items ≡ image_bytes (node_of parts.now)) }
    ensures fits { IfOk result (λ _. Fits (node_of parts.now)) }
{
    let mut out = Vec::new(alloc);
    put_u64(&mut out, Form::of(parts.profile).magic)?;
    put_head(&mut out, parts)?;
    put_search(&mut out, parts)?;
    put_verdict(&mut out, &parts.verdict)?;
    put_lists(&mut out, parts)?;
    Ok(out)
}

/// Puts a number of 4 bytes after the others.
#[tactic(auto, unfolding(crate::specs::Spelling::spelled))]
fn put_u32(out: &mut Vec<u8>, number: u32) -> Result<(), AllocError>
    ensures spelled { OnOk result (out.new.items ≡ out.old.items ++ spelled w32 number) }
    ensures fits { number < 2 ^ 32 }
{
    out.extend_from_slice(&number.to_be_bytes())
}

/// Puts a number of 8 bytes after the others.
#[tactic(auto, unfolding(crate::specs::Spelling::spelled))]
fn put_u64(out: &mut Vec<u8>, number: u64) -> Result<(), AllocError>
    ensures spelled { OnOk result (out.new.items ≡ out.old.items ++ spelled w64 number) }
    ensures fits { number < 2 ^ 64 }
{
    out.extend_from_slice(&number.to_be_bytes())
}

/// Puts a count after the others, where 32 bits hold it.
fn put_count(out: &mut Vec<u8>, count: usize) -> Result<(), AllocError>
    ensures spelled { OnOk result (out.new.items ≡ out.old.items ++ spelled w32 count) }
    ensures fits { OnOk result (count < 2 ^ 32) }
{
    let count = grown(count, 0, u32::MAX as usize)?;
    put_u32(out, count as u32)
}

/// The number of a clause, 0 for none.
fn number_or_0(id: Option<ClauseId>) -> u64
    ensures value { result ≡ number_or_0 id }
    ensures fits { FitsNumber id }
{
    match id {
        None => 0,
        Some(id) => id.number(),
    }
}

/// Puts the index, the variables, the serial, and the conflicts since the last restart after the others.
fn put_head(out: &mut Vec<u8>, parts: &Parts) -> Result<(), AllocError>
    ensures spelled { OnOk result (out.new.items ≡ out.old.items ++ head_bytes (node_of parts.now)) }
    ensures fits { OnOk result (parts.now.conflicts_since_restart < 2 ^ 32) }
{
    put_u32(out, parts.index)?;
    put_u32(out, parts.variables)?;
    put_u64(out, parts.serial)?;
    put_u32(out, parts.conflicts_since_restart)
}

/// Puts the number of the restart, the conflicts since the last dropping where the profile counts them, the batches
/// handled, and the waiting conflict after the others.
fn put_search(out: &mut Vec<u8>, parts: &Parts) -> Result<(), AllocError>
    ensures spelled { OnOk result (out.new.items ≡ out.old.items ++ search_bytes (node_of parts.now)) }
    ensures fits { OnOk result (FitsCounts (node_of parts.now)) }
{
    put_u32(out, parts.restart_number)?;
    put_dropping(out, parts.profile, parts.conflicts_since_dropping)?;
    put_u32(out, parts.processed)?;
    put_u64(out, number_or_0(parts.conflict))
}

/// Puts the conflicts since the last dropping after the others, where the profile counts them.
fn put_dropping(out: &mut Vec<u8>, profile: Profile, count: u32) -> Result<(), AllocError>
    ensures spelled { OnOk result (out.new.items ≡ out.old.items ++ dropping_bytes profile count) }
    ensures fits { count < 2 ^ 32 }
{
    if Form::of(profile).counts {
        put_u32(out, count)
    } else {
        Ok(())
    }
}

/// Puts a verdict after the others, and its goal.
fn put_verdict(out: &mut Vec<u8>, verdict: &Option<Verdict>) -> Result<(), AllocError>
    ensures spelled { OnOk result (out.new.items ≡ out.old.items ++ verdict_bytes verdict.now) }
    ensures fits { OnOk result (FitsGoal verdict.now) }
{
    out.push(code_of(verdict))?;
    put_u64(out, goal_of(verdict))
}

/// The code of a verdict: 0 for none, 1 for satisfiable, 2 for unsatisfiable.
fn code_of(verdict: &Option<Verdict>) -> u8
    ensures { result ≡ code_of verdict.now }
{
    match verdict {
        None => 0,
        Some(verdict) => match verdict {
            Verdict::Satisfiable => 1,
            Verdict::Unsatisfiable { .. } => 2,
        },
    }
}

/// The number of the goal of a verdict, 0 where it has none.
fn goal_of(verdict: &Option<Verdict>) -> u64
    ensures value { result ≡ goal_of verdict.now }
    ensures fits { FitsGoal verdict.now }
{
    match verdict {
        None => 0,
        Some(verdict) => match verdict {
            Verdict::Satisfiable => 0,
            Verdict::Unsatisfiable { goal } => goal.number(),
        },
    }
}

/// Puts the lists after the others: the assumptions, the order and the phases, the trail, and the clauses.
fn put_lists(out: &mut Vec<u8>, parts: &Parts) -> Result<(), AllocError>
    ensures spelled { OnOk result (out.new.items ≡ out.old.items ++ list_bytes (node_of parts.now)) }
    ensures fits { OnOk result (FitsLists (node_of parts.now)) }
{
    put_counted(out, parts.assumptions.as_slice())?;
    put_each(out, parts.order.as_slice())?;
    put_each(out, parts.phases.as_slice())?;
    put_counted(out, parts.trail.as_slice())?;
    put_counted(out, parts.clauses.as_slice())
}

/// What an image has lists of.
trait Piece {
    /// How it is spelled.
    ghost spelled: { Self → List ℕ };

    /// That its numbers fit the fields.
    ghost fits: { Self → Type 0 };

    /// Puts it after the others.
    fn put(&self, out: &mut Vec<u8>) -> Result<(), AllocError>
        ensures spelled { OnOk result (out.new.items ≡ out.old.items ++ spelled self.now) }
        ensures fits { OnOk result (fits self.now) };
}

impl Piece for Lit {
    ghost spelled = { spelled w32 };

    ghost fits = { λ _. Unit {0} };

    fn put(&self, out: &mut Vec<u8>) -> Result<(), AllocError> {
        put_u32(out, self.code())
    }
}

impl Piece for Var {
    ghost spelled = { spelled w32 };

    ghost fits = { λ _. Unit {0} };

    fn put(&self, out: &mut Vec<u8>) -> Result<(), AllocError> {
        put_u32(out, self.number())
    }
}

/// A phase.
impl Piece for bool {
    ghost spelled = { phase_bytes };

    ghost fits = { λ _. Unit {0} };

    fn put(&self, out: &mut Vec<u8>) -> Result<(), AllocError> {
        if *self {
            out.push(1)?;
        } else {
            out.push(0)?;
        }
        Ok(())
    }
}

impl Piece for TrailEntry {
    ghost spelled = { entry_bytes };

    ghost fits = { FitsEntry };

    fn put(&self, out: &mut Vec<u8>) -> Result<(), AllocError> {
        put_u32(out, self.lit.code())?;
        put_u64(out, number_or_0(self.reason))?;
        put_u32(out, self.level)
    }
}

impl Piece for NumberedClause {
    ghost spelled = { clause_bytes };

    ghost fits = { FitsClause };

    fn put(&self, out: &mut Vec<u8>) -> Result<(), AllocError> {
        put_u64(out, self.id().number())?;
        put_counted(out, self.clause().lits())
    }
}

/// Puts pieces after the others.
fn put_each<P: Piece>(out: &mut Vec<u8>, pieces: &[P]) -> Result<(), AllocError>
    ensures spelled { OnOk result (out.new.items ≡ out.old.items ++ flat_map P.spelled pieces.now) }
    ensures fits { OnOk result (AllByRecursion P.fits pieces.now) }
{
    for piece in pieces {
        piece.put(out)?;
    }
    Ok(())
}

/// Puts a count and so many pieces after the others.
fn put_counted<P: Piece>(out: &mut Vec<u8>, pieces: &[P]) -> Result<(), AllocError>
    ensures spelled { OnOk result (out.new.items ≡ out.old.items ++ counted P.spelled pieces.now) }
    ensures fits { OnOk result (AllByRecursion P.fits pieces.now) }
    ensures count { OnOk result (length pieces.now < 2 ^ 32) }
{
    put_count(out, pieces.len())?;
    put_each(out, pieces)
}
