//! The section of the slices that were run.

ghost use Rattle.std.specs.Prelude.{◌≡◌, ◌<◌, ◌++◌, flat_map, length, slice_get, Some, IfOk, OnOk};
ghost use Rattle.mal_base.specs.NumberedClause.{Line};
ghost use Rattle.spec_job.specs.SoloMachine.{Slice};
ghost use Rattle.spec_text.specs.Lines.{line_of};
ghost use Rattle.spec_proof.specs.Log.{added};
ghost use Rattle.spec_lrat.specs.Written.{row_of};
ghost use Rattle.spec_parcel.specs.Packed.{listed, slice_bytes};
ghost use Rattle.mal_parcel.specs.Taking.{Takes, ends_at};

use crate::answers::phase_code;
use crate::sized::{put_length, put_sized};
use mal_base::Lines;
use mal_job::Job;
use mal_lrat::put_added;
use std::alloc::{AllocError, Global};

/// Puts how many slices of a job were run, and then each of them, after the others.
pub fn put_slices(alloc: Global, out: &mut Vec<u8>, job: &Job) -> Result<(), AllocError>
    ensures { OnOk result (out.new.items ≡ out.old.items ++ listed slice_bytes job.now.titled.state.slices) }
{
    put_length(out, job.slice_count())?;
    put_each(alloc, out, job)
}

/// Puts the slices of a job after the others.
fn put_each(alloc: Global, out: &mut Vec<u8>, job: &Job) -> Result<(), AllocError>
    ensures { OnOk result (out.new.items ≡ out.old.items ++ flat_map slice_bytes job.now.titled.state.slices) }
{
    for n in 0..job.slice_count() {
        put_at(alloc, out, job, n)?;
    }
    Ok(())
}

/// Puts a slice of a job after the others, the slices counted from 0.
fn put_at(alloc: Global, out: &mut Vec<u8>, job: &Job, n: usize) -> Result<(), AllocError>
    requires { n < length job.now.titled.state.slices }
    ensures { OnOk result
        ((c : Slice) → slice_get job.now.titled.state.slices n ≡ Some c
        → out.new.items ≡ out.old.items ++ slice_bytes c) }
{
    let (lines, ends) = job.slice(n);
    put_slice(alloc, out, lines, ends)
}

/// Puts a slice after the others: whether its verdict answered a revision, how many lines it logged, and their text.
pub fn put_slice(
    alloc: Global,
    out: &mut Vec<u8>,
    lines: &Lines,
    ends: bool,
) -> Result<(), AllocError>
    ensures { OnOk result (out.new.items ≡ out.old.items ++ slice_bytes (record { lines = lines.now.lines; ends = ends })) }
{
    let text = text_of(alloc, lines)?;
    out.push(phase_code(ends))?;
    put_length(out, lines.count())?;
    put_sized(out, text.as_slice())
}

/// The text of lines.
fn text_of(alloc: Global, lines: &Lines) -> Result<Vec<u8>, AllocError>
    ensures { IfOk result (λ v. v.items ≡ flat_map (λ l. line_of (row_of (added l))) lines.now.lines) }
{
    let mut out = Vec::new(alloc);
    for n in 0..lines.count() {
        put_line(&mut out, lines, n)?;
    }
    Ok(out)
}

/// Puts the text of a line after the others, the lines counted from 0.
fn put_line(out: &mut Vec<u8>, lines: &Lines, n: usize) -> Result<(), AllocError>
    requires { n < length lines.now.lines }
    ensures { OnOk result
        ((line : Line) → slice_get lines.now.lines n ≡ Some line
        → out.new.items ≡ out.old.items ++ line_of (row_of (added line))) }
{
    put_added(out, lines.id(n), lines.lits(n), lines.hints(n))
}

/// Whether the slice at the front ends a revision, which its first byte says, and what stands after that.
pub fn take_ends(bytes: &[u8]) -> Option<(bool, &[u8])>
    ensures { Takes (λ x. (x.0, x.1.now)) result (ends_at bytes.now) }
{
    match bytes {
        [] => None,
        [byte, rest @ ..] => Some((*byte == 1, rest)),
    }
}
