//! Writing replies.

ghost use Rattle.std.specs.Prelude.{◌≡◌, ◌<◌, ◌≤◌, [], ◌∷◌, ◌++◌, codes, length, slice_get, Some, IfOk, OnOk};
ghost use Rattle.mal_base.specs.{Limits.{greatest_variable}, NumberedClause.{Line}, Literals.{literal}};
ghost use Rattle.spec_text.specs.{Lines.{line_of, text_of}, Numbers.{literal_word}};
ghost use Rattle.spec_report.specs.Replies.{head_words, proof_row, reply_text, told_rows};
ghost use Rattle.mal_report.specs.{Rows.{cause_row, failed_row, model_row, proof_rows}, Told.{body_of}};

use crate::told::{Cause, Told};
use itoa::Buffer;
use mal_base::{Lines, Lit, Name, Profile};
use mal_lrat::{put_added, put_lits};
use mal_text::taker::{Taker, put_words};
use mal_text::{end_line, put_line, put_profile, put_word};
use std::alloc::{AllocError, Global};

/// The reply to a job's revision, numbered from 1, that tells this. The job's solvers have this profile.
#[tactic(auto, unfolding(spec_report::specs::Replies::reply_text))]
pub fn reply(
    alloc: Global,
    tenant: &Name,
    job: &Name,
    r: u32,
    profile: Profile,
    told: &Told,
) -> Result<Vec<u8>, AllocError>
    ensures { IfOk result (λ v. v.items ≡ reply_text tenant.now job.now r profile (body_of told.now)) }
{
    let mut out = Vec::new(alloc);
    put_head(&mut out, tenant, job, r, profile)?;
    put_told(&mut out, told)?;
    Ok(out)
}

/// Writes the first line of a reply, which names the profile, where it is not the first.
#[tactic(auto, unfolding(spec_report::specs::Replies::head_words))]
fn put_head(
    out: &mut Vec<u8>,
    tenant: &Name,
    job: &Name,
    r: u32,
    profile: Profile,
) -> Result<(), AllocError>
    ensures { OnOk result
        (out.new.items ≡ out.old.items ++ line_of (codes "r" ∷ head_words tenant.now job.now r profile)) }
{
    let mut buffer = Buffer::new();
    let words = [
        tenant.as_bytes(),
        job.as_bytes(),
        buffer.format(r).as_bytes(),
    ];
    out.put(b"r")?;
    put_words(out, &words)?;
    put_profile(out, profile)?;
    end_line(out)?;
    Ok(())
}

/// Writes the lines after the first: the word of what is told, and what is told.
fn put_told(out: &mut Vec<u8>, told: &Told) -> Result<(), AllocError>
    ensures { OnOk result (out.new.items ≡ out.old.items ++ text_of (told_rows (body_of told.now))) }
{
    match told {
        Told::Model(model) => {
            put_line(out, b"s", &[b"SATISFIABLE"])?;
            put_model(out, model.as_slice())?;
        }
        Told::Proof { failed, lines } => {
            put_line(out, b"s", &[b"UNSATISFIABLE"])?;
            put_failed(out, failed.as_slice())?;
            put_proof(out, lines)?;
        }
        Told::Spent(slices) => put_unknown(out, Cause::Spent(*slices))?,
        Told::Starved => put_unknown(out, Cause::Starved)?,
    }
    Ok(())
}

/// Writes that the answer is unknown, and the cause.
fn put_unknown(out: &mut Vec<u8>, cause: Cause) -> Result<(), AllocError>
    ensures { OnOk result (out.new.items ≡ out.old.items ++ text_of ((codes "s" ∷ codes "UNKNOWN" ∷ []) ∷ cause_row cause ∷ [])) }
{
    put_line(out, b"s", &[b"UNKNOWN"])?;
    put_cause(out, cause)
}

/// Writes the line of a cause.
pub fn put_cause(out: &mut Vec<u8>, cause: Cause) -> Result<(), AllocError>
    ensures { OnOk result (out.new.items ≡ out.old.items ++ line_of (cause_row cause)) }
{
    match cause {
        Cause::Spent(slices) => {
            let mut number = Buffer::new();
            put_line(out, b"u", &[b"spent", number.format(slices).as_bytes()])?;
        }
        Cause::Starved => put_line(out, b"u", &[b"starved", b"3"])?,
    }
    Ok(())
}

/// Writes the line of a model: the values of variable 1 and the next ones, each of which a literal can be of.
pub fn put_model(out: &mut Vec<u8>, model: &[bool]) -> Result<(), AllocError>
    requires { length model.now ≤ greatest_variable }
    ensures { OnOk result (out.new.items ≡ out.old.items ++ line_of (model_row model.now)) }
{
    out.push(b'v')?;
    let mut number = 0;
    for value in model {
        number += 1;
        put_literal(out, number, *value)?;
    }
    put_word(out, b"0")?;
    end_line(out)?;
    Ok(())
}

/// Writes a space and then the literal that a variable, which is 1 or more, makes true with this value.
fn put_literal(out: &mut Vec<u8>, number: u32, value: bool) -> Result<(), AllocError>
    requires some { 1 ≤ number }
    requires bound { number ≤ greatest_variable }
    ensures { OnOk result (out.new.items ≡ out.old.items ++ 32 ∷ literal_word (literal number value)) }
{
    let mut buffer = Buffer::new();
    let magnitude = i64::from(number);
    let signed = if value { magnitude } else { -magnitude };
    put_word(out, buffer.format(signed).as_bytes())?;
    Ok(())
}

/// Writes the line of the assumptions that fail.
pub fn put_failed(out: &mut Vec<u8>, failed: &[Lit]) -> Result<(), AllocError>
    ensures { OnOk result (out.new.items ≡ out.old.items ++ line_of (failed_row failed.now)) }
{
    out.push(b'k')?;
    put_lits(out, failed)?;
    end_line(out)?;
    Ok(())
}

/// Writes the lines of a proof.
pub fn put_proof(out: &mut Vec<u8>, lines: &Lines) -> Result<(), AllocError>
    ensures { OnOk result (out.new.items ≡ out.old.items ++ text_of (proof_rows lines.now.lines)) }
{
    for n in 0..lines.count() {
        put_row(out, lines, n)?;
    }
    Ok(())
}

/// Writes a line of a proof, the lines counted from 0.
fn put_row(out: &mut Vec<u8>, lines: &Lines, n: usize) -> Result<(), AllocError>
    requires { n < length lines.now.lines }
    ensures { OnOk result
        ((line : Line) → slice_get lines.now.lines n ≡ Some line
        → out.new.items ≡ out.old.items ++ line_of (proof_row line)) }
{
    out.extend_from_slice(b"l ")?;
    put_added(out, lines.id(n), lines.lits(n), lines.hints(n))?;
    Ok(())
}
