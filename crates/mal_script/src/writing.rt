//! Writing scripts.

ghost use Rattle.std.specs.Prelude.{◌≡◌, ◌∷◌, ◌++◌, [], flat_map, codes, IfOk, OnOk};
ghost use Rattle.spec_text.specs.Lines.{line_of, text_of};
ghost use Rattle.spec_dimacs.specs.Written.{closed_words};
ghost use Rattle.spec_script.specs.Script.{job_rows, job_words, revision_rows, spelling, step_rows, tenant_words, weight_words};

use crate::script::{Script, ScriptJob};
use mal_base::{Ask, Lit, Name, Weight};
use mal_dimacs::{put_block, put_closed};
use mal_revision::Revision;
use mal_text::{end_line, put_ask, put_decimal, put_line, put_word};
use spec_script::Step;
use std::alloc::{AllocError, Global};

/// The one text of a script: for each job the line of its tenant, the line of its name and its ask, for each step its
/// lines, and the line that ends the job. The lines of a revision are a header, a line a clause and that of its
/// assumptions; a tautology is written as the literals 1 and -1. A change of the ask is one line.
pub fn write(alloc: Global, script: &Script) -> Result<Vec<u8>, AllocError>
    ensures { IfOk result (λ text. text.items ≡ spelling script.now) }
{
    let mut out = Vec::new(alloc);
    let jobs = script.jobs();
    for job in jobs {
        put_job(&mut out, job)?;
    }
    Ok(out)
}

/// Writes the lines of a job.
fn put_job(out: &mut Vec<u8>, job: &ScriptJob) -> Result<(), AllocError>
    ensures { OnOk result (out.new.items ≡ out.old.items ++ text_of (job_rows job.now)) }
{
    put_tenant(out, job.tenant())?;
    put_terms(out, job.name(), job.ask())?;
    put_steps(out, job.steps())?;
    put_line(out, b"e", &[])?;
    Ok(())
}

/// Writes the line of a tenant.
fn put_tenant(out: &mut Vec<u8>, tenant: Name) -> Result<(), AllocError>
    ensures { OnOk result (out.new.items ≡ out.old.items ++ line_of (tenant_words tenant)) }
{
    put_line(out, b"t", &[tenant.as_bytes()])?;
    Ok(())
}

/// Writes the line that begins a job.
fn put_terms(out: &mut Vec<u8>, name: Name, ask: Ask) -> Result<(), AllocError>
    ensures { OnOk result (out.new.items ≡ out.old.items ++ line_of (job_words name ask)) }
{
    out.push(b'j')?;
    put_word(out, name.as_bytes())?;
    put_ask(out, ask)?;
    end_line(out)?;
    Ok(())
}

/// Writes the lines of some steps.
fn put_steps(out: &mut Vec<u8>, steps: &[Step]) -> Result<(), AllocError>
    ensures { OnOk result (out.new.items ≡ out.old.items ++ flat_map (λ s. text_of (step_rows s)) steps.now) }
{
    for step in steps {
        put_step(out, step)?;
    }
    Ok(())
}

/// Writes the lines of a step.
fn put_step(out: &mut Vec<u8>, step: &Step) -> Result<(), AllocError>
    ensures { OnOk result (out.new.items ≡ out.old.items ++ text_of (step_rows step.now)) }
{
    match step {
        Step::Revise(revision) => put_revision(out, revision),
        Step::Reask(weight) => put_weight(out, *weight),
    }
}

/// Writes the lines of a revision.
fn put_revision(out: &mut Vec<u8>, revision: &Revision) -> Result<(), AllocError>
    ensures { OnOk result (out.new.items ≡ out.old.items ++ text_of (revision_rows revision.now)) }
{
    put_block(out, revision.variables(), revision.clauses())?;
    put_assumptions(out, revision.assumptions())?;
    Ok(())
}

/// Writes the line that changes what a job asks for.
fn put_weight(out: &mut Vec<u8>, weight: Weight) -> Result<(), AllocError>
    ensures { OnOk result (out.new.items ≡ out.old.items ++ line_of (weight_words weight)) }
{
    out.push(b'q')?;
    put_decimal(out, u64::from(weight.priority()))?;
    put_decimal(out, u64::from(weight.demand()))?;
    end_line(out)?;
    Ok(())
}

/// Writes the line of the assumptions.
fn put_assumptions(out: &mut Vec<u8>, assumptions: &[Lit]) -> Result<(), AllocError>
    ensures { OnOk result (out.new.items ≡ out.old.items ++ line_of (codes "a" ∷ closed_words assumptions.now)) }
{
    out.extend_from_slice(b"a ")?;
    put_closed(out, assumptions)?;
    Ok(())
}
