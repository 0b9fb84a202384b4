//! The section of the script.

ghost use Rattle.std.specs.Prelude.{◌≡◌, ◌++◌, flat_map, IfOk, OnOk};
ghost use Rattle.spec_job.specs.Lawful.{IsLawful};
ghost use Rattle.spec_script.specs.Script.{spelling};
ghost use Rattle.spec_parcel.specs.Packed.{first_ask, script_of, scripted, sized, steps_at};
ghost use Rattle.mal_parcel.specs.Owned.{own_of, owned};

use crate::owned::{OwnEvent, Owned};
use crate::sized::put_sized;
use mal_base::{Ask, Name};
use mal_job::Job;
use mal_script::{Script, ScriptJob, Step, write};
use std::alloc::{AllocError, Global};

/// Puts the text of a script after the others, after its length.
pub fn put_script(alloc: Global, out: &mut Vec<u8>, script: &Script) -> Result<(), AllocError>
    ensures { OnOk result (out.new.items ≡ out.old.items ++ sized (spelling script.now)) }
{
    let text = write(alloc, script)?;
    put_sized(out, text.as_slice())
}

/// The script of a job with these own events, which are lawful.
pub fn script_of(alloc: Global, own: &Owned, job: &Job) -> Result<Script, AllocError>
    requires { IsLawful own.now }
    ensures { IfOk result (λ s. s ≡ script_of job.now.titled.key own.now) }
{
    let (tenant, name) = (job.tenant(), job.name());
    // For the proof.
    let _ = tenant.as_bytes();
    let _ = name.as_bytes();
    let events = own.as_slice();
    let scripted = scripted(alloc, tenant, name, first_ask(events), events)?;
    let mut jobs = Vec::new(alloc);
    jobs.push(scripted)?;
    Ok(Script::of_form(jobs))
}

/// The ask of the opening, which comes first among lawful own events.
fn first_ask(events: &[OwnEvent]) -> Ask
    requires { IsLawful (owned events.now) }
    ensures { first_ask (owned events.now) ≡ result }
{
    match events.first() {
        Some(OwnEvent::Opened(ask)) => *ask,
        _ => unreachable!(),
    }
}

/// The job of a script with the ask of the opening and with all revisions and changes of the ask. The revisions share
/// their lists.
pub fn scripted(
    alloc: Global,
    tenant: Name,
    job: Name,
    ask: Ask,
    events: &[OwnEvent],
) -> Result<ScriptJob, AllocError>
    requires { first_ask (owned events.now) ≡ ask }
    ensures { IfOk result (λ j. j ≡ scripted (record { tenant = tenant; job = job }) (owned events.now)) }
{
    let steps = steps_of(alloc, events)?;
    Ok(ScriptJob::new(tenant, job, ask, steps))
}

/// The steps that own events post.
fn steps_of(alloc: Global, events: &[OwnEvent]) -> Result<Vec<Step>, AllocError>
    ensures { IfOk result (λ v. v.items ≡ flat_map steps_at (owned events.now)) }
{
    let mut steps = Vec::new(alloc);
    for event in events {
        put_step(&mut steps, event)?;
    }
    Ok(steps)
}

/// Puts the step that an own event posts after the others, where it posts one.
fn put_step(steps: &mut Vec<Step>, event: &OwnEvent) -> Result<(), AllocError>
    ensures { OnOk result (steps.new.items ≡ steps.old.items ++ steps_at (own_of event.now)) }
{
    match event {
        OwnEvent::Revised(revision) => {
            let revision = revision.copy()?;
            steps.push(Step::Revise(revision))?;
        }
        OwnEvent::Reasked(weight) => steps.push(Step::Reask(*weight))?,
        _ => {}
    }
    Ok(())
}
