//! A job does again what its own events tell. Slices are not run: their lines and answers stand in bytes, which are
//! known.

ghost use Rattle.std.specs.Prelude.{◌≡◌, [], ◌∷◌, ◌++◌, ◌≤◌, false, true, drop, flat_map, is_some, length, replicate, IfOk, MatchOption, OnOk};
ghost use Rattle.mal_base.specs.Limits.{limits};
ghost use Rattle.mal_base.specs.declared.verdict.Outcome.TheVariants.{Ran};
ghost use Rattle.spec_job.specs.{Lawful.{MayGrow, MayPass}, Models.{variables_of, variables_through}, SoloMachine.{Finished, Revised, Started, place_at, solo, startable}, Viewed.{and_own}};
ghost use Rattle.spec_parcel.specs.Packed.{answer_bytes};
ghost use Rattle.mal_job.specs.Viewed.{shared};
ghost use Rattle.mal_parcel.specs.{Answered.{given_at}, Owned.{own_of}, Replaying.{IsBefore, IsLow, IsReplayed, is_ran, slices_left}, Taking.{Takes}, Told.{slice_at}};

use crate::answers::take_answer;
use crate::owned::OwnEvent;
use crate::passing::{behind_answers, take_told};
use crate::reading::lines_of;
use mal_base::{Answer, Lines, Outcome};
use mal_job::Job;
use mal_revision::Revision;
use std::alloc::{AllocError, Global};
use std::sync::Arc;

/// A job takes up the next of its own events. Answers what is left of the bytes of its slices and of its answers.
pub fn again<'a>(
    alloc: Global,
    job: &mut Job,
    event: &OwnEvent,
    slices: &'a [u8],
    answers: &'a [u8],
) -> Result<(&'a [u8], &'a [u8]), AllocError>
    requires { IsBefore (own_of event.now) job.old slices.now answers.now }
    ensures { IfOk result (λ left. (b : IsBefore (own_of event.now) job.old slices.now answers.now)
        → IsReplayed b.number b.key (b.past ++ own_of event.now ∷ b.later) (b.past ++ own_of event.now ∷ []) job.new
        left.0.now left.1.now) }
{
    let known = job.answers().len();
    let slices = enter(alloc, job, event, slices, answers)?;
    let answers = behind_new(job, known, answers);
    Ok((slices, answers))
}

/// What is left of the bytes of a job's answers after those from this one on.
fn behind_new<'a>(job: &Job, known: usize, answers: &'a [u8]) -> &'a [u8]
    ensures { result.now ≡ drop (length (flat_map answer_bytes (drop known job.now.titled.state.answers))) answers.now }
{
    let given = job.answers();
    let (_, new) = given.split_at(known.min(given.len()));
    behind_answers(answers, new)
}

/// A job takes up the next of its own events. Answers what is left of the bytes of its slices.
fn enter<'a>(
    alloc: Global,
    job: &mut Job,
    event: &OwnEvent,
    slices: &'a [u8],
    answers: &[u8],
) -> Result<&'a [u8], AllocError>
    requires { IsBefore (own_of event.now) job.old slices.now answers.now }
    ensures job { OnOk result (job.new ≡ and_own job.old (own_of event.now)) }
    ensures slices { IfOk result (λ r. (b : IsBefore (own_of event.now) job.old slices.now answers.now)
        → r.now ≡ slices_left (solo (b.past ++ own_of event.now ∷ b.later)) (solo (b.past ++ own_of event.now ∷ []))) }
{
    match ran(event) {
        Some(index) => follow_next(alloc, job, index, slices, answers),
        None => {
            take_up(job, event)?;
            Ok(slices)
        }
    }
}

/// The index of the node whose slice an own event runs.
fn ran(event: &OwnEvent) -> Option<u32>
    ensures { MatchOption result (is_ran (own_of event.now) ≡ false) (λ i. own_of event.now ≡ Finished i Ran) }
{
    match event {
        OwnEvent::Finished(index, Outcome::Ran) => Some(*index),
        OwnEvent::Finished(_, Outcome::Starved) => None,
        OwnEvent::Finished(_, Outcome::Lost) => None,
        OwnEvent::Opened(_) => None,
        OwnEvent::Revised(_) => None,
        OwnEvent::Reasked(_) => None,
        OwnEvent::Closed => None,
        OwnEvent::Volume(_) => None,
        OwnEvent::Started(_) => None,
        OwnEvent::Exchanged => None,
    }
}

/// A start that is out at this index ends with the next slice, and where that ends a revision with the next answer.
/// Answers what is left of the bytes of the slices.
fn follow_next<'a>(
    alloc: Global,
    job: &mut Job,
    index: u32,
    slices: &'a [u8],
    answers: &[u8],
) -> Result<&'a [u8], AllocError>
    requires { IsBefore (Finished index Ran) job.old slices.now answers.now }
    ensures job { OnOk result (job.new ≡ and_own job.old (Finished index Ran)) }
    ensures slices { IfOk result (λ r. (b : IsBefore (Finished index Ran) job.old slices.now answers.now)
        → r.now ≡ slices_left (solo (b.past ++ Finished index Ran ∷ b.later)) (solo (b.past ++ Finished index Ran ∷ []))) }
{
    spec_lrat::written_is_read();
    let Some((lines, ends, rest)) = take_slice(alloc, slices)? else {
        unreachable!();
    };
    let Some(answer) = next_answer(alloc, job, ends, answers)? else {
        unreachable!();
    };
    job.follow(index, lines, answer)?;
    Ok(rest)
}

/// The lines of the slice at the front, whether it ends a revision, and what stands after it. None where no slice
/// stands there.
fn take_slice(alloc: Global, bytes: &[u8]) -> Result<Option<(Lines, bool, &[u8])>, AllocError>
    ensures { IfOk result (λ o. Takes (λ x. (x.0.lines, (x.1, x.2.now))) o (slice_at bytes.now)) }
{
    let Some((ends, text, rest)) = take_told(bytes) else {
        return Ok(None);
    };
    match lines_of(alloc, text)? {
        None => Ok(None),
        Some(lines) => Ok(Some((lines, ends, rest))),
    }
}

/// The next answer of a job, where a slice ends a revision and the answer is a verdict. The outer option is None where no
/// answer stands at the front.
fn next_answer(
    alloc: Global,
    job: &Job,
    ends: bool,
    answers: &[u8],
) -> Result<Option<Option<Answer>>, AllocError>
    ensures { IfOk result (λ o. o ≡ given_at ends
        (variables_through job.now.titled.state.revisions (length job.now.titled.state.answers)) answers.now) }
{
    if !ends {
        return Ok(Some(None));
    }
    match take_answer(alloc, variables_now(job), answers)? {
        None => Ok(None),
        Some((answer, _)) => Ok(Some(answer)),
    }
}

/// How many variables a job has at the revision that is answered next.
fn variables_now(job: &Job) -> usize
    ensures value { result ≡ variables_through job.now.titled.state.revisions (length job.now.titled.state.answers) }
    ensures bound { result ≤ limits.variables }
{
    let revisions = job.revisions();
    let end = job.answers().len() + 1;
    let (posted, _) = revisions.split_at(end.min(revisions.len()));
    variables_of(posted) as usize
}

/// How many variables these revisions have: the most that one of them has.
fn variables_of(revisions: &[Arc<Revision>]) -> u32
    ensures value { result ≡ variables_of (shared revisions.now) }
    ensures bound { result ≤ limits.variables }
{
    let mut variables = 0;
    for revision in revisions {
        variables = variables.max(revision.variables());
    }
    variables
}

/// A job takes up an own event that runs no slice.
fn take_up(job: &mut Job, event: &OwnEvent) -> Result<(), AllocError>
    requires other { is_ran (own_of event.now) ≡ false }
    requires may { MayPass job.old.titled.state (own_of event.now) }
    requires low { IsLow (own_of event.now) }
    requires starts { job.old.starts ≡ replicate 64 0 }
    ensures { OnOk result (job.new ≡ and_own job.old (own_of event.now)) }
{
    match event {
        OwnEvent::Opened(_) => unreachable!(),
        OwnEvent::Revised(revision) => revise(job, revision),
        OwnEvent::Reasked(weight) => {
            job.reask(*weight);
            Ok(())
        }
        OwnEvent::Closed => {
            job.close();
            Ok(())
        }
        OwnEvent::Volume(volume) => {
            job.set_volume(*volume);
            Ok(())
        }
        OwnEvent::Started(index) => start(job, *index),
        OwnEvent::Finished(index, outcome) => {
            finish(job, *index, *outcome);
            Ok(())
        }
        OwnEvent::Exchanged => job.exchange(),
    }
}

/// Posts a revision, which shares its lists.
fn revise(job: &mut Job, revision: &Revision) -> Result<(), AllocError>
    requires { MayGrow job.old.titled.state revision.now }
    ensures { OnOk result (job.new ≡ and_own job.old (Revised revision.now)) }
{
    let revision = revision.copy()?;
    job.revise(revision)
}

/// Starts the node of this index. The lease goes to no worker, and the start has no number.
fn start(job: &mut Job, index: u32) -> Result<(), AllocError>
    requires may { startable job.old.titled.state index ≡ true }
    requires starts { job.old.starts ≡ replicate 64 0 }
    ensures { OnOk result (job.new ≡ and_own job.old (Started index)) }
{
    let _ = job.start(index, 1, 0)?;
    Ok(())
}

/// Ends a start that is out at this index and ran no slice.
fn finish(job: &mut Job, index: u32, outcome: Outcome)
    requires other { is_ran (Finished index outcome) ≡ false }
    requires out { is_some (place_at job.old.titled.state index).out ≡ true }
    requires low { index ≤ 63 }
    ensures { job.new ≡ and_own job.old (Finished index outcome) }
{
    match outcome {
        Outcome::Ran => unreachable!(),
        Outcome::Starved => job.starve(index, None),
        Outcome::Lost => job.finish(index, None),
    }
}
