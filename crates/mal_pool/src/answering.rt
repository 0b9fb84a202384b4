//! The replies to a script that was run.

ghost use Rattle.std.specs.Prelude.{◌≡◌, ℕ, ◌++◌, ◌<◌, ◌≤◌, length, flat_map, option_to_list, IfOk, IfSome, OnOk};
ghost use Rattle.std.specs.List.Sorted.{IsPermutation};
ghost use Rattle.mal_pool.specs.Posts.{AreMade, HasRun, IsKnown, replies_at, reply_to};
ghost use Rattle.spec_run.specs.Run.{replies, job_replies};
ghost use Rattle.spec_script.specs.Script.{revisions};

use mal_hall::{Hall, ReplyFault};
use mal_script::{Script, ScriptJob};
use std::alloc::{AllocError, Global};
use std::sync::atomic::{AtomicUsize, Ordering};
use std::thread::{self, Threads};

/// The replies to a script that a hall has run, job by job and revision by revision.
pub fn replies(alloc: Global, hall: &Hall, script: &Script) -> Result<Vec<u8>, AllocError>
    requires { (workers : ℕ) × HasRun workers script.now hall.now }
    ensures { IfOk result (λ v. v.items ≡ replies script.now hall.now.events) }
{
    put_together(alloc, hall, script, Vec::new(alloc))
}

/// The same replies, made by so many threads at most. What they leave when out of memory the calling thread makes.
pub fn replies_by<R: Threads + Sync>(
    rt: &R,
    alloc: Global,
    hall: &Hall,
    script: &Script,
    threads: u32,
) -> Result<Vec<u8>, AllocError>
    requires { (workers : ℕ) × HasRun workers script.now hall.now }
    ensures { IfOk result (λ v. v.items ≡ replies script.now hall.now.events) }
{
    let made = match made_by(rt, alloc, hall, script, threads) {
        Ok(made) => made,
        Err(_) => Vec::new(alloc),
    };
    put_together(alloc, hall, script, made)
}

/// The replies to the job at a place of a script.
#[derive(Drop)]
struct Made {
    place: usize,
    text: Vec<u8>,
}

/// What so many threads at most make of the replies to a script, the last place first. The next job goes to whoever is
/// through with another.
fn made_by<R: Threads + Sync>(
    rt: &R,
    alloc: Global,
    hall: &Hall,
    script: &Script,
    threads: u32,
) -> Result<Vec<Made>, AllocError>
    requires { (workers : ℕ) × HasRun workers script.now hall.now }
    ensures { IfOk result (λ v. AreMade hall.now.events script.now.jobs v.items) }
{
    let next = AtomicUsize::new(0);
    let parts = thread::map_indices(
        rt,
        alloc,
        (threads as usize).min(script.jobs().len()),
        &|_| -> Vec<Made>
            requires { (workers : ℕ) × HasRun workers script.now hall.now }
            ensures { AreMade hall.entry.now.events script.entry.now.jobs result.items }
        { make_next(alloc, hall, script, &next) },
    )?;
    last_first(alloc, parts)
}

/// All that was made, the last place first.
fn last_first(alloc: Global, parts: Vec<Vec<Made>>) -> Result<Vec<Made>, AllocError>
    ensures { IfOk result (λ v. IsPermutation (flat_map (λ p. p.items) parts.items) v.items) }
{
    let mut all = Vec::new(alloc);
    for part in parts {
        let mut part = part;
        let appended = all.append(&mut part);
        drop(part);
        appended?;
    }
    all.sort_unstable_by(|one, other| other.place.cmp(&one.place));
    Ok(all)
}

/// Makes the replies to the job that is next, and so on, until there is none or memory runs out.
fn make_next(alloc: Global, hall: &Hall, script: &Script, next: &AtomicUsize) -> Vec<Made>
    requires { (workers : ℕ) × HasRun workers script.now hall.now }
    ensures { AreMade hall.now.events script.now.jobs result.items }
{
    let count = script.jobs().len();
    let mut made = Vec::new(alloc);
    for _ in 0..count {
        let place = next.fetch_add(1, Ordering::SeqCst);
        if place >= count || make_at(alloc, hall, script, place, &mut made).is_err() {
            break;
        }
    }
    made
}

/// Makes the replies to the job at a place, after what was made.
fn make_at(
    alloc: Global,
    hall: &Hall,
    script: &Script,
    place: usize,
    made: &mut Vec<Made>,
) -> Result<(), AllocError>
    requires run { (workers : ℕ) × HasRun workers script.now hall.now }
    requires place { place < length script.now.jobs }
    ensures { AreMade hall.now.events script.now.jobs made.old.items → AreMade hall.now.events script.now.jobs made.new.items }
{
    let mut text = Vec::new(alloc);
    put_at(alloc, hall, script, place, &mut text)?;
    made.push(Made { place, text })?;
    Ok(())
}

/// The replies to a script, job by job. What was made, the last place first, is let go once it is put, and what was not
/// made is made.
fn put_together(
    alloc: Global,
    hall: &Hall,
    script: &Script,
    made: Vec<Made>,
) -> Result<Vec<u8>, AllocError>
    requires run { (workers : ℕ) × HasRun workers script.now hall.now }
    requires made { AreMade hall.now.events script.now.jobs made.items }
    ensures { IfOk result (λ v. v.items ≡ replies script.now hall.now.events) }
{
    let mut made = made;
    let mut text = Vec::new(alloc);
    for place in 0..script.jobs().len() {
        put_next(alloc, hall, script, place, &mut made, &mut text)?;
    }
    Ok(text)
}

/// Writes the replies to the job at a place: those that were made, or else they are made.
fn put_next(
    alloc: Global,
    hall: &Hall,
    script: &Script,
    place: usize,
    made: &mut Vec<Made>,
    text: &mut Vec<u8>,
) -> Result<(), AllocError>
    requires run { (workers : ℕ) × HasRun workers script.now hall.now }
    requires place { place < length script.now.jobs }
    requires made { AreMade hall.now.events script.now.jobs made.old.items }
    ensures made { AreMade hall.now.events script.now.jobs made.new.items }
    ensures text { OnOk result (text.new.items ≡ text.old.items ++ replies_at hall.now.events script.now.jobs place) }
{
    match taken(made, place) {
        Some(one) => text.extend_from_slice(one.text.as_slice()),
        None => put_at(alloc, hall, script, place, text),
    }
}

/// Takes the last of what was made where it is of this place.
fn taken(made: &mut Vec<Made>, place: usize) -> Option<Made>
    ensures rest { made.old.items ≡ made.new.items ++ option_to_list result }
    ensures place { IfSome result (λ m. m.place ≡ place) }
{
    if made.last()?.place != place {
        return None;
    }
    made.pop()
}

/// Writes the replies to the job at a place of a script.
fn put_at(
    alloc: Global,
    hall: &Hall,
    script: &Script,
    place: usize,
    text: &mut Vec<u8>,
) -> Result<(), AllocError>
    requires run { (workers : ℕ) × HasRun workers script.now hall.now }
    requires place { place < length script.now.jobs }
    ensures { OnOk result (text.new.items ≡ text.old.items ++ replies_at hall.now.events script.now.jobs place) }
{
    put_replies(alloc, hall, &script.jobs()[place], text)
}

/// Writes the replies to the revisions of a job.
fn put_replies(
    alloc: Global,
    hall: &Hall,
    job: &ScriptJob,
    text: &mut Vec<u8>,
) -> Result<(), AllocError>
    requires few { length (revisions job.now) ≤ 256 }
    requires known { IsKnown hall.now.events job.now }
    ensures { OnOk result (text.new.items ≡ text.old.items ++ job_replies hall.now.events job.now) }
{
    for posted in 0..job.revision_count() {
        let reply = reply_to(alloc, hall, job, posted as u32 + 1)?;
        text.extend_from_slice(reply.as_slice())?;
    }
    Ok(())
}

/// The reply to a revision of a job, nothing where there is none.
fn reply_to(
    alloc: Global,
    hall: &Hall,
    job: &ScriptJob,
    revision: u32,
) -> Result<Vec<u8>, AllocError>
    requires { IsKnown hall.now.events job.now }
    ensures { IfOk result (λ v. v.items ≡ reply_to hall.now.events job.now revision) }
{
    match hall.reply(&job.tenant(), &job.name(), revision) {
        Ok(Some(text)) => Ok(text),
        Ok(None) => Ok(Vec::new(alloc)),
        Err(ReplyFault::NoJob) => unreachable!(),
        Err(ReplyFault::OutOfMemory) => Err(AllocError),
    }
}
