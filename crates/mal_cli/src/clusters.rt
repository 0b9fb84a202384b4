//! Running a script in a cluster of halls, between which its jobs move.

ghost use Rattle.std.specs.Prelude.{◌≡◌, ◌<◌, ◌≤◌, ◌++◌, length, IfOk, OnOk};
ghost use Rattle.mal_answer.specs.{Answers.{IsAnswerTo, logged}, Commands.{IsClusterRunOf, clustering}};
ghost use Rattle.mal_cli.specs.Clusters.{AreThere, HasDriven, IsThere, dealt_to};
ghost use Rattle.spec_cluster.specs.Run.{cluster_replies, moved_replies, posted};
ghost use Rattle.spec_cluster.specs.Visits.{all_of};
ghost use Rattle.spec_job.specs.{Replies.{reply}, SoloMachine.{solo}};
ghost use Rattle.spec_run.specs.{Complete.{key_of_job, script_events}, Run.{text_or_none}};
ghost use Rattle.mal_base.specs.Limits.{limits};
ghost use Rattle.spec_script.specs.{Formed.{IsScript}, Script.{revisions}};

use mal_answer::{Complaint, Texts, script_of};
use mal_cluster::Cluster;
use mal_hall::{Hall, ReplyFault};
use mal_learn::Scratch;
use mal_pool::post_script;
use mal_script::{Script, ScriptJob, Step};
use std::alloc::{AllocError, Global};

/// Runs the script that a text spells in 2 to 8 halls of 1 to 64 workers each. After each so many slices of every hall, 1
/// to 1,000, its first live job goes on to the next.
#[tactic(auto, using(crate::proofs::ClusterLemmas::cluster_lemmas))]
pub fn run_clustered(
    alloc: Global,
    halls: u32,
    workers: u32,
    every: u32,
    text: Vec<u8>,
) -> Result<Texts, Complaint>
    requires two { 2 ≤ halls }
    requires eight { halls ≤ 8 }
    requires some { 1 ≤ workers }
    requires bound { workers ≤ 64 }
    requires slices { 1 ≤ every }
    requires few { every ≤ 1000 }
    ensures { IsAnswerTo (clustering halls workers every) text.items result }
{
    let script = script_of(alloc, text)?;
    match run_in(alloc, &script, halls, workers, every) {
        Ok(texts) => Ok(texts),
        Err(_) => Err(Complaint::OutOfMemory),
    }
}

/// Runs a script in a cluster of so many halls, and makes the texts of its histories and its replies.
fn run_in(
    alloc: Global,
    script: &Script,
    halls: u32,
    workers: u32,
    every: u32,
) -> Result<Texts, AllocError>
    requires two { 2 ≤ halls }
    requires eight { halls ≤ 8 }
    requires some { 1 ≤ workers }
    requires bound { workers ≤ 64 }
    requires slices { 1 ≤ every }
    requires few { every ≤ 1000 }
    ensures { IfOk result
        (λ t. IsClusterRunOf halls workers every script.now (logged t.log.items) t.out.items) }
{
    let mut cluster = posted_in(alloc, script, halls, workers)?;
    drive(alloc, &mut cluster, every)?;
    let out = replies(alloc, &cluster, script)?;
    Ok(Texts {
        log: cluster.into_halls(),
        out,
    })
}

/// A cluster in which each hall got all that its jobs post: the jobs are dealt out to the halls in turn.
fn posted_in(
    alloc: Global,
    script: &Script,
    halls: u32,
    workers: u32,
) -> Result<Cluster, AllocError>
    requires two { 2 ≤ halls }
    requires eight { halls ≤ 8 }
    requires some { 1 ≤ workers }
    requires bound { workers ≤ 64 }
    ensures formed { IsScript limits script.now }
    ensures posted { IfOk result (λ c. c ≡ posted halls workers script.now) }
{
    // For the proof.
    let _ = script.jobs();
    let mut made = Vec::new(alloc);
    for n in 0..halls {
        made.push(hall_of(alloc, script, halls, n, workers)?)?;
    }
    Ok(Cluster::of(alloc, made, workers))
}

/// The hall at a place with all that its jobs post.
fn hall_of(
    alloc: Global,
    script: &Script,
    halls: u32,
    n: u32,
    workers: u32,
) -> Result<Hall, AllocError>
    requires place { n < halls }
    requires some { 1 ≤ workers }
    requires bound { workers ≤ 64 }
    ensures workers { IfOk result (λ h. h.workers ≡ workers) }
    ensures events { IfOk result (λ h. h.events ≡ script_events (dealt_to halls n script.now)) }
{
    let dealt = dealt(alloc, script, halls, n)?;
    let mut hall = Hall::new(alloc, workers)?;
    match post_script(&mut hall, &dealt) {
        Ok(()) => Ok(hall),
        Err(error) => {
            drop(hall);
            Err(error)
        }
    }
}

/// The jobs of a script that the hall at a place gets. Their revisions share their lists with the script's.
fn dealt(alloc: Global, script: &Script, halls: u32, n: u32) -> Result<Script, AllocError>
    requires { n < halls }
    ensures { IfOk result (λ s. s ≡ dealt_to halls n script.now) }
{
    let all = script.jobs();
    let mut jobs = Vec::new(alloc);
    for (at, job) in all.iter().enumerate() {
        if at % halls as usize == n as usize {
            jobs.push(copy_of(alloc, job)?)?;
        }
    }
    Ok(Script::of_form(jobs))
}

/// An equal job. Its revisions share their lists.
fn copy_of(alloc: Global, job: &ScriptJob) -> Result<ScriptJob, AllocError>
    ensures { IfOk result (λ j. j ≡ job.now) }
{
    let all = job.steps();
    let mut steps = Vec::new(alloc);
    for step in all {
        steps.push(step_of(step)?)?;
    }
    Ok(ScriptJob::new(job.tenant(), job.name(), job.ask(), steps))
}

/// An equal step. A revision shares its lists.
fn step_of(step: &Step) -> Result<Step, AllocError>
    ensures { IfOk result (λ s. s ≡ step.now) }
{
    match step {
        Step::Revise(revision) => Ok(Step::Revise(revision.copy()?)),
        Step::Reask(weight) => Ok(Step::Reask(*weight)),
    }
}

/// Drives a cluster by rounds to its end, with a scratch of its own.
fn drive(alloc: Global, cluster: &mut Cluster, every: u32) -> Result<(), AllocError>
    requires some { 1 ≤ every }
    requires bound { every ≤ 1000 }
    ensures { OnOk result (HasDriven every cluster.old cluster.new) }
{
    let mut scratch = Scratch::new(alloc);
    let driven = cluster.drive_moving(every, &mut scratch);
    drop(scratch);
    driven
}

/// The replies to a script, job by job in its order: those of each job's machine, run alone on all that the job did.
fn replies(alloc: Global, cluster: &Cluster, script: &Script) -> Result<Vec<u8>, AllocError>
    requires { AreThere script.now cluster.now }
    ensures { IfOk result (λ v. v.items ≡ cluster_replies script.now cluster.now) }
{
    let jobs = script.jobs();
    let mut out = Vec::new(alloc);
    for job in jobs {
        put_replies(cluster, job, &mut out)?;
    }
    Ok(out)
}

/// Puts the replies to the revisions of a job after the others.
fn put_replies(cluster: &Cluster, job: &ScriptJob, out: &mut Vec<u8>) -> Result<(), AllocError>
    requires few { length (revisions job.now) ≤ 256 }
    requires there { IsThere job.now cluster.now }
    ensures { OnOk result (out.new.items ≡ out.old.items ++ moved_replies cluster.now job.now) }
{
    for posted in 0..job.revision_count() {
        put_reply(cluster, job, posted as u32 + 1, out)?;
    }
    Ok(())
}

/// Puts the reply to a revision of a job after the others, nothing where there is none.
fn put_reply(
    cluster: &Cluster,
    job: &ScriptJob,
    r: u32,
    out: &mut Vec<u8>,
) -> Result<(), AllocError>
    requires { IsThere job.now cluster.now }
    ensures { OnOk result (out.new.items ≡ out.old.items
        ++ text_or_none (reply (key_of_job job.now) r (solo (all_of (key_of_job job.now) cluster.now.halls cluster.now.moves)))) }
{
    match cluster.reply(&job.tenant(), &job.name(), r) {
        Ok(Some(text)) => out.extend_from_slice(text.as_slice()),
        Ok(None) => Ok(()),
        Err(ReplyFault::NoJob) => unreachable!(),
        Err(ReplyFault::OutOfMemory) => Err(AllocError),
    }
}
