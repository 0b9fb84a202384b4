//! Running a script with many workers.

ghost use Rattle.std.specs.Prelude.{◌≡◌, ◌≤◌, min, true, List, [], ◌++◌, map, IfOk, IfSome, OnOk};
ghost use Rattle.std.specs.List.{All, filter_map, list_any};
ghost use Rattle.std.specs.Option.{option_map};
ghost use Rattle.mal_pool.specs.{Gates.{LosesByStops, StopsSomewhere}, Parts.{AreParts, ArePosters, Fits, HasPlayed, demand_of}, Posts.{HasRun}, Runs.{IsSettled, open_post, taken}, Sharing.{HasClosed, HasCome, HasComeBy}, Testing.{HasPosts}, Within.{IsWithin}};
ghost use Rattle.spec_hall.specs.{Driven.{GrowsByTurns, IsDriven}, Events.{Event}, Legal.{Legal}, States.{leases, lives, states}};
ghost use Rattle.spec_run.specs.{Complete.{script_events}, Losses.{NoneIsLost, is_loss}};

use crate::board::Board;
use crate::demand::useful;
use crate::gate::Gate;
use crate::leaving::post_left;
use crate::posting::{Left, open_all};
use crate::role::{Part, Played, Role, play};
use crate::running::{drive_once, run_alone};
use crate::served::Served;
use crate::testing::{has_lost_unasked, has_name, has_posts};
use mal_hall::{Hall, Size};
use mal_script::{Script, ScriptJob};
use mal_service::Service;
use std::alloc::{AllocError, Global};
use std::marker::Brand;
use std::sync::Wait;
use std::thread::{self, Threads};

/// Runs a script with 1 to 64 workers. With one worker no thread is made and nothing is waited for: all jobs are
/// opened, then job by job its revisions and its closing are posted, and the hall is driven. With more, tenants post
/// and workers work at the same time, each in a thread where one can be had, and share a service: they call its hall in
/// turns, and work outside the turn. Where the run is shared, what came before its end is a legal record, and each part
/// played as the gate lets it.
#[tactic(auto, using(crate::proofs::RunLosses::alone_by_stops, crate::proofs::Sharings::come_alone))]
pub fn run_all<R: Threads + Wait + Sync, G: Gate>(
    rt: &R,
    alloc: Global,
    script: &Script,
    workers: u32,
    gate: &G,
) -> Result<Hall, AllocError>
    requires some { 1 ≤ workers }
    requires bound { workers ≤ 64 }
    ensures run { IfOk result (λ h. HasRun workers script.now h) }
    ensures sequential { workers ≡ 1 → IfOk result (λ h. IsDriven workers (script_events script.now) h.events) }
    ensures came { IfOk result (λ h. HasComeBy (G.stops gate.now) workers script.now h.events) }
    ensures lost { IfOk result (λ h. LosesByStops (G.stops gate.now) h.events) }
{
    if workers == 1 {
        return run_alone(alloc, script, workers);
    }
    run_by_service::<Brand, R, G>(rt, alloc, script, workers, gate)
}

/// Runs a script in threads that share a service.
fn run_by_service<S: Size + Send + Sync, R: Threads + Wait + Sync, G: Gate>(
    rt: &R,
    alloc: Global,
    script: &Script,
    workers: u32,
    gate: &G,
) -> Result<Hall, AllocError>
    requires some { 1 ≤ workers }
    requires bound { workers ≤ 64 }
    requires size { workers ≡ S.workers }
    ensures run { IfOk result (λ h. HasRun workers script.now h) }
    ensures came { IfOk result (λ h. HasComeBy (G.stops gate.now) workers script.now h.events) }
    ensures lost { IfOk result (λ h. LosesByStops (G.stops gate.now) h.events) }
{
    let (service, pass) = Service::<S>::new(alloc, workers)?;
    let board = Served::new(service);
    run_with(rt, alloc, board, pass, script, workers, gate)
}

/// Runs a script over a board, whose hall has so many workers, 1 to 64, and no event yet. With one worker no thread is
/// made, and the board is given up. With more, tenants post and workers work at the same time, each in a thread where one
/// can be had. Where what they bring about does not serve, a new hall is run on this thread in its place.
#[tactic(auto, using(crate::proofs::RunLosses::alone_by_stops, crate::proofs::Sharings::come_alone))]
pub fn run_with<R: Threads + Wait + Sync, B: Board, G: Gate>(
    rt: &R,
    alloc: Global,
    board: B,
    pass: B::Pass,
    script: &Script,
    workers: u32,
    gate: &G,
) -> Result<Hall, AllocError>
    requires of { B.is_of board pass }
    requires some { 1 ≤ workers }
    requires bound { workers ≤ 64 }
    requires size { B.workers board ≡ workers }
    ensures run { IfOk result (λ h. HasRun workers script.now h) }
    ensures sequential { workers ≡ 1 → IfOk result (λ h. IsDriven workers (script_events script.now) h.events) }
    ensures came { IfOk result (λ h. HasCome B.calls B.leaves (G.stops gate.now) workers script.now h.events) }
    ensures lost { IfOk result (λ h. LosesByStops (G.stops gate.now) h.events) }
{
    if workers == 1 {
        drop(pass);
        drop(board);
        return run_alone(alloc, script, workers);
    }
    match run_shared(rt, alloc, board, pass, script, workers, gate)? {
        Some(hall) => Ok(hall),
        None => run_alone(alloc, script, workers),
    }
}

/// Lets posters and workers share a board. What a tenant did not post is posted afterwards, what is out is recalled, and
/// the hall is driven to its end. None where the hall does not serve: where a job was refused, where the board was in
/// use, where a lease was lost though the gate stopped no worker, and where the history is not complete for the script.
fn run_shared<R: Threads + Wait + Sync, B: Board, G: Gate>(
    rt: &R,
    alloc: Global,
    board: B,
    pass: B::Pass,
    script: &Script,
    workers: u32,
    gate: &G,
) -> Result<Option<Hall>, AllocError>
    requires of { B.is_of board pass }
    requires bound { workers ≤ 64 }
    requires size { B.workers board ≡ workers }
    ensures run { IfOk result (λ o. IfSome o (λ h. HasRun workers script.now h)) }
    ensures came { IfOk result
        (λ o. IfSome o (λ h. HasCome B.calls B.leaves (G.stops gate.now) workers script.now h.events)) }
    ensures lost { IfOk result (λ o. IfSome o (λ h. LosesByStops (G.stops gate.now) h.events)) }
{
    let Some((pass, played)) = share(rt, alloc, &board, pass, script.jobs(), workers, gate)? else {
        drop(board);
        return Ok(None);
    };
    let stopped = is_stopped(&played);
    let Some(hall) = take_down(alloc, board, pass, played, script.jobs())? else {
        return Ok(None);
    };
    match serves(alloc, &hall, script, stopped) {
        Ok(true) => Ok(Some(hall)),
        Ok(false) => {
            drop(hall);
            Ok(None)
        }
        Err(error) => {
            drop(hall);
            Err(error)
        }
    }
}

/// Whether a hall serves: no lease was lost in it, unless the gate stopped a worker, and it has just a script's posts.
fn serves(alloc: Global, hall: &Hall, script: &Script, stopped: bool) -> Result<bool, AllocError>
    ensures legal { Legal hall.now.workers hall.now.events }
    ensures posts { IfOk result (λ yes. yes ≡ true → HasPosts script.now hall.now.events) }
    ensures lost { IfOk result (λ yes. yes ≡ true → list_any is_loss hall.now.events ≡ true → stopped ≡ true) }
{
    if has_lost_unasked(hall.history(), stopped) {
        return Ok(false);
    }
    has_posts(alloc, hall, script)
}

/// Whether the gate stopped a worker.
fn is_stopped<P: Drop>(played: &[Played<P>]) -> bool
    ensures { result ≡ list_any (λ x. x.stopped) played.now }
{
    played.iter().any(|one| one.stopped)
}

/// Puts the passes together, closes the board, and brings its hall to an end. None where the board was in use, or where
/// what was left could not be posted.
fn take_down<B: Board>(
    alloc: Global,
    board: B,
    pass: B::Pass,
    played: Vec<Played<B::Pass>>,
    jobs: &[ScriptJob],
) -> Result<Option<Hall>, AllocError>
    requires of { B.is_of board pass }
    requires all { All (λ x. B.is_of board x.pass) played.items }
    ensures workers { IfOk result (λ o. IfSome o (λ h. h.workers ≡ B.workers board)) }
    ensures settled { IfOk result
        (λ o. IfSome o
        (λ h. (before : List Event) × NoneIsLost before
        × IsSettled h.workers jobs.now (filter_map (λ x. option_map (λ h. h.left) x.hindered) played.items) before h.events
        × HasClosed B.calls B.leaves pass (λ x. B.calls x.pass) played.items before)) }
{
    let left = left_of(alloc, &played)?;
    let pass = join_all(&board, pass, played);
    let Ok(hall) = board.close(pass) else {
        return Ok(None);
    };
    settle(alloc, hall, jobs, left.as_slice())
}

/// Posts what was left, recalls what is out, and drives the hall to its end. None where a post was refused for another
/// cause than out of memory. Where driving runs out of memory it is tried once more.
fn settle(
    alloc: Global,
    hall: Hall,
    jobs: &[ScriptJob],
    left: &[Left],
) -> Result<Option<Hall>, AllocError>
    ensures workers { IfOk result (λ o. IfSome o (λ h. h.workers ≡ hall.workers)) }
    ensures settled { IfOk result (λ o. IfSome o (λ h. IsSettled hall.workers jobs.now left.now hall.events h.events)) }
{
    let mut hall = hall;
    match bring_to_end(alloc, &mut hall, jobs, left) {
        Ok(true) => Ok(Some(hall)),
        Ok(false) => {
            drop(hall);
            Ok(None)
        }
        Err(error) => {
            drop(hall);
            Err(error)
        }
    }
}

/// Posts what was left, recalls what is out, and drives the hall to its end: false where a post was refused for another
/// cause than out of memory.
fn bring_to_end(
    alloc: Global,
    hall: &mut Hall,
    jobs: &[ScriptJob],
    left: &[Left],
) -> Result<bool, AllocError>
    ensures workers { hall.new.workers ≡ hall.old.workers }
    ensures settled { IfOk result
        (λ done. done ≡ true → IsSettled hall.old.workers jobs.now left.now hall.old.events hall.new.events) }
{
    if !post_left(hall, jobs, left)? {
        return Ok(false);
    }
    hall.recall();
    drive_twice(alloc, hall)?;
    Ok(true)
}

/// Drives a hall to its end. Where memory runs out, the scratch is given up and it is driven once more.
fn drive_twice(alloc: Global, hall: &mut Hall) -> Result<(), AllocError>
    requires home { leases hall.old.events ≡ [] }
    ensures workers { hall.new.workers ≡ hall.old.workers }
    ensures turns { GrowsByTurns hall.old.workers hall.old.events hall.new.events }
    ensures home { leases hall.new.events ≡ [] }
    ensures answered { OnOk result (lives (states hall.new.events) ≡ []) }
{
    match drive_once(alloc, hall) {
        Ok(()) => Ok(()),
        Err(_) => drive_once(alloc, hall),
    }
}

/// Opens all jobs, and lets posters and workers play their parts. None where a job is refused for another cause than
/// out of memory.
fn share<R: Threads + Wait + Sync, B: Board, G: Gate>(
    rt: &R,
    alloc: Global,
    board: &B,
    pass: B::Pass,
    jobs: &[ScriptJob],
    workers: u32,
    gate: &G,
) -> Result<Option<(B::Pass, Vec<Played<B::Pass>>)>, AllocError>
    requires of { B.is_of board.now pass }
    requires size { B.workers board.now ≡ workers }
    requires bound { workers ≤ 64 }
    ensures of { IfOk result (λ o. IfSome o (λ r. B.is_of board.now r.0)) }
    ensures opened { IfOk result
        (λ o. IfSome o (λ r. B.calls r.0 ≡ B.calls pass ++ taken (map open_post jobs.now))) }
    ensures parts { IfOk result (λ o. IfSome o (λ r. AreParts workers jobs.now (map (λ x. x.part) r.1.items))) }
    ensures played { IfOk result
        (λ o. IfSome o
        (λ r. All (λ x. HasPlayed (G.stops gate.now) jobs.now x.part x.hindered x.stopped (B.calls x.pass)) r.1.items)) }
    ensures all { IfOk result
        (λ o. IfSome o
        (λ r. All (λ x. B.is_of board.now x.pass × (x.stopped ≡ true → StopsSomewhere (G.stops gate.now))) r.1.items)) }
{
    let (back, opened) = open_all(rt, board, pass, jobs);
    match opened {
        Ok(true) => match play_all(rt, alloc, board, back, jobs, workers, gate) {
            Ok(shared) => Ok(Some(shared)),
            Err(error) => Err(error),
        },
        Ok(false) => {
            drop(back);
            Ok(None)
        }
        Err(error) => {
            drop(back);
            Err(error)
        }
    }
}

/// Lets posters and workers play their parts.
fn play_all<R: Threads + Wait + Sync, B: Board, G: Gate>(
    rt: &R,
    alloc: Global,
    board: &B,
    pass: B::Pass,
    jobs: &[ScriptJob],
    workers: u32,
    gate: &G,
) -> Result<(B::Pass, Vec<Played<B::Pass>>), AllocError>
    requires of { B.is_of board.now pass }
    requires size { B.workers board.now ≡ workers }
    requires bound { workers ≤ 64 }
    ensures of { IfOk result (λ r. B.is_of board.now r.0) }
    ensures calls { IfOk result (λ r. B.calls r.0 ≡ B.calls pass) }
    ensures parts { IfOk result (λ r. AreParts workers jobs.now (map (λ x. x.part) r.1.items)) }
    ensures played { IfOk result
        (λ r. All (λ x. HasPlayed (G.stops gate.now) jobs.now x.part x.hindered x.stopped (B.calls x.pass)) r.1.items) }
    ensures all { IfOk result
        (λ r. All (λ x. B.is_of board.now x.pass × (x.stopped ≡ true → StopsSomewhere (G.stops gate.now))) r.1.items) }
{
    let parts = parts_of(alloc, jobs, workers)?;
    let (pass, roles) = deal(alloc, board, pass, jobs, parts.as_slice())?;
    let played = thread::map_vec(
        rt,
        roles,
        &|role: Role<B::Pass>| -> Played<B::Pass>
            requires of { B.is_of board.now role.pass }
            requires fits { Fits (B.workers board.now) jobs.now role.part }
            requires none { B.calls role.pass ≡ [] }
            ensures of { B.is_of board.entry.now result.pass }
            ensures part { result.part ≡ role.part }
            ensures played { HasPlayed (G.stops gate.entry.now) jobs.entry.now result.part result.hindered result.stopped
                (B.calls result.pass) }
            ensures stopped { result.stopped ≡ true → StopsSomewhere (G.stops gate.entry.now) }
        { play(rt, alloc, board, jobs, gate, role) },
    )?;
    Ok((pass, played))
}

/// A poster for each tenant, and the workers, but no more of them than all jobs together ask for.
fn parts_of(alloc: Global, jobs: &[ScriptJob], workers: u32) -> Result<Vec<Part>, AllocError>
    requires { workers ≤ 64 }
    ensures { IfOk result (λ v. AreParts workers jobs.now v.items) }
{
    let mut parts = posters_of(alloc, jobs)?;
    for before in 0..useful(jobs, workers) {
        parts.push(Part::Worker(before + 1))?;
    }
    Ok(parts)
}

/// A poster for each tenant, at the tenant's first job.
fn posters_of(alloc: Global, jobs: &[ScriptJob]) -> Result<Vec<Part>, AllocError>
    ensures { IfOk result (λ v. ArePosters jobs.now v.items) }
{
    let mut posters = Vec::new(alloc);
    let mut names = Vec::new(alloc);
    for place in 0..jobs.len() {
        let tenant = jobs[place].tenant();
        if !has_name(names.as_slice(), tenant) {
            names.push(tenant)?;
            posters.push(Part::Poster(place))?;
        }
    }
    Ok(posters)
}

/// Gives each part a pass of its own by which no call was made, in their order.
fn deal<B: Board>(
    alloc: Global,
    board: &B,
    pass: B::Pass,
    jobs: &[ScriptJob],
    parts: &[Part],
) -> Result<(B::Pass, Vec<Role<B::Pass>>), AllocError>
    requires of { B.is_of board.now pass }
    requires fits { All (Fits (B.workers board.now) jobs.now) parts.now }
    ensures of { IfOk result (λ r. B.is_of board.now r.0) }
    ensures calls { IfOk result (λ r. B.calls r.0 ≡ B.calls pass) }
    ensures roles { IfOk result
        (λ r. All (λ x. B.is_of board.now x.pass × Fits (B.workers board.now) jobs.now x.part × (B.calls x.pass ≡ []))
        r.1.items) }
    ensures parts { IfOk result (λ r. map (λ x. x.part) r.1.items ≡ parts.now) }
{
    // For the proof.
    let _ = jobs.len();
    let mut pass = pass;
    let mut roles = Vec::new(alloc);
    for part in parts {
        let (mine, theirs) = board.split(pass);
        pass = mine;
        roles.push(Role {
            pass: theirs,
            part: *part,
        })?;
    }
    Ok((pass, roles))
}

/// Lists what was left.
fn left_of<P: Drop>(alloc: Global, played: &[Played<P>]) -> Result<Vec<Left>, AllocError>
    ensures { IfOk result (λ v. v.items ≡ filter_map (λ x. option_map (λ h. h.left) x.hindered) played.now) }
{
    let mut left = Vec::new(alloc);
    for one in played {
        match one.hindered {
            Some(hindered) => left.push(hindered.left)?,
            None => {}
        }
    }
    Ok(left)
}

/// Puts the passes together: the result tells the calls of each.
fn join_all<B: Board>(board: &B, pass: B::Pass, played: Vec<Played<B::Pass>>) -> B::Pass
    requires of { B.is_of board.now pass }
    requires all { All (λ x. B.is_of board.now x.pass) played.items }
    ensures of { B.is_of board.now result }
    ensures mine { IsWithin (B.calls pass) (B.calls result) }
    ensures each { All (λ x. IsWithin (B.calls x.pass) (B.calls result)) played.items }
{
    let mut pass = pass;
    for one in played {
        pass = board.join(pass, one.pass);
    }
    pass
}
