//! Clusters whose histories and refusals are known.

use super::making::{Posted, ask, name, revision};
use mal_base::Profile;
use mal_cluster::{Cluster, MoveFault};
use mal_history::write;
use mal_learn::Scratch;
use std::alloc::Global;

/// Opens a job of tenant a with four slices in the hall of a number.
fn open(alloc: Global, cluster: &mut Cluster, hall: u32, job: &[u8]) -> Option<()> {
    if hall == 0 || hall as usize > cluster.hall_count() {
        return None;
    }
    let tenant = name(b"a")?;
    let job = name(job)?;
    let ask = ask(1, 4, Profile::Plain)?;
    cluster.open_job(hall, tenant, job, ask).ok()
}

/// Posts a revision of the job p of tenant a.
fn post(alloc: Global, cluster: &mut Cluster, posted: Posted) -> Option<()> {
    let tenant = name(b"a")?;
    let job = name(b"p")?;
    let revision = revision(alloc, posted)?;
    cluster.revise_job(&tenant, &job, revision).ok()
}

/// Closes the job p of tenant a.
fn close(alloc: Global, cluster: &mut Cluster) -> Option<()> {
    let tenant = name(b"a")?;
    let job = name(b"p")?;
    cluster.close_job(&tenant, &job).ok()
}

/// Opens the job p of tenant a in the first hall, posts its three revisions and closes it.
fn fill(alloc: Global, cluster: &mut Cluster) -> Option<()> {
    open(alloc, cluster, 1, b"p")?;
    post(alloc, cluster, Posted::Clause(&[1, 2], &[]))?;
    post(alloc, cluster, Posted::Clause(&[-1], &[-2]))?;
    post(alloc, cluster, Posted::Assuming(&[]))?;
    close(alloc, cluster)
}

/// Goes rounds of one slice.
fn drive(alloc: Global, cluster: &mut Cluster) -> Option<()> {
    let mut scratch = Scratch::new(alloc);
    let driven = cluster.drive_moving(1, &mut scratch);
    drop(scratch);
    driven.ok()
}

/// Whether this is the text of the history of the hall of a number.
fn is_text(alloc: Global, cluster: &Cluster, hall: u32, known: &[u8]) -> Option<bool> {
    if hall == 0 || hall as usize > cluster.hall_count() {
        return None;
    }
    let text = write(alloc, cluster.history(hall)).ok()?;
    let is_known = text.as_slice() == known;
    drop(text);
    Some(is_known)
}

/// Whether a job that goes on after each slice leaves these histories in two halls.
fn goes_on(alloc: Global, cluster: &mut Cluster, first: &[u8], second: &[u8]) -> Option<bool> {
    fill(alloc, cluster)?;
    drive(alloc, cluster)?;
    Some(is_text(alloc, cluster, 1, first)? && is_text(alloc, cluster, 2, second)?)
}

/// What is answered to a move of a job of tenant a to the hall of a number, None where it is made.
fn fault(alloc: Global, cluster: &mut Cluster, job: &[u8], to: u32) -> Option<Option<MoveFault>> {
    let tenant = name(b"a")?;
    let job = name(job)?;
    Some(cluster.move_job(&tenant, &job, to).err())
}

/// Whether moves are answered so, one after the other.
fn are_answered(
    alloc: Global,
    cluster: &mut Cluster,
    moves: &[(&[u8], u32, Option<MoveFault>)],
) -> Option<bool> {
    fill(alloc, cluster)?;
    for (job, to, known) in moves {
        if fault(alloc, cluster, job, *to)? != *known {
            return Some(false);
        }
    }
    Some(true)
}

/// Whether the tenant's 65th job is not moved to a hall that has 64 of them.
fn is_full(alloc: Global, cluster: &mut Cluster) -> Option<bool> {
    fill(alloc, cluster)?;
    for n in 0..64_u8 {
        open(alloc, cluster, 2, &[b'q', b'0' + n / 8, b'0' + n % 8])?;
    }
    Some(fault(alloc, cluster, b"p", 2)? == Some(MoveFault::TenantFull))
}

/// The same in a cluster of its own.
fn has_texts(alloc: Global, first: &[u8], second: &[u8]) -> Option<bool> {
    let mut cluster = Cluster::new(alloc, 2, 1).ok()?;
    let said = goes_on(alloc, &mut cluster, first, second);
    drop(cluster);
    said
}

/// Whether moves are answered so in a cluster of their own.
fn has_answers(alloc: Global, moves: &[(&[u8], u32, Option<MoveFault>)]) -> Option<bool> {
    let mut cluster = Cluster::new(alloc, 2, 1).ok()?;
    let said = are_answered(alloc, &mut cluster, moves);
    drop(cluster);
    said
}

/// Whether a cluster of its own has a full hall.
fn has_full(alloc: Global) -> Option<bool> {
    let mut cluster = Cluster::new(alloc, 2, 1).ok()?;
    let said = is_full(alloc, &mut cluster);
    drop(cluster);
    said
}

#[test]
fn a_job_goes_on_after_each_slice(rt: HostRuntime) {
    let first =
        b"h mal 3 1\no a p 1 1 4\nr a p 1\nr a p 2\nr a p 3\nc a p\nb a p 1\ns a p 0 1\nf a p 0 1 ran\ng a p\nn a p\nb a p 1\ns a p 0 1\nf a p 0 1 ran\n";
    let second = b"h mal 3 1\nn a p\nb a p 1\ns a p 0 1\nf a p 0 1 ran\ng a p\n";
    assert!(rt; has_texts(rt.alloc(), first, second) == Some(true));
}

#[test]
fn moves_are_refused_in_their_order(rt: HostRuntime) {
    let moves: [(&[u8], u32, Option<MoveFault>); 8] = [
        (b"q", 3, Some(MoveFault::NoJob)),
        (b"p", 0, Some(MoveFault::NoHall)),
        (b"p", 3, Some(MoveFault::NoHall)),
        (b"p", 1, Some(MoveFault::Same)),
        (b"p", 2, None),
        (b"p", 2, Some(MoveFault::Same)),
        (b"p", 1, None),
        (b"p", 1, Some(MoveFault::Same)),
    ];
    assert!(rt; has_answers(rt.alloc(), &moves) == Some(true));
}

#[test]
fn a_hall_has_64_jobs_of_a_tenant(rt: HostRuntime) {
    assert!(rt; has_full(rt.alloc()) == Some(true));
}
