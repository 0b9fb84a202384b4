//! Jobs that are packed, or may not be, and go on in another hall.

use super::making::{Posted, ask, name, revision};
use mal_base::{PackFault, Profile};
use mal_hall::{Hall, Pick};
use mal_learn::Scratch;
use std::alloc::Global;

/// Opens the job p of tenant a.
fn open(hall: &mut Hall) -> Option<()> {
    let tenant = name(b"a")?;
    let job = name(b"p")?;
    let ask = ask(1, 4, Profile::Plain)?;
    hall.open_job(tenant, job, ask).ok()
}

/// Posts a revision of two variables of the job p.
fn post(alloc: Global, hall: &mut Hall) -> Option<()> {
    let tenant = name(b"a")?;
    let job = name(b"p")?;
    let revision = revision(alloc, Posted::Clause(&[1, 2], &[]))?;
    hall.revise_job(&tenant, &job, revision).ok()
}

/// Closes the job p.
fn close(hall: &mut Hall) -> Option<()> {
    let tenant = name(b"a")?;
    let job = name(b"p")?;
    hall.close_job(&tenant, &job).ok()
}

/// Opens the job p with a revision.
fn fill(alloc: Global, hall: &mut Hall) -> Option<()> {
    open(hall)?;
    post(alloc, hall)
}

/// Why a job of tenant a is not packed, None where it is.
fn fault(alloc: Global, hall: &Hall, job: &[u8]) -> Option<Option<PackFault>> {
    let tenant = name(b"a")?;
    let job = name(job)?;
    Some(hall.pack_job(&tenant, &job).err())
}

/// Whether the job p is packed as these bytes.
fn are_bytes(alloc: Global, hall: &Hall, known: &[u8]) -> Option<bool> {
    let tenant = name(b"a")?;
    let job = name(b"p")?;
    let parcel = hall.pack_job(&tenant, &job).ok()?;
    let is_known = parcel.bytes() == known;
    drop(parcel);
    Some(is_known)
}

/// Whether the job p is packed as the first bytes where it was just opened, and as the second where it was closed after a
/// revision.
fn is_packed_as(alloc: Global, hall: &mut Hall, opened: &[u8], closed: &[u8]) -> Option<bool> {
    open(hall)?;
    let first = are_bytes(alloc, hall, opened)?;
    post(alloc, hall)?;
    close(hall)?;
    Some(first && are_bytes(alloc, hall, closed)?)
}

/// The same in a hall of its own.
fn has_packed_as(alloc: Global, opened: &[u8], closed: &[u8]) -> Option<bool> {
    let mut hall = Hall::new(alloc, 1).ok()?;
    let said = is_packed_as(alloc, &mut hall, opened, closed);
    drop(hall);
    said
}

/// Why the job p is not packed while its node is out. The start is lost then.
fn fault_while_out(alloc: Global, hall: &mut Hall) -> Option<Option<PackFault>> {
    if hall.history().workers() < 1 {
        return None;
    }
    match hall.pick(1) {
        Ok(Pick::Leased(lease)) => {
            let out = fault(alloc, hall, b"p");
            drop(lease);
            hall.recall();
            out
        }
        Ok(Pick::Idle) => None,
        Ok(Pick::AllDone) => None,
        Err(_) => None,
    }
}

/// Whether a job is packed where it is here and its node is not out, and is refused else.
fn is_packed_at_home(alloc: Global, hall: &mut Hall) -> Option<bool> {
    fill(alloc, hall)?;
    let out = fault_while_out(alloc, hall)?;
    let home = fault(alloc, hall, b"p")?;
    let strange = fault(alloc, hall, b"q")?;
    let first = Some(PackFault::Out { index: 0 });
    Some(out == first && home.is_none() && strange == Some(PackFault::NoJob))
}

/// The same in a hall of its own.
fn has_packed(alloc: Global) -> Option<bool> {
    let mut hall = Hall::new(alloc, 1).ok()?;
    let said = is_packed_at_home(alloc, &mut hall);
    drop(hall);
    said
}

/// Starts the node of the job p and loses it.
fn lose(hall: &mut Hall) -> Option<()> {
    if hall.history().workers() < 1 {
        return None;
    }
    match hall.pick(1) {
        Ok(Pick::Leased(lease)) => {
            drop(lease);
            hall.recall();
            Some(())
        }
        Ok(Pick::Idle) => None,
        Ok(Pick::AllDone) => None,
        Err(_) => None,
    }
}

/// Packs the job p of tenant a in one hall, and has the other admit it.
fn carry(alloc: Global, hall: &Hall, other: &mut Hall) -> Option<()> {
    let tenant = name(b"a")?;
    let job = name(b"p")?;
    let parcel = hall.pack_job(&tenant, &job).ok()?;
    match other.admit_job(parcel) {
        Ok(()) => Some(()),
        Err(refused) => {
            drop(refused);
            None
        }
    }
}

/// Drives a hall of which no lease is out.
fn drive(alloc: Global, hall: &mut Hall) -> Option<()> {
    if !hall.is_home() {
        return None;
    }
    let mut scratch = Scratch::new(alloc);
    let driven = hall.drive(&mut scratch);
    drop(scratch);
    driven.ok()
}

/// Whether this is the reply to the revision of the job p.
fn is_reply(alloc: Global, hall: &Hall, known: &[u8]) -> Option<bool> {
    let tenant = name(b"a")?;
    let job = name(b"p")?;
    let text = hall.reply(&tenant, &job, 1).ok()??;
    let is_known = text.as_slice() == known;
    drop(text);
    Some(is_known)
}

/// Whether a job of which a start was lost goes on in another hall, which admits it once.
fn goes_on(alloc: Global, hall: &mut Hall, other: &mut Hall) -> Option<bool> {
    fill(alloc, hall)?;
    lose(hall)?;
    carry(alloc, hall, other)?;
    let again = carry(alloc, hall, other);
    drive(alloc, other)?;
    let served = is_reply(alloc, other, b"r a p 1\ns SATISFIABLE\nv -1 2 0\n")?;
    Some(again.is_none() && served)
}

/// The same from this hall to one of its own.
fn goes_on_from(alloc: Global, hall: &mut Hall) -> Option<bool> {
    let mut other = Hall::new(alloc, 2).ok()?;
    let said = goes_on(alloc, hall, &mut other);
    drop(other);
    said
}

/// The same between two halls of its own.
fn has_gone_on(alloc: Global) -> Option<bool> {
    let mut hall = Hall::new(alloc, 1).ok()?;
    let said = goes_on_from(alloc, &mut hall);
    drop(hall);
    said
}

#[test]
fn a_job_of_a_lost_node_goes_on_in_another_hall(rt: HostRuntime) {
    assert!(rt; has_gone_on(rt.alloc()) == Some(true));
}

#[test]
fn a_job_is_packed_as_its_bytes(rt: HostRuntime) {
    let opened =
        b"MALPACK1\0\0\0\0\0\0\0\x10t a\nj p 1 1 4\ne\n\0\0\0\0\0\0\0\x0co a p 1 1 4\n\0\0\0\0\0\0\0\0\0\0\0\0\0\0\0\0\0\0\0\0\0\0\0\0";
    let closed =
        b"MALPACK1\0\0\0\0\0\0\0\x24t a\nj p 1 1 4\np cnf 2 1\n1 2 0\na 0\ne\n\0\0\0\0\0\0\0\x1ao a p 1 1 4\nr a p 1\nc a p\n\0\0\0\0\0\0\0\0\0\0\0\0\0\0\0\0\0\0\0\0\0\0\0\0";
    assert!(rt; has_packed_as(rt.alloc(), opened, closed) == Some(true));
}

#[test]
fn a_job_is_packed_where_its_nodes_are_home(rt: HostRuntime) {
    assert!(rt; has_packed(rt.alloc()) == Some(true));
}
