//! An event that was written down, entered after calls.

ghost use Rattle.std.specs.Prelude.{◌≡◌, ◌≤◌, IfSome};
ghost use Rattle.mal_hall.specs.Applied.{IsInside};

use super::calling::{Told, worked_off, write};
use super::making::{Posted, ask, name, revision};
use mal_base::{Ask, Name, Profile};
use mal_hall::{Hall, Pick};
use mal_history::Event;
use mal_learn::Scratch;
use std::alloc::Global;

/// Opens a job, posts a revision, and has worker 1 pick, work and give back.
fn serve(alloc: Global, hall: &mut Hall, tenant: Name, job: Name, ask: Ask) -> Option<()>
    requires { 1 ≤ hall.old.workers }
    ensures workers { hall.new.workers ≡ hall.old.workers }
    ensures inside { hall.new.inside ≡ hall.old.inside }
{
    hall.open_job(tenant, job, ask).ok()?;
    let revision = revision(alloc, Posted::Clause(&[1, 2], &[]))?;
    hall.revise_job(&tenant, &job, revision).ok()?;
    match hall.pick(1) {
        Ok(Pick::Leased(lease)) => match hall.finish(worked_off(alloc, lease)) {
            Ok(_) => Some(()),
            Err(strange) => {
                drop(strange);
                None
            }
        },
        Ok(Pick::Idle) => None,
        Ok(Pick::AllDone) => None,
        Err(_) => None,
    }
}

/// A hall of one worker that has served a job so, and of which no lease is out.
fn served(alloc: Global, tenant: Name, job: Name, ask: Ask) -> Option<Hall>
    ensures { IfSome result (λ h. IsInside h) }
{
    let mut hall = Hall::new(alloc, 1).ok()?;
    let told = serve(alloc, &mut hall, tenant, job, ask);
    if told.is_some() {
        if hall.is_home() {
            return Some(hall);
        }
    }
    drop(hall);
    None
}

/// What is told of a hall whose history is to be this text.
fn ended(alloc: Global, hall: Hall, known: &[u8]) -> Told {
    let told = write(alloc, &hall, known);
    drop(hall);
    told
}

/// Whether the closing of a job is entered after that, which makes this history. None where it is refused.
fn is_closed(alloc: Global, known: &[u8]) -> Option<bool> {
    let (tenant, job, ask) = (name(b"a")?, name(b"p")?, ask(1, 4, Profile::Plain)?);
    let hall = served(alloc, tenant, job, ask)?;
    let event = Event::Close { tenant, job };
    let mut scratch = Scratch::new(alloc);
    let applied = hall.apply(&event, None, &mut scratch);
    drop(scratch);
    drop(event);
    Some(ended(alloc, applied.ok()?, known) == Told::Done)
}

#[test]
fn an_event_is_entered_behind_calls(rt: HostRuntime) {
    let known = b"h mal 1 1\no a p 1 1 4\nr a p 1\nb a p 1\ns a p 0 1\nf a p 0 1 ran\nc a p\n";
    assert!(rt; is_closed(rt.alloc(), known) == Some(true));
}
