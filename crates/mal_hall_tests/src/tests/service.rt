//! A service whose answers and whose history are known.

ghost use Rattle.std.specs.Prelude.{◌≡◌, ◌≤◌};
ghost use Rattle.mal_turn.specs.Tokens.{IsOf};

use super::calling::{FREE_REPLY, Told, given, heard, pick, worked_off, write};
use super::making::{ask, name};
use mal_base::{ClauseList, Profile, ReplyFault};
use mal_hall::{Hall, Pick, PickFault, Post};
use mal_revision::Revision;
use mal_service::{Pass, Service, Size};
use mal_suspend::Done;
use std::alloc::{AllocError, Global};
use std::sync::Wait;

mod many;

/// Services of one worker.
struct One;

impl Size for One {
    ghost workers = { 1 };
}

/// Who calls a service: how it waits, where it takes memory, and the service.
#[derive(Drop)]
struct Caller<'a, R: Wait, S: Size> {
    rt: &'a R,
    alloc: Global,
    service: &'a Service<S>,
}

impl<'a, R: Wait, S: Size> Caller<'a, R, S> {
    fn new(rt: &'a R, alloc: Global, service: &'a Service<S>) -> Caller<'a, R, S>
        ensures { result.service.now.turn ≡ service.now.turn }
    {
        Caller { rt, alloc, service }
    }
}

/// The opening of the job p of a tenant.
fn opening(tenant: &[u8]) -> Option<Post> {
    Some(Post::Open {
        tenant: name(tenant)?,
        job: name(b"p")?,
        ask: ask(1, 4, Profile::Plain)?,
    })
}

/// The posting of a revision of the job p of a tenant.
fn revising(tenant: &[u8], revision: Option<Revision>) -> Option<Post> {
    let (Some(tenant), Some(job)) = (name(tenant), name(b"p")) else {
        drop(revision);
        return None;
    };
    Some(Post::Revise {
        tenant,
        job,
        revision: revision?,
    })
}

/// A revision without variables.
fn free(alloc: Global) -> Option<Revision> {
    Revision::new(alloc, 0, ClauseList::new(alloc), &[]).ok()
}

/// What came of the lease of a pick that is worked off, if there is one.
fn worked(alloc: Global, picked: Result<Pick, PickFault>) -> Option<Done> {
    match picked {
        Ok(Pick::Leased(lease)) => Some(worked_off(alloc, lease)),
        Ok(Pick::Idle) => None,
        Ok(Pick::AllDone) => None,
        Err(_) => None,
    }
}

impl<R: Wait, S: Size> Caller<'_, R, S> {
    /// Posts.
    fn post(&self, pass: Pass<S>, post: Option<Post>) -> (Pass<S>, bool)
        requires { IsOf self.now.service.now.turn pass }
        ensures { IsOf self.now.service.now.turn result.0 }
    {
        let Some(post) = post else {
            return (pass, false);
        };
        let (pass, answer) = self.service.post(self.rt, pass, post);
        (pass, answer.is_ok())
    }

    /// Gives back.
    fn give(&self, pass: Pass<S>, done: Option<Done>) -> (Pass<S>, Told)
        requires { IsOf self.now.service.now.turn pass }
        ensures { IsOf self.now.service.now.turn result.0 }
    {
        match done {
            Some(done) => {
                let (pass, answer) = self.service.give(self.rt, pass, done);
                (pass, given(answer))
            }
            None => (pass, Told::Absent),
        }
    }

    /// Picks as a worker, works and gives back.
    fn work(&self, pass: Pass<S>, worker: u32) -> (Pass<S>, Told)
        requires of { IsOf self.now.service.now.turn pass }
        requires low { 1 ≤ worker }
        requires high { worker ≤ S.workers }
        ensures { IsOf self.now.service.now.turn result.0 }
    {
        let (pass, picked) = self.service.pick(self.rt, pass, worker);
        self.give(pass, worked(self.alloc, picked))
    }
}

impl<R: Wait> Caller<'_, R, One> {
    /// Opens the job p of tenant a, and posts its first revision.
    fn post_job(&self, pass: Pass<One>) -> (Pass<One>, Told)
        requires { IsOf self.now.service.now.turn pass }
        ensures { IsOf self.now.service.now.turn result.0 }
    {
        let (pass, is_open) = self.post(pass, opening(b"a"));
        let revision = revising(b"a", free(self.alloc));
        let (pass, is_posted) = self.post(pass, revision);
        if is_open && is_posted {
            (pass, Told::Done)
        } else {
            (pass, Told::Absent)
        }
    }

    /// Asks for the reply to the first revision of a job of tenant a, which is to be this text.
    fn hear(&self, pass: Pass<One>, job: &[u8], known: &[u8]) -> (Pass<One>, Told)
        requires { IsOf self.now.service.now.turn pass }
        ensures { IsOf self.now.service.now.turn result.0 }
    {
        let (Some(tenant), Some(job)) = (name(b"a"), name(job)) else {
            return (pass, Told::Wanting);
        };
        let (pass, answer) = self.service.ask(self.rt, pass, &tenant, &job, 1);
        (pass, heard(answer, known))
    }

    /// Has another pass work.
    fn work_aside(&self, pass: Pass<One>) -> (Pass<One>, Told)
        requires { IsOf self.now.service.now.turn pass }
        ensures { IsOf self.now.service.now.turn result.0 }
    {
        let (pass, other) = self.service.split(pass);
        let (other, told) = self.work(other, 1);
        (self.service.join(pass, other), told)
    }

    /// Posts a job, asks for the reply before its first slice, has another pass work, asks again, and asks of a job that
    /// is not there. What is answered.
    fn ask_around(&self, pass: Pass<One>) -> (Pass<One>, [Told; 5])
        requires { IsOf self.now.service.now.turn pass }
        ensures { IsOf self.now.service.now.turn result.0 }
    {
        let (pass, posted) = self.post_job(pass);
        let (pass, early) = self.hear(pass, b"p", b"");
        let (pass, back) = self.work_aside(pass);
        let (pass, late) = self.hear(pass, b"p", FREE_REPLY);
        let (pass, absent) = self.hear(pass, b"q", b"");
        (pass, [posted, early, back, late, absent])
    }

    /// Posts a job, picks, gives back what came of another hall's lease, then what came of its own, and asks for the
    /// reply. What is answered.
    fn give_strange(&self, pass: Pass<One>) -> (Pass<One>, [Told; 4])
        requires { IsOf self.now.service.now.turn pass }
        ensures { IsOf self.now.service.now.turn result.0 }
    {
        let (pass, posted) = self.post_job(pass);
        let (pass, picked) = self.service.pick(self.rt, pass, 1);
        let (pass, strange) = self.give(pass, second(self.alloc));
        let (pass, back) = self.give(pass, worked(self.alloc, picked));
        let (pass, reply) = self.hear(pass, b"p", FREE_REPLY);
        (pass, [posted, strange, back, reply])
    }
}

/// The history of a service with one job that was asked around.
const HISTORY: &[u8] = b"h mal 1 1\no a p 1 1 4\nr a p 1\nb a p 1\ns a p 0 1\nf a p 0 1 ran\n";

/// Closes a service. Its history is to be this text.
fn closed<S: Size>(alloc: Global, service: Service<S>, pass: Pass<S>, known: &[u8]) -> Told
    requires { IsOf service.turn pass }
{
    match service.close(pass) {
        Ok(hall) => {
            let told = write(alloc, &hall, known);
            drop(hall);
            told
        }
        Err(_) => Told::Other,
    }
}

#[test]
fn a_pass_hears_what_another_worked(rt: HostRuntime) -> Result<(), AllocError> {
    let (service, pass) = Service::<One>::new(rt.alloc(), 1)?;
    let (pass, told) = Caller::new(&rt, rt.alloc(), &service).ask_around(pass);
    let end = closed(rt.alloc(), service, pass, HISTORY);
    let known = [
        Told::Done,
        Told::NoReply,
        Told::Done,
        Told::Done,
        Told::NotHeard(ReplyFault::NoJob),
    ];
    assert!(rt; told == known && end == Told::Done);
    Ok(())
}

/// Posts to a hall.
fn post_to(hall: &mut Hall, post: Option<Post>) -> bool {
    match post {
        Some(post) => hall.post(post).is_ok(),
        None => false,
    }
}

/// What comes of the second lease of a hall whose first was lost.
fn second_of(alloc: Global, hall: &mut Hall) -> Option<Done> {
    if !post_to(hall, opening(b"a")) || !post_to(hall, revising(b"a", free(alloc))) {
        return None;
    }
    drop(pick(hall, 1));
    hall.recall();
    match pick(hall, 1) {
        Ok(lease) => Some(worked_off(alloc, lease)),
        Err(_) => None,
    }
}

/// What comes of the second lease of another hall whose first was lost.
fn second(alloc: Global) -> Option<Done> {
    match Hall::new(alloc, 1) {
        Ok(hall) => {
            let mut hall = hall;
            let done = second_of(alloc, &mut hall);
            drop(hall);
            done
        }
        Err(_) => None,
    }
}

#[test]
fn the_second_lease_of_another_hall_is_strange(rt: HostRuntime) -> Result<(), AllocError> {
    let (service, pass) = Service::<One>::new(rt.alloc(), 1)?;
    let (pass, told) = Caller::new(&rt, rt.alloc(), &service).give_strange(pass);
    drop(pass);
    drop(service);
    let known = [Told::Done, Told::Strange(Some(1)), Told::Done, Told::Done];
    assert!(rt; told == known);
    Ok(())
}
