//! Sixteen passes that post, pick, work, give and ask at random.

ghost use Rattle.std.specs.Prelude.{◌≤◌, IfOk};
ghost use Rattle.std.specs.List.{All};
ghost use Rattle.mal_turn.specs.Tokens.{IsOf};

use super::{Caller, opening, post_to, revising};
use crate::tests::calling::{Told, drive, hear};
use crate::tests::making::{list_of, name};
use mal_base::{Clause, Lit, ReplyFault};
use mal_hall::Hall;
use mal_revision::Revision;
use mal_service::{Pass, Service, Size};
use std::alloc::{AllocError, Global};
use std::sync::Wait;

/// Services of sixteen workers.
struct Sixteen;

impl Size for Sixteen {
    ghost workers = { 16 };
}

/// How many rounds there are, and how many calls a tenant makes in each.
const ROUNDS: u32 = 4;

const CALLS: u32 = 6;

/// How many slices are worked off at most once all tenants have made their calls.
const REST: u32 = 1_000;

/// A reply that was told of a revision.
#[derive(Drop)]
struct Heard {
    revision: u32,
    text: Vec<u8>,
}

/// A tenant with one job, which works too. It notes the seeds of the revisions that it posted, what it was told, and
/// whether a call of its was not answered as it must be.
#[derive(Drop)]
struct Tenant {
    number: u8,
    seed: u64,
    posted: Vec<u64>,
    heard: Vec<Heard>,
    is_wrong: bool,
}

impl Tenant {
    fn new(alloc: Global, number: u8) -> Tenant {
        Tenant {
            number,
            seed: u64::from(number),
            posted: Vec::new(alloc),
            heard: Vec::new(alloc),
            is_wrong: false,
        }
    }

    /// A random number.
    fn draw(&mut self) -> u64 {
        let grown = self.seed.wrapping_mul(6_364_136_223_846_793_005);
        self.seed = grown.wrapping_add(1_442_695_040_888_963_407);
        self.seed / 8_589_934_592
    }

    /// Its number as a worker.
    fn worker(&self) -> u32
        ensures low { 1 ≤ result }
        ensures high { result ≤ 16 }
    {
        u32::from(self.number % 16) + 1
    }

    /// Its name.
    fn letter(&self) -> [u8; 1] {
        [b'a' + self.number % 16]
    }

    /// Notes that it posted the revision of a seed, or that this was refused.
    fn note(&mut self, seed: u64, is_posted: bool) {
        if !is_posted || self.posted.push(seed).is_err() {
            self.is_wrong = true;
        }
    }

    /// Notes what it was told of a revision.
    fn hear(&mut self, revision: u32, answer: Result<Option<Vec<u8>>, ReplyFault>) {
        match answer {
            Ok(Some(text)) => {
                match self.heard.push(Heard { revision, text }) {
                    Ok(()) => {}
                    Err(refused) => {
                        drop(refused);
                        self.is_wrong = true;
                    }
                }
            }
            Ok(None) => {}
            Err(_) => self.is_wrong = true,
        }
    }
}

/// Puts sixteen tenants into a list. False where memory runs out.
fn put_tenants(alloc: Global, tenants: &mut Vec<Tenant>) -> bool {
    for number in 0..16 {
        match tenants.push(Tenant::new(alloc, number)) {
            Ok(()) => {}
            Err(refused) => {
                drop(refused);
                return false;
            }
        }
    }
    true
}

/// A literal of a variable, by a random number.
fn lit(variable: i32, drawn: u64) -> Option<Lit> {
    let number = if drawn % 2 == 0 {
        variable
    } else {
        variable.wrapping_neg()
    };
    Lit::of_dimacs(number)
}

/// The revision of a seed: a clause of two literals over three variables.
fn revision_of(alloc: Global, seed: u64) -> Option<Revision> {
    let lits = [lit(1, seed / 2)?, lit(3, seed / 4)?];
    let clause = Clause::of_lits(alloc, &lits).ok()?;
    Revision::new(alloc, 3, list_of(alloc, clause)?, &[]).ok()
}

impl<R: Wait> Caller<'_, R, Sixteen> {
    /// Posts a revision for a tenant's job.
    fn revise(&self, pass: Pass<Sixteen>, tenant: &mut Tenant) -> Pass<Sixteen>
        requires { IsOf self.now.service.now.turn pass }
        ensures { IsOf self.now.service.now.turn result }
    {
        let seed = tenant.draw();
        let revision = revising(&tenant.letter(), revision_of(self.alloc, seed));
        let (pass, is_posted) = self.post(pass, revision);
        tenant.note(seed, is_posted);
        pass
    }

    /// Asks for the reply to a revision of a tenant's job, as far as it has posted.
    fn listen(&self, pass: Pass<Sixteen>, tenant: &mut Tenant, revision: u32) -> Pass<Sixteen>
        requires { IsOf self.now.service.now.turn pass }
        ensures { IsOf self.now.service.now.turn result }
    {
        let (Some(name), Some(job)) = (name(&tenant.letter()), name(b"p")) else {
            tenant.is_wrong = true;
            return pass;
        };
        let (pass, answer) = self.service.ask(self.rt, pass, &name, &job, revision);
        tenant.hear(revision, answer);
        pass
    }

    /// Works as a worker. What comes of a lease is never strange.
    fn help(&self, pass: Pass<Sixteen>, tenant: &mut Tenant) -> Pass<Sixteen>
        requires { IsOf self.now.service.now.turn pass }
        ensures { IsOf self.now.service.now.turn result }
    {
        let (pass, told) = self.work(pass, tenant.worker());
        if matches!(told, Told::Strange(_)) {
            tenant.is_wrong = true;
        }
        pass
    }

    /// One call of a tenant, by a random number.
    fn step(&self, pass: Pass<Sixteen>, tenant: &mut Tenant) -> Pass<Sixteen>
        requires { IsOf self.now.service.now.turn pass }
        ensures { IsOf self.now.service.now.turn result }
    {
        let drawn = tenant.draw();
        match drawn % 4 {
            0 => self.revise(pass, tenant),
            1 => self.listen(pass, tenant, (drawn / 4 % 8) as u32 + 1),
            _ => self.help(pass, tenant),
        }
    }

    /// Makes the calls of a tenant in a round.
    fn play(&self, mut pass: Pass<Sixteen>, tenant: &mut Tenant) -> Pass<Sixteen>
        requires { IsOf self.now.service.now.turn pass }
        ensures { IsOf self.now.service.now.turn result }
    {
        for _made in 0..CALLS {
            pass = self.step(pass, tenant);
        }
        pass
    }

    /// Opens a job for each tenant.
    fn open_all(&self, mut pass: Pass<Sixteen>, tenants: &mut [Tenant]) -> Pass<Sixteen>
        requires { IsOf self.now.service.now.turn pass }
        ensures { IsOf self.now.service.now.turn result }
    {
        for tenant in tenants {
            let (next, is_open) = self.post(pass, opening(&tenant.letter()));
            pass = next;
            if !is_open {
                tenant.is_wrong = true;
            }
        }
        pass
    }

    /// Has each tenant make the calls of a round with a pass of its own.
    fn play_round(
        &self,
        passes: Vec<Pass<Sixteen>>,
        tenants: &mut [Tenant],
    ) -> Result<Vec<Pass<Sixteen>>, AllocError>
        requires { All (λ x. IsOf self.now.service.now.turn x) passes.items }
        ensures { IfOk result (λ v. All (λ x. IsOf self.now.service.now.turn x) v.items) }
    {
        let mut played = Vec::new(self.alloc);
        for pass in passes {
            let at = played.len();
            match tenants.get_mut(at) {
                Some(tenant) => played.push(self.play(pass, tenant))?,
                None => {}
            }
        }
        Ok(played)
    }

    /// Sixteen passes of one, which comes back.
    fn split_all(
        &self,
        mut pass: Pass<Sixteen>,
    ) -> Result<(Pass<Sixteen>, Vec<Pass<Sixteen>>), AllocError>
        requires { IsOf self.now.service.now.turn pass }
        ensures of { IfOk result (λ r. IsOf self.now.service.now.turn r.0) }
        ensures all { IfOk result (λ r. All (λ x. IsOf self.now.service.now.turn x) r.1.items) }
    {
        let mut passes = Vec::new(self.alloc);
        for _made in 0..16 {
            let (mine, theirs) = self.service.split(pass);
            pass = mine;
            passes.push(theirs)?;
        }
        Ok((pass, passes))
    }

    /// Puts passes together.
    fn join_all(&self, mut pass: Pass<Sixteen>, passes: Vec<Pass<Sixteen>>) -> Pass<Sixteen>
        requires of { IsOf self.now.service.now.turn pass }
        requires all { All (λ x. IsOf self.now.service.now.turn x) passes.items }
        ensures { IsOf self.now.service.now.turn result }
    {
        for other in passes {
            pass = self.service.join(pass, other);
        }
        pass
    }

    /// Has all tenants make their calls, each by a pass of its own.
    fn play_all(
        &self,
        pass: Pass<Sixteen>,
        tenants: &mut [Tenant],
    ) -> Result<Pass<Sixteen>, AllocError>
        requires { IsOf self.now.service.now.turn pass }
        ensures { IfOk result (λ p. IsOf self.now.service.now.turn p) }
    {
        let (pass, passes) = self.split_all(pass)?;
        let mut passes = passes;
        for _round in 0..ROUNDS {
            passes = self.play_round(passes, tenants)?;
        }
        Ok(self.join_all(pass, passes))
    }

    /// Works until there is nothing to do.
    fn work_off(&self, mut pass: Pass<Sixteen>) -> Pass<Sixteen>
        requires { IsOf self.now.service.now.turn pass }
        ensures { IsOf self.now.service.now.turn result }
    {
        for _made in 0..REST {
            let (next, told) = self.work(pass, 1);
            pass = next;
            if told == Told::Absent {
                return pass;
            }
        }
        pass
    }

    /// Asks for the replies to all revisions of a tenant.
    fn listen_to_all(&self, mut pass: Pass<Sixteen>, tenant: &mut Tenant) -> Pass<Sixteen>
        requires { IsOf self.now.service.now.turn pass }
        ensures { IsOf self.now.service.now.turn result }
    {
        for at in 0..ROUNDS * CALLS {
            if at as usize >= tenant.posted.len() {
                return pass;
            }
            pass = self.listen(pass, tenant, at + 1);
        }
        pass
    }

    /// Asks for the replies to all revisions of all tenants.
    fn listen_for_all(&self, mut pass: Pass<Sixteen>, tenants: &mut [Tenant]) -> Pass<Sixteen>
        requires { IsOf self.now.service.now.turn pass }
        ensures { IsOf self.now.service.now.turn result }
    {
        for tenant in tenants {
            pass = self.listen_to_all(pass, tenant);
        }
        pass
    }

    /// Has tenants share the service, and ask for all replies.
    fn share(
        &self,
        pass: Pass<Sixteen>,
        tenants: &mut [Tenant],
    ) -> Result<Pass<Sixteen>, AllocError>
        requires { IsOf self.now.service.now.turn pass }
        ensures { IfOk result (λ p. IsOf self.now.service.now.turn p) }
    {
        let pass = self.open_all(pass, tenants);
        let pass = self.play_all(pass, tenants)?;
        let pass = self.work_off(pass);
        Ok(self.listen_for_all(pass, tenants))
    }
}

/// Posts what a tenant posted to a hall that has its job alone, and drives the hall.
fn answer_alone(alloc: Global, hall: &mut Hall, tenant: &Tenant) -> bool {
    let letter = tenant.letter();
    if !post_to(hall, opening(&letter)) {
        return false;
    }
    for seed in tenant.posted.as_slice() {
        if !post_to(hall, revising(&letter, revision_of(alloc, *seed))) {
            return false;
        }
    }
    drive(alloc, hall) == Told::Done
}

/// Whether a hall replies as a tenant heard.
fn replies_so(alloc: Global, hall: &Hall, tenant: &Tenant) -> bool {
    let letter = tenant.letter();
    for one in tenant.heard.as_slice() {
        let told = hear(
            alloc,
            hall,
            (&letter, b"p"),
            one.revision,
            one.text.as_slice(),
        );
        if told != Told::Done {
            return false;
        }
    }
    true
}

/// Whether a tenant heard what is replied by a hall that has its job alone, at least as often as it posted.
fn is_as_alone(alloc: Global, tenant: &Tenant) -> bool {
    if tenant.is_wrong || tenant.heard.len() < tenant.posted.len() {
        return false;
    }
    match Hall::new(alloc, 1) {
        Ok(hall) => {
            let mut hall = hall;
            let is_alike = answer_alone(alloc, &mut hall, tenant)
                && replies_so(alloc, &hall, tenant);
            drop(hall);
            is_alike
        }
        Err(_) => false,
    }
}

/// Whether a service that is closed is not in use.
fn is_closed(service: Service<Sixteen>, pass: Pass<Sixteen>) -> bool
    requires { IsOf service.turn pass }
{
    match service.close(pass) {
        Ok(hall) => {
            drop(hall);
            true
        }
        Err(_) => false,
    }
}

/// Tenants share a service, ask for all replies and close it. False where it is still in use then.
fn is_shared<R: Wait>(rt: &R, alloc: Global, tenants: &mut [Tenant]) -> Result<bool, AllocError> {
    let (service, pass) = Service::<Sixteen>::new(alloc, 16)?;
    match Caller::new(rt, alloc, &service).share(pass, tenants) {
        Ok(pass) => Ok(is_closed(service, pass)),
        Err(error) => {
            drop(service);
            Err(error)
        }
    }
}

/// How many tenants heard what is replied by a hall of their own.
fn count_alike(alloc: Global, tenants: &[Tenant]) -> usize {
    tenants
        .iter()
        .filter(|tenant| is_as_alone(alloc, tenant))
        .count()
}

/// How many of sixteen tenants hear what a hall of their own replies. None where the service is still in use at the
/// end, or memory runs out.
fn heard_alike<R: Wait>(rt: &R, alloc: Global) -> Option<usize> {
    let mut tenants = Vec::new(alloc);
    let is_made = put_tenants(alloc, &mut tenants);
    let shared = is_shared(rt, alloc, tenants.as_mut_slice());
    let alike = count_alike(alloc, tenants.as_slice());
    drop(tenants);
    if is_made && shared == Ok(true) {
        Some(alike)
    } else {
        None
    }
}

#[test]
fn sixteen_tenants_hear_what_a_hall_of_their_own_replies(rt: HostRuntime) {
    assert!(rt; heard_alike(&rt, rt.alloc()) == Some(16));
}
