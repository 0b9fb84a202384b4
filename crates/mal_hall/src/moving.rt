//! The calls by which jobs move from hall to hall.

ghost use Rattle.std.specs.Prelude.{◌≡◌, ◌+◌, ◌<◌, ◌≤◌, [], ◌∷◌, ◌++◌, true, None, Some, IfOk, IfErr, OnOk, OnErr};
ghost use Rattle.mal_base.specs.{Limits.{limits}, Names.{is_name}};
ghost use Rattle.mal_hall.specs.Moving.{admitted, new_one, open_one, packed};
ghost use Rattle.spec_hall.specs.{Calls.{Admits, HasCalled, IsAdmission, Leaves, MayCome, Packs, first_out}, Dressed.{keyed}, Events.{Arrive}, Legal.{MayArrive, MayLeave, job_of}, Own.{brought_by, own, volume_after}, States.{states}};
ghost use Rattle.spec_job.specs.{Counts.{starts_out}, KeyedJob.{KeyedJob}, Lawful.{IsLawful}, SoloMachine.{solo}};

use crate::enter::{enter_arrive, enter_leave};
use crate::event_list::EventList;
use crate::hall::Hall;
use crate::places::place_of;
use crate::spots::owed;
use mal_base::{AdmitFault, Name, PackFault, grown};
use mal_job::Job;
use mal_learn::Scratch;
use mal_parcel::{OwnEvent, Owned, Parcel};
use std::alloc::AllocError;

impl Hall {
    /// Packs a job that goes to another hall, with all that it did and without its volume: it stays here as it is until
    /// it leaves. Of a job of which nodes are out the first one is told. Nodes that were given up are rebuilt, so to pack
    /// a job that is closed and answered takes a search over all of its slices.
    pub fn pack_job(&self, tenant: &Name, job: &Name) -> Result<Parcel, PackFault>
        ensures call { HasCalled self.now.workers self.now.events
            (Packs (keyed tenant.now job.now)) (packed result) self.now.events }
        ensures key { IfOk result (λ p. p.key ≡ keyed tenant.now job.now) }
    {
        let Some(job) = self.job_named(tenant, job) else {
            return Err(PackFault::NoJob);
        };
        match first_out(job) {
            Some(index) => return Err(PackFault::Out { index }),
            None => {}
        }
        match self.parcel_of(job) {
            Ok(parcel) => Ok(parcel),
            Err(_) => Err(PackFault::OutOfMemory),
        }
    }

    /// The parcel of a job that is there and of which no node is out.
    fn parcel_of(&self, job: &Job) -> Result<Parcel, AllocError>
        requires there { job_of job.now.titled.key (states self.now.events) ≡ Some job.now.titled }
        requires home { first_out job.now.titled.state ≡ None }
        ensures may { MayLeave self.now.events job.now.titled.key job.now.titled }
        ensures parcel { IfOk result
            (λ p. p
            ≡ record { key = job.now.titled.key; own = brought_by job.now.titled.key self.now.events }) }
    {
        let alloc = *self.spots.allocator();
        let own = brought_by(&self.entries, job)?;
        let mut scratch = Scratch::new(alloc);
        mal_parcel::packed(alloc, own, job, &mut scratch)
    }

    /// Takes in a job that comes from another hall. There is room for 64 tenants with 64 names of jobs each; after a
    /// refusal the hall is as before, and the parcel is given back.
    pub fn admit_job(&mut self, parcel: Parcel) -> Result<(), (Parcel, AdmitFault)>
        ensures workers { self.new.workers ≡ self.old.workers }
        ensures inside { self.new.inside ≡ self.old.inside }
        ensures back { IfErr result (λ e. e.0 ≡ parcel) }
        ensures call { HasCalled self.old.workers self.old.events
            (Admits parcel.key parcel.own) (admitted result) self.new.events }
    {
        match self.admit(&parcel) {
            Ok(()) => Ok(()),
            Err(fault) => Err((parcel, fault)),
        }
    }

    /// Takes in a job that comes in this parcel.
    fn admit(&mut self, parcel: &Parcel) -> Result<(), AdmitFault>
        ensures workers { self.new.workers ≡ self.old.workers }
        ensures inside { self.new.inside ≡ self.old.inside }
        ensures call { HasCalled self.old.workers self.old.events
            (Admits parcel.now.key parcel.now.own) result self.new.events }
    {
        match self.admission_of(parcel) {
            Ok(()) => {}
            Err(fault) => return Err(fault),
        }
        match self.arrive(parcel) {
            Ok(()) => Ok(()),
            Err(_) => Err(AdmitFault::OutOfMemory),
        }
    }

    /// Whether the job of a parcel has room here.
    fn admission_of(&self, parcel: &Parcel) -> Result<(), AdmitFault>
        ensures { IsAdmission self.now.events parcel.now.key result }
    {
        let (tenant, job) = (parcel.tenant(), parcel.job());
        self.admission(&tenant, &job)
    }

    /// Takes in a job that may come. If memory runs out, the hall is as before.
    fn arrive(&mut self, parcel: &Parcel) -> Result<(), AllocError>
        requires { MayCome self.old.events parcel.now.key }
        ensures workers { self.new.workers ≡ self.old.workers }
        ensures inside { self.new.inside ≡ self.old.inside }
        ensures may { MayArrive self.old.events parcel.now.key parcel.now.own }
        ensures ok { OnOk result
            (self.new.events ≡ self.old.events ++ Arrive parcel.now.key parcel.now.own ∷ []) }
        ensures err { OnErr result (self.new.events ≡ self.old.events) }
    {
        is_in_form(parcel);
        grown(self.comings as usize, 1, usize::MAX)?;
        let alloc = *self.spots.allocator();
        let tenants = tenants_with(self.tenants, self.names.jobs_of(parcel.tenant()));
        let owed = owed(&self.entries, &self.seats, self.unclosed, &self.spots);
        let is_closed = match enter_arrive(
            alloc,
            &mut self.entries,
            &mut self.seats,
            &mut self.names,
            self.comings,
            parcel,
            owed + 2,
        ) {
            Ok(is_closed) => is_closed,
            Err(error) => return Err(error),
        };
        self.unclosed += open_one(is_closed);
        self.tenants = tenants;
        self.comings += 1;
        self.moved = true;
        Ok(())
    }

    /// Lets a job go that may leave. Its name stays known here. Takes no memory.
    pub fn leave_job(&mut self, tenant: &Name, job: &Name)
        requires may { (t : KeyedJob) × MayLeave self.old.events (keyed tenant.now job.now) t }
        ensures workers { self.new.workers ≡ self.old.workers }
        ensures inside { self.new.inside ≡ self.old.inside }
        ensures call { HasCalled self.old.workers self.old.events
            (Leaves (keyed tenant.now job.now)) tt self.new.events }
    {
        let Some(at) = place_of(&self.names, &self.seats, *tenant, *job) else {
            // A job that may leave is there.
            unreachable!();
        };
        let one = open_one(self.seats.at(at).job().is_closed());
        enter_leave(&mut self.entries, &mut self.seats, at);
        self.unclosed -= one;
        self.moved = true;
    }
}

/// The first node of a job that is out.
fn first_out(job: &Job) -> Option<u32>
    ensures { result ≡ first_out job.now.titled.state }
{
    for index in 0..64 {
        if job.is_out(index) {
            return Some(index);
        }
    }
    None
}

/// What a job brings where it goes: all that it did, and no volume.
fn brought_by(entries: &EventList, job: &Job) -> Result<Owned, AllocError>
    requires { volume_after (own job.now.titled.key entries.now.events) ≡ job.now.titled.state.volume }
    ensures { IfOk result (λ o. o ≡ brought_by job.now.titled.key entries.now.events) }
{
    let (tenant, name) = (job.tenant(), job.name());
    let mut own = entries.own_of(&tenant, &name)?;
    if job.volume() != 0 {
        own.push(OwnEvent::Volume(0))?;
    }
    Ok(own)
}

/// What a job counts among those that are not closed.
fn open_one(is_closed: bool) -> usize
    ensures value { result ≡ open_one is_closed }
    ensures few { result ≤ 1 }
{
    if is_closed {
        return 0;
    }
    1
}

/// How many of so many tenants there are after a job came of one that had so many names.
fn tenants_with(tenants: usize, jobs: usize) -> usize
    requires { jobs ≡ 0 → tenants < limits.tenants }
    ensures { result ≡ tenants + new_one jobs }
{
    if jobs == 0 {
        return tenants + 1;
    }
    tenants
}

/// What the type of parcels keeps.
fn is_in_form(parcel: &Parcel)
    ensures tenant { is_name parcel.now.key.tenant ≡ true }
    ensures job { is_name parcel.now.key.job ≡ true }
    ensures lawful { IsLawful parcel.now.own }
    ensures home { starts_out (solo parcel.now.own).places ≡ 0 }
    ensures still { (solo parcel.now.own).volume ≡ 0 }
{
    // For the proof.
    let _ = parcel.own();
    let _ = parcel.tenant().as_bytes();
    let _ = parcel.job().as_bytes();
}
