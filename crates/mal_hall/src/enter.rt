//! Entering events: what is entered, and what that does to the jobs.

ghost use Rattle.std.specs.Prelude.{◌≡◌, ◌+◌, ◌<◌, ◌≤◌, ◌^◌, [], ◌∷◌, ◌++◌, true, length, None, Some, IfOk, OnOk, OnErr};
ghost use Rattle.std.specs.List.{remove};
ghost use Rattle.mal_hall.specs.{Named.{AreAlike, HasNoted, jobs_at}, Turned.{HasWaited, IsBalancing}};
ghost use Rattle.mal_base.specs.Limits.{limits};
ghost use Rattle.mal_base.specs.declared.verdict.Outcome.TheVariants.{Starved};
ghost use Rattle.mal_job.specs.Finishing.{outcome_of, MayFinish, MayStarve};
ghost use Rattle.mal_seats.specs.{Changed.{OfSeat, IsChanged}, Numbered.{IsAbove}};
ghost use Rattle.spec_job.specs.{SoloMachine.{Exchanged, Finished, Reasked, Revised, clauses_in, solo, startable}, Viewed.{and_own, and_start, IsLeaseOf}};
ghost use Rattle.spec_hall.specs.{Dressed.{keyed}, Events.{Open, Revise, Reask, Start, Finish, Exchange, Leave, Arrive}, Seats.{arrived_seat, opened_seat}};

use crate::event_list::EventList;
use crate::names::Names;
use crate::spots::Spot;
use mal_base::{Ask, Name, Outcome, Weight};
use mal_history::Event;
use mal_parcel::Parcel;
use mal_revision::Revision;
use mal_seats::Seats;
use mal_suspend::{Done, Kept, Lease};
use std::alloc::{AllocError, Global};

/// A job that comes: its number and its key.
#[derive(Clone, Copy)]
pub struct Entrant {
    pub number: u64,
    pub tenant: Name,
    pub job: Name,
}

/// Enters the opening of a job under a number above those of all others, notes its name, and leaves room for as many
/// events as are owed.
pub fn enter_open(
    entries: &mut EventList,
    seats: &mut Seats,
    names: &mut Names,
    entrant: Entrant,
    ask: Ask,
    owed: usize,
) -> Result<(), AllocError>
    requires above { IsAbove entrant.number seats.old }
    requires few { jobs_at names.old.tenants entrant.tenant < 2 ^ 63 }
    requires owed { owed < 2 ^ 63 + 65 }
    ensures workers { entries.new.workers ≡ entries.old.workers }
    ensures events { OnOk result
        (entries.new.events ≡ entries.old.events ++ Open (keyed entrant.tenant entrant.job) ask ∷ []) }
    ensures seats { OnOk result
        (seats.new ≡ seats.old ++ opened_seat entrant.number (keyed entrant.tenant entrant.job) ask ∷ []) }
    ensures names { OnOk result
        (HasNoted entrant.number (keyed entrant.tenant entrant.job) names.old names.new) }
    ensures room { OnOk result (owed ≤ entries.new.room) }
    ensures err { OnErr result (HasWaited entries.old entries.new seats.old seats.new) }
    ensures alike { OnErr result (AreAlike names.old names.new) }
{
    let Entrant {
        number,
        tenant,
        job,
    } = entrant;
    entries.reserve(owed + 1)?;
    seats.open(number, tenant, job, ask)?;
    match note(names, entrant) {
        Ok(()) => {}
        Err(error) => {
            // The job is not named, so it does not come.
            seats.leave(seats.len() - 1);
            return Err(error);
        }
    }
    entries.push_reserved(Event::Open { tenant, job, ask });
    Ok(())
}

/// Enters the arrival of a job under a number above those of all others, notes its name, and leaves room for as many
/// events as are owed. Answers whether the job is closed.
pub fn enter_arrive(
    alloc: Global,
    entries: &mut EventList,
    seats: &mut Seats,
    names: &mut Names,
    number: u64,
    parcel: &Parcel,
    owed: usize,
) -> Result<bool, AllocError>
    requires above { IsAbove number seats.old }
    requires few { jobs_at names.old.tenants parcel.now.key.tenant < 2 ^ 63 }
    requires owed { owed < 2 ^ 63 + 65 }
    ensures workers { entries.new.workers ≡ entries.old.workers }
    ensures events { OnOk result
        (entries.new.events ≡ entries.old.events ++ Arrive parcel.now.key parcel.now.own ∷ []) }
    ensures seats { OnOk result
        (seats.new ≡ seats.old ++ arrived_seat number parcel.now.key parcel.now.own ∷ []) }
    ensures names { OnOk result (HasNoted number parcel.now.key names.old names.new) }
    ensures closed { IfOk result (λ c. c ≡ (solo parcel.now.own).closed) }
    ensures room { OnOk result (owed ≤ entries.new.room) }
    ensures err { OnErr result (HasWaited entries.old entries.new seats.old seats.new) }
    ensures alike { OnErr result (AreAlike names.old names.new) }
{
    entries.reserve(owed + 1)?;
    let content = entries.arrival_of(parcel.own())?;
    match seat_arrival(alloc, seats, names, number, parcel) {
        Ok(is_closed) => {
            entries.push_arrive(parcel.tenant(), parcel.job(), content);
            Ok(is_closed)
        }
        Err(error) => {
            drop(content);
            Err(error)
        }
    }
}

/// Seats a job that arrives under a number above those of all others, and notes its name. Answers whether the job is
/// closed. If memory runs out, it is not there.
fn seat_arrival(
    alloc: Global,
    seats: &mut Seats,
    names: &mut Names,
    number: u64,
    parcel: &Parcel,
) -> Result<bool, AllocError>
    requires above { IsAbove number seats.old }
    requires few { jobs_at names.old.tenants parcel.now.key.tenant < 2 ^ 63 }
    ensures seats { OnOk result
        (seats.new ≡ seats.old ++ arrived_seat number parcel.now.key parcel.now.own ∷ []) }
    ensures names { OnOk result (HasNoted number parcel.now.key names.old names.new) }
    ensures closed { IfOk result (λ c. c ≡ (solo parcel.now.own).closed) }
    ensures err { OnErr result (seats.new ≡ seats.old) }
    ensures alike { OnErr result (AreAlike names.old names.new) }
{
    let is_closed = admit(alloc, seats, number, parcel)?;
    let entrant = Entrant {
        number,
        tenant: parcel.tenant(),
        job: parcel.job(),
    };
    match note(names, entrant) {
        Ok(()) => Ok(is_closed),
        Err(error) => {
            // The job is not named, so it does not come.
            seats.leave(seats.len() - 1);
            Err(error)
        }
    }
}

/// Unpacks a job and gives it a seat after all others. Answers whether the job is closed.
fn admit(alloc: Global, seats: &mut Seats, number: u64, parcel: &Parcel) -> Result<bool, AllocError>
    requires { IsAbove number seats.old }
    ensures seats { OnOk result
        (seats.new ≡ seats.old ++ arrived_seat number parcel.now.key parcel.now.own ∷ []) }
    ensures closed { IfOk result (λ c. c ≡ (solo parcel.now.own).closed) }
    ensures err { OnErr result (seats.new ≡ seats.old) }
{
    // For the proof.
    let _ = parcel.own();
    let job = parcel.unpacked(alloc, number)?;
    let is_closed = job.is_closed();
    seats.admit(job)?;
    Ok(is_closed)
}

/// Notes the name of a job that comes. If memory runs out, the names lead where they led.
fn note(names: &mut Names, entrant: Entrant) -> Result<(), AllocError>
    requires { jobs_at names.old.tenants entrant.tenant < 2 ^ 63 }
    ensures noted { OnOk result
        (HasNoted entrant.number (keyed entrant.tenant entrant.job) names.old names.new) }
    ensures alike { OnErr result (AreAlike names.old names.new) }
{
    names.note(entrant.tenant, entrant.job, entrant.number)
}

/// Enters a revision of the job at a place, as the one of this number, with a copy of it, and leaves room for as many
/// events as are owed.
pub fn enter_revise(
    entries: &mut EventList,
    seats: &mut Seats,
    at: usize,
    number: u32,
    revision: Revision,
    owed: usize,
) -> Result<(), AllocError>
    requires place { at < length seats.old }
    requires few { OfSeat seats.old at (λ s. length s.job.titled.state.revisions < limits.revisions) }
    requires clauses { OfSeat seats.old at
        (λ s. clauses_in s.job.titled.state.revisions + length revision.clauses ≤ limits.clauses) }
    requires owed { owed < 2 ^ 63 + 65 }
    ensures workers { entries.new.workers ≡ entries.old.workers }
    ensures events { OnOk result
        (OfSeat seats.old at
        (λ s. entries.new.events ≡ entries.old.events ++ Revise s.job.titled.key number revision ∷ [])) }
    ensures seats { OnOk result
        (IsChanged (λ s. record s { job = and_own s.job (Revised revision) }) at seats.old seats.new) }
    ensures room { OnOk result (owed ≤ entries.new.room) }
    ensures err { OnErr result (HasWaited entries.old entries.new seats.old seats.new) }
{
    let seat = seats.at(at);
    let (tenant, job) = (seat.job().tenant(), seat.job().name());
    let kept = entries.copy_of(&revision)?;
    entries.reserve(owed + 1)?;
    seats.revise(at, revision)?;
    entries.push_revise(tenant, job, number, kept);
    Ok(())
}

/// Enters that the job at a place asks anew, and leaves room for as many events as are owed.
pub fn enter_reask(
    entries: &mut EventList,
    seats: &mut Seats,
    at: usize,
    weight: Weight,
    owed: usize,
) -> Result<(), AllocError>
    requires place { at < length seats.old }
    requires owed { owed < 2 ^ 63 + 65 }
    ensures workers { entries.new.workers ≡ entries.old.workers }
    ensures events { OnOk result
        (OfSeat seats.old at
        (λ s. entries.new.events ≡ entries.old.events ++ Reask s.job.titled.key weight ∷ [])) }
    ensures seats { OnOk result
        (IsChanged (λ s. record s { job = and_own s.job (Reasked weight) }) at seats.old seats.new) }
    ensures room { OnOk result (owed ≤ entries.new.room) }
    ensures err { OnErr result (HasWaited entries.old entries.new seats.old seats.new) }
{
    let seat = seats.at(at);
    let (tenant, job) = (seat.job().tenant(), seat.job().name());
    entries.reserve(owed + 1)?;
    seats.reask(at, weight);
    entries.push_reserved(Event::Reask {
        tenant,
        job,
        weight,
    });
    Ok(())
}

/// Enters a balancing with fair volumes, and leaves room for as many events as are owed.
pub fn enter_balance(
    entries: &mut EventList,
    seats: &mut Seats,
    owed: usize,
) -> Result<(), AllocError>
    requires { owed < 2 ^ 63 + 64 }
    ensures workers { entries.new.workers ≡ entries.old.workers }
    ensures balancing { OnOk result (IsBalancing entries.old entries.new seats.old seats.new) }
    ensures room { OnOk result (owed ≤ entries.new.room) }
    ensures err { OnErr result (HasWaited entries.old entries.new seats.old seats.new) }
{
    entries.reserve(owed + 1)?;
    let volumes = seats.volumes(entries.workers())?;
    let shares = seats.shares(volumes.as_slice())?;
    match seats.balance(volumes.as_slice()) {
        Ok(()) => {
            entries.push_reserved(Event::Balance { volumes: shares });
            Ok(())
        }
        Err(error) => {
            drop(shares);
            Err(error)
        }
    }
}

/// Enters the start of a node of the job at a place by a worker, as the lease at this spot, and leaves room for as many
/// events as are owed.
pub fn enter_start(
    entries: &mut EventList,
    seats: &mut Seats,
    at: usize,
    spot: Spot,
    worker: u32,
    owed: usize,
) -> Result<Lease, AllocError>
    requires place { at < length seats.old }
    requires startable { OfSeat seats.old at (λ s. startable s.job.titled.state spot.index ≡ true) }
    requires owed { owed < 2 ^ 63 + 65 }
    ensures workers { entries.new.workers ≡ entries.old.workers }
    ensures events { OnOk result
        (OfSeat seats.old at
        (λ s. entries.new.events ≡ entries.old.events ++ Start s.job.titled.key spot.index worker ∷ [])) }
    ensures seats { OnOk result
        (IsChanged (λ s. record s { job = and_start s.job spot.index spot.start }) at seats.old seats.new) }
    ensures lease { IfOk result
        (λ l. OfSeat seats.old at (λ s. IsLeaseOf s.job spot.index spot.start worker l)) }
    ensures room { OnOk result (owed ≤ entries.new.room) }
    ensures err { OnErr result (HasWaited entries.old entries.new seats.old seats.new) }
{
    let seat = seats.at(at);
    let (tenant, job) = (seat.job().tenant(), seat.job().name());
    let index = spot.index();
    entries.reserve(owed + 1)?;
    let lease = seats.start(at, index, worker, spot.start())?;
    entries.push_reserved(Event::Start {
        tenant,
        job,
        index,
        worker,
    });
    Ok(lease)
}

/// Enters the end of the lease that a worker has of a node of the job at a place: it is lost where nothing came back.
/// Takes no memory.
pub fn enter_finish(
    entries: &mut EventList,
    seats: &mut Seats,
    at: usize,
    index: u32,
    worker: u32,
    back: Option<Done>,
)
    requires place { at < length seats.old }
    requires index { index ≤ 63 }
    requires back { OfSeat seats.old at (λ s. MayFinish s.job index back) }
    requires room { 1 ≤ entries.old.room }
    ensures workers { entries.new.workers ≡ entries.old.workers }
    ensures events { OfSeat seats.old at
        (λ s. entries.new.events ≡ entries.old.events ++ Finish s.job.titled.key index worker (outcome_of back) ∷ []) }
    ensures seats { IsChanged
        (λ s. record s { job = and_own s.job (Finished index (outcome_of back)) }) at seats.old seats.new }
    ensures room { entries.new.room + 1 ≡ entries.old.room }
{
    let seat = seats.at(at);
    let (tenant, job) = (seat.job().tenant(), seat.job().name());
    let outcome = outcome_of(&back);
    seats.finish(at, index, back);
    entries.push_reserved(Event::Finish {
        tenant,
        job,
        index,
        worker,
        outcome,
    });
}

/// Ends a start of the job at a place as one that ran out of memory, of which this is kept of the node, and enters it,
/// for which there is room.
pub fn enter_starved(
    entries: &mut EventList,
    seats: &mut Seats,
    at: usize,
    index: u32,
    worker: u32,
    kept: Kept,
)
    requires place { at < length seats.old }
    requires kept { OfSeat seats.old at (λ s. MayStarve s.job index (Some kept)) }
    requires room { 1 ≤ entries.old.room }
    ensures workers { entries.new.workers ≡ entries.old.workers }
    ensures events { OfSeat seats.old at
        (λ s. entries.new.events ≡ entries.old.events ++ Finish s.job.titled.key index worker Starved ∷ []) }
    ensures seats { IsChanged
        (λ s. record s { job = and_own s.job (Finished index Starved) }) at seats.old seats.new }
    ensures room { entries.new.room + 1 ≡ entries.old.room }
{
    let seat = seats.at(at);
    let (tenant, job) = (seat.job().tenant(), seat.job().name());
    seats.starve(at, index, kept);
    entries.push_reserved(Event::Finish {
        tenant,
        job,
        index,
        worker,
        outcome: Outcome::Starved,
    });
}

/// How a start ended of which this came back: it is lost where nothing came.
fn outcome_of(back: &Option<Done>) -> Outcome
    ensures { result ≡ outcome_of back.now }
{
    match back {
        None => Outcome::Lost,
        Some(done) => done.outcome(),
    }
}

/// Enters an exchange of the job at a place, and leaves room for as many events as are owed.
pub fn enter_exchange(
    entries: &mut EventList,
    seats: &mut Seats,
    at: usize,
    owed: usize,
) -> Result<(), AllocError>
    requires place { at < length seats.old }
    requires owed { owed < 2 ^ 63 + 64 }
    ensures workers { entries.new.workers ≡ entries.old.workers }
    ensures events { OnOk result
        (OfSeat seats.old at
        (λ s. entries.new.events ≡ entries.old.events ++ Exchange s.job.titled.key ∷ [])) }
    ensures seats { OnOk result (IsChanged (λ s. record s { job = and_own s.job Exchanged }) at seats.old seats.new) }
    ensures room { OnOk result (owed ≤ entries.new.room) }
    ensures err { OnErr result (HasWaited entries.old entries.new seats.old seats.new) }
{
    let seat = seats.at(at);
    let (tenant, job) = (seat.job().tenant(), seat.job().name());
    entries.reserve(owed + 1)?;
    seats.exchange(at)?;
    entries.push_reserved(Event::Exchange { tenant, job });
    Ok(())
}

/// Enters that the job at a place leaves. Takes no memory.
pub fn enter_leave(entries: &mut EventList, seats: &mut Seats, at: usize)
    requires place { at < length seats.old }
    requires room { 1 ≤ entries.old.room }
    ensures workers { entries.new.workers ≡ entries.old.workers }
    ensures events { OfSeat seats.old at
        (λ s. entries.new.events ≡ entries.old.events ++ Leave s.job.titled.key ∷ []) }
    ensures seats { seats.new ≡ remove seats.old at }
    ensures room { entries.new.room + 1 ≡ entries.old.room }
{
    let seat = seats.at(at);
    let (tenant, job) = (seat.job().tenant(), seat.job().name());
    seats.leave(at);
    entries.push_reserved(Event::Leave { tenant, job });
}
