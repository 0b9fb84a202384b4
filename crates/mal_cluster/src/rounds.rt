//! A cluster that works in rounds.

ghost use Rattle.std.specs.Prelude.{◌≡◌, ◌≢◌, ◌≤◌, ◌<◌, ℕ, List, [], Some, true, length, map, take, IfOk, OnErr, OnOk};
ghost use Rattle.mal_cluster.specs.{Kept.{histories}, Turning.{HasTurns, HasTurnsAt, any_live}};
ghost use Rattle.spec_cluster.specs.Clusters as spec;
ghost use Rattle.spec_cluster.specs.declared.fault.MoveFault.TheVariants as moving;
ghost use Rattle.spec_cluster.specs.{Clusters.{IsCluster, is_there}, Rounds.{AllTurn, AreRounds, HasBegun, IsBrokenOff, IsPart, IsRound, IsTurning, StopsShort, carried, goes, is_live}, Visits.{hall_at}};
ghost use Rattle.spec_hall.specs.{Dressed.{keyed}, States.{leases}, Turns.{TakesTurn, first_live}};

use crate::cluster::Cluster;
use mal_base::{Key, Name};
use mal_hall::Hall;
use mal_learn::Scratch;
use spec_cluster::MoveFault;
use std::alloc::{AllocError, Global};

impl Cluster {
    /// Drives the halls in rounds until no job is live: in each round each hall works for so many slices, 1 to 1,000,
    /// or until it waits, and then the first live job of each goes on to the next hall, where that has room for it. If
    /// memory runs out, all events and moves stay: those of whole rounds, and of a part of the next, in which no hall
    /// has worked beyond its turn. The cluster may be driven again.
    pub fn drive_moving(&mut self, every: u32, scratch: &mut Scratch) -> Result<(), AllocError>
        requires low { 1 ≤ every }
        requires high { every ≤ 1000 }
        ensures rounds { OnOk result ((rounds : List spec.Cluster) × AreRounds every self.old rounds self.new) }
        ensures begun { HasBegun self.old self.new }
        ensures broken { OnErr result (IsBrokenOff every self.old self.new) }
    {
        while self.is_live() {
            self.go_round(every, scratch)?;
        }
        Ok(())
    }

    /// Whether a job is live.
    fn is_live(&self) -> bool
        ensures live { result ≡ is_live self.now }
        ensures is { IsCluster self.now }
    {
        any_live(&self.halls)
    }

    /// Goes one round.
    fn go_round(&mut self, every: u32, scratch: &mut Scratch) -> Result<(), AllocError>
        ensures round { OnOk result (IsRound every self.old self.new) }
        ensures begun { HasBegun self.old self.new }
        ensures part { OnErr result (IsPart every self.old self.new) }
    {
        self.turn_all(every, scratch)?;
        let chosen = first_lives(*self.halls.allocator(), &self.halls)?;
        let carried = self.carry(&chosen);
        drop(chosen);
        carried
    }

    /// Each hall takes its turn of so many slices.
    fn turn_all(&mut self, every: u32, scratch: &mut Scratch) -> Result<(), AllocError>
        ensures turned { OnOk result (AllTurn self.old.workers every self.old.halls self.new.halls) }
        ensures moves { self.new.moves ≡ self.old.moves }
        ensures begun { HasBegun self.old self.new }
        ensures turning { OnErr result ((at : ℕ) × IsTurning every at self.old self.new) }
    {
        for at in 0..self.halls.len() {
            self.turn_at(at, every, scratch)?;
        }
        Ok(())
    }

    /// The hall at a place takes its turn of so many slices.
    fn turn_at(&mut self, at: usize, every: u32, scratch: &mut Scratch) -> Result<(), AllocError>
        requires { at < length self.old.halls }
        ensures turn { OnOk result
            (TakesTurn self.old.workers every (hall_at self.old.halls at) (hall_at self.new.halls at)) }
        ensures short { OnErr result
            (StopsShort self.old.workers every (hall_at self.old.halls at) (hall_at self.new.halls at)) }
        ensures turns { HasTurnsAt self.old at self.new }
    {
        take_turn(&mut self.halls[at], every, scratch)
    }

    /// The jobs that were chosen in the halls go on, one after the other.
    fn carry(&mut self, chosen: &[Option<Key>]) -> Result<(), AllocError>
        requires { chosen.now ≡ map first_live self.old.halls }
        ensures carried { OnOk result (self.new ≡ carried (map first_live self.old.halls) 0 self.old) }
        ensures begun { HasBegun self.old self.new }
        ensures gone { OnErr result ((count : ℕ) × (self.new ≡ carried (take count (map first_live self.old.halls)) 0 self.old)) }
    {
        for from in 0..chosen.len() {
            match &chosen[from] {
                None => {}
                Some(key) => self.go_on(&key.tenant, &key.job, from)?,
            }
        }
        Ok(())
    }

    /// A job of the hall at a place goes on to the next hall, where that has room for it.
    fn go_on(&mut self, tenant: &Name, job: &Name, from: usize) -> Result<(), AllocError>
        requires within { from < length self.old.halls }
        requires there { is_there (keyed tenant.now job.now) (hall_at self.old.halls from) ≡ true }
        ensures was { IsCluster self.old }
        ensures goes { OnOk result (self.new ≡ goes (Some (keyed tenant.now job.now)) from self.old) }
        ensures begun { HasBegun self.old self.new }
        ensures kept { OnErr result (self.new ≡ self.old) }
    {
        let count = self.halls.len();
        let next = (from + 1) % count;
        match self.move_job(tenant, job, next as u32 + 1) {
            Ok(()) => Ok(()),
            Err(fault) => stays(fault),
        }
    }
}

/// Whether any of these halls has a live job.
fn any_live(halls: &[Hall]) -> bool
    ensures { result ≡ any_live (histories halls.now) }
{
    for hall in halls {
        if !hall.is_answered() {
            return true;
        }
    }
    false
}

/// A job that is refused where it would go stays, unless memory ran out.
fn stays(fault: MoveFault) -> Result<(), AllocError>
    ensures stays { OnOk result (fault ≢ moving.OutOfMemory) }
    ensures memory { OnErr result (fault ≡ moving.OutOfMemory) }
{
    match fault {
        MoveFault::NoJob => Ok(()),
        MoveFault::NoHall => Ok(()),
        MoveFault::Same => Ok(()),
        MoveFault::TenantFull => Ok(()),
        MoveFault::HallFull => Ok(()),
        MoveFault::OutOfMemory => Err(AllocError),
    }
}

/// A hall takes a turn of so many slices, which ends before where it waits.
fn take_turn(hall: &mut Hall, every: u32, scratch: &mut Scratch) -> Result<(), AllocError>
    requires { leases hall.old.events ≡ [] }
    ensures workers { hall.new.workers ≡ hall.old.workers }
    ensures turn { OnOk result (TakesTurn hall.old.workers every hall.old.events hall.new.events) }
    ensures short { OnErr result (StopsShort hall.old.workers every hall.old.events hall.new.events) }
    ensures turns { HasTurns hall.old.workers hall.old.events hall.new.events }
{
    for _ in 0..every {
        if !hall.turn(scratch)? {
            return Ok(());
        }
    }
    Ok(())
}

/// The key of the first live job of each hall.
fn first_lives(alloc: Global, halls: &[Hall]) -> Result<Vec<Option<Key>>, AllocError>
    ensures { IfOk result (λ v. v.items ≡ map first_live (histories halls.now)) }
{
    let mut firsts = Vec::new(alloc);
    for hall in halls {
        firsts.push(hall.first_live())?;
    }
    Ok(firsts)
}
