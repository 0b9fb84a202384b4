//! A job is made from its parcel: it does again what its own events tell.

ghost use Rattle.std.specs.Prelude.{◌≡◌, All, take, Some, IfOk, OnOk};
ghost use Rattle.spec_job.specs.{Lawful.{IsLawful}, SoloMachine.{solo}, Viewed.{unstarted}};
ghost use Rattle.spec_parcel.specs.Packed.{parcel_bytes, ran_indices};
ghost use Rattle.mal_parcel.specs.{Owned.{owned}, Parcelled.{IsReadBack}, Replaying.{IsNext, IsReplayed, IsToWake}, Taking.{Takes, behind_magic, behind_node, behind_texts, machine_at, machine_in}};

use crate::following::again;
use crate::owned::OwnEvent;
use crate::parcel::Parcel;
use crate::passing::{behind_nodes, behind_number, behind_slices, take_placed};
use crate::sized::{take_number, take_sized};
use mal_base::Name;
use mal_job::Job;
use std::alloc::{AllocError, Global};

/// The sections of a parcel from its nodes on: how many nodes there are and their bytes, the bytes of the slices, and
/// those of the answers.
#[derive(Drop)]
struct Machine<'a> {
    count: u64,
    nodes: &'a [u8],
    slices: &'a [u8],
    answers: &'a [u8],
}

impl Parcel {
    /// The job of this parcel under a number of its own, of which no start has a number. No slice is run again.
    pub fn unpacked(&self, alloc: Global, number: u64) -> Result<Job, AllocError>
        ensures { IfOk result
            (λ j. j ≡ unstarted number (record { key = self.now.key; state = solo self.now.own })) }
    {
        let own = self.own();
        unpacked(
            alloc,
            number,
            self.tenant(),
            self.job(),
            own.as_slice(),
            self.bytes(),
        )
    }
}

/// The job of this key with these own events, of which these are the bytes.
fn unpacked(
    alloc: Global,
    number: u64,
    tenant: Name,
    job: Name,
    own: &[OwnEvent],
    bytes: &[u8],
) -> Result<Job, AllocError>
    requires lawful { IsLawful (owned own.now) }
    requires spelled { bytes.now ≡ parcel_bytes (record { tenant = tenant; job = job }) (owned own.now) }
    requires again { All (IsReadBack (solo (owned own.now))) (ran_indices (solo (owned own.now))) }
    ensures { IfOk result
        (λ j. j ≡ unstarted number
        (record { key = record { tenant = tenant; job = job }; state = solo (owned own.now) })) }
{
    let Some(machine) = machine_in(bytes) else {
        unreachable!();
    };
    let mut made = opened(alloc, number, tenant, job, own)?;
    replay(alloc, &mut made, own, machine.slices, machine.answers)?;
    wake(alloc, &mut made, machine.count, machine.nodes)?;
    Ok(made)
}

/// A job that was opened as the first of these own events tells.
fn opened(
    alloc: Global,
    number: u64,
    tenant: Name,
    job: Name,
    own: &[OwnEvent],
) -> Result<Job, AllocError>
    requires { IsLawful (owned own.now) }
    ensures { IfOk result
        (λ j. j ≡ unstarted number
        (record { key = record { tenant = tenant; job = job }; state = solo (take 1 (owned own.now)) })) }
{
    match own {
        [OwnEvent::Opened(ask), ..] => Job::fresh(alloc, number, tenant, job, *ask),
        _ => unreachable!(),
    }
}

/// A job that did the first of these own events does the others.
fn replay(
    alloc: Global,
    job: &mut Job,
    own: &[OwnEvent],
    slices: &[u8],
    answers: &[u8],
) -> Result<(), AllocError>
    requires lawful { IsLawful (owned own.now) }
    requires opened { IsReplayed job.old.number job.old.titled.key (owned own.now) (take 1 (owned own.now)) job.old
        slices.now answers.now }
    ensures { OnOk result
        (job.new ≡ unstarted job.old.number (record { key = job.old.titled.key; state = solo (owned own.now) })) }
{
    let mut slices = slices;
    let mut answers = answers;
    for at in 1..own.len() {
        let left = again(alloc, job, &own[at], slices, answers)?;
        slices = left.0;
        answers = left.1;
    }
    Ok(())
}

/// Puts so many nodes of a job, of which these are the bytes, where their journals are.
fn wake(alloc: Global, job: &mut Job, count: u64, nodes: &[u8]) -> Result<(), AllocError>
    requires { IsToWake job.old.titled.state count nodes.now }
    ensures { OnOk result (job.new ≡ job.old) }
{
    let mut rest = nodes;
    for _ in 0..count {
        rest = wake_next(alloc, job, rest)?;
    }
    Ok(())
}

/// Puts the node at the front where its journal is. Answers what stands after it.
fn wake_next<'a>(alloc: Global, job: &mut Job, nodes: &'a [u8]) -> Result<&'a [u8], AllocError>
    requires { IsNext job.old.titled.state nodes.now }
    ensures same { job.new ≡ job.old }
    ensures rest { IfOk result (λ r. behind_node nodes.now ≡ Some r.now) }
{
    let Some((index, image, rest)) = take_placed(nodes) else {
        unreachable!();
    };
    let image = Vec::from_slice(alloc, image)?;
    job.wake(index as u32, image)?;
    Ok(rest)
}

/// The sections of a parcel from its nodes on.
fn machine_in(bytes: &[u8]) -> Option<Machine<'_>>
    ensures { Takes (λ m. (m.count, (m.nodes.now, (m.slices.now, m.answers.now)))) result (machine_in bytes.now) }
{
    let rest = behind_texts(bytes)?;
    machine_at(rest)
}

/// The sections from the nodes on, which stand at the front.
fn machine_at(bytes: &[u8]) -> Option<Machine<'_>>
    ensures { Takes (λ m. (m.count, (m.nodes.now, (m.slices.now, m.answers.now)))) result (machine_at bytes.now) }
{
    let (count, nodes) = take_number(bytes)?;
    let rest = behind_nodes(count, nodes)?;
    let (run, slices) = take_number(rest)?;
    let rest = behind_slices(run, slices)?;
    let answers = behind_number(rest)?;
    Some(Machine {
        count,
        nodes,
        slices,
        answers,
    })
}

/// What stands after the magic word, the script and the own events.
fn behind_texts(bytes: &[u8]) -> Option<&[u8]>
    ensures { Takes (λ x. x.now) result (behind_texts bytes.now) }
{
    let rest = behind_magic(bytes)?;
    let (_, rest) = take_sized(rest)?;
    let (_, rest) = take_sized(rest)?;
    Some(rest)
}

/// What stands after the magic word.
fn behind_magic(bytes: &[u8]) -> Option<&[u8]>
    ensures { Takes (λ x. x.now) result (behind_magic bytes.now) }
{
    match bytes {
        [b'M', b'A', b'L', b'P', b'A', b'C', b'K', b'1', rest @ ..] => Some(rest),
        _ => None,
    }
}
