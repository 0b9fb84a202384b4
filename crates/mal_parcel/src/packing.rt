//! A job is packed.

ghost use Rattle.std.specs.Prelude.{◌≡◌, ◌++◌, All, IfOk, OnOk};
ghost use Rattle.spec_job.specs.{Counts.{starts_out}, Lawful.{IsLawful}, SoloMachine.{SoloMachine, solo}};
ghost use Rattle.spec_parcel.specs.Packed.{parcel_bytes, ran_indices};
ghost use Rattle.mal_parcel.specs.{Packing.{front_bytes, machine_bytes}, Parcelled.{IsReadBack}};

use crate::answers::put_answers;
use crate::events::put_events;
use crate::nodes::put_nodes;
use crate::owned::Owned;
use crate::parcel::Parcel;
use crate::script::{put_script, script_of};
use crate::slices::put_slices;
use mal_job::Job;
use mal_learn::Scratch;
use std::alloc::{AllocError, Global};

/// The parcel of a job with these own events, which are lawful. No start is out, and but for its volume, which is left
/// after, the job did what the own events tell. Nodes that are gone are rebuilt.
pub fn packed(
    alloc: Global,
    own: Owned,
    job: &Job,
    scratch: &mut Scratch,
) -> Result<Parcel, AllocError>
    requires lawful { IsLawful own }
    requires home { starts_out job.now.titled.state.places ≡ 0 }
    requires state { let s : SoloMachine = record job.now.titled.state { volume = 0 } in solo own ≡ s }
    ensures { IfOk result (λ p. p ≡ record { key = job.now.titled.key; own = own }) }
{
    let bytes = bytes_of(alloc, &own, job, scratch)?;
    Ok(Parcel::of(job.tenant(), job.name(), bytes, own))
}

/// The bytes of the parcel of a job with these own events.
fn bytes_of(
    alloc: Global,
    own: &Owned,
    job: &Job,
    scratch: &mut Scratch,
) -> Result<Vec<u8>, AllocError>
    requires lawful { IsLawful own.now }
    requires home { starts_out job.now.titled.state.places ≡ 0 }
    requires state { let s : SoloMachine = record job.now.titled.state { volume = 0 } in solo own.now ≡ s }
    ensures spelled { IfOk result (λ v. v.items ≡ parcel_bytes job.now.titled.key own.now) }
    ensures again { IfOk result (λ v. All (IsReadBack (solo own.now)) (ran_indices (solo own.now))) }
{
    let mut out = front_of(alloc, own, job)?;
    put_machine(alloc, &mut out, job, scratch)?;
    Ok(out)
}

/// The bytes up to the machine: the magic word, the script and the own events.
fn front_of(alloc: Global, own: &Owned, job: &Job) -> Result<Vec<u8>, AllocError>
    requires { IsLawful own.now }
    ensures { IfOk result (λ v. v.items ≡ front_bytes job.now.titled.key own.now) }
{
    let script = script_of(alloc, own, job)?;
    let mut out = Vec::from_slice(alloc, b"MALPACK1")?;
    put_script(alloc, &mut out, &script)?;
    put_events(alloc, &mut out, job.tenant(), job.name(), own.as_slice())?;
    Ok(out)
}

/// Puts a job's machine after the others: its nodes, its slices and its answers. No start is out.
fn put_machine(
    alloc: Global,
    out: &mut Vec<u8>,
    job: &Job,
    scratch: &mut Scratch,
) -> Result<(), AllocError>
    requires { starts_out job.now.titled.state.places ≡ 0 }
    ensures machine { OnOk result (out.new.items ≡ out.old.items ++ machine_bytes job.now.titled.state) }
    ensures again { OnOk result (All (IsReadBack job.now.titled.state) (ran_indices job.now.titled.state)) }
{
    put_nodes(alloc, out, job, scratch)?;
    put_slices(alloc, out, job)?;
    put_answers(out, job.answers())
}
