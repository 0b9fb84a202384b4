//! The section of the nodes that have run.

ghost use Rattle.std.specs.Prelude.{◌≡◌, ◌≤◌, ◌++◌, All, flat_map, IfOk, OnOk};
ghost use Rattle.spec_job.specs.Counts.{starts_out};
ghost use Rattle.spec_parcel.specs.Packed.{listed, node_bytes, placed_bytes, ran_indices};
ghost use Rattle.mal_parcel.specs.Parcelled.{IsReadBack};

use crate::sized::{put_length, put_number, put_sized};
use mal_job::Job;
use mal_learn::Scratch;
use std::alloc::{AllocError, Global};

/// A job has this many places.
const PLACES: u32 = 64;

/// Puts how many nodes of a job have run, and then each of them by rising index, after the others. None is out.
pub fn put_nodes(
    alloc: Global,
    out: &mut Vec<u8>,
    job: &Job,
    scratch: &mut Scratch,
) -> Result<(), AllocError>
    requires { starts_out job.now.titled.state.places ≡ 0 }
    ensures nodes { OnOk result
        (out.new.items
        ≡ out.old.items ++ listed (node_bytes job.now.titled.state) (ran_indices job.now.titled.state)) }
    ensures again { OnOk result (All (IsReadBack job.now.titled.state) (ran_indices job.now.titled.state)) }
{
    let indices = ran_indices(alloc, job)?;
    put_length(out, indices.len())?;
    put_each(out, job, indices.as_slice(), scratch)
}

/// The indices of the nodes of a job that have run, by rising index.
fn ran_indices(alloc: Global, job: &Job) -> Result<Vec<u32>, AllocError>
    ensures indices { IfOk result (λ v. v.items ≡ ran_indices job.now.titled.state) }
    ensures low { IfOk result (λ v. All (λ i. i ≤ 63) v.items) }
{
    let mut indices = Vec::new(alloc);
    for index in 0..PLACES {
        if job.has_run(index) {
            indices.push(index)?;
        }
    }
    Ok(indices)
}

/// Puts the nodes of a job of these indices after the others. None is out.
fn put_each(
    out: &mut Vec<u8>,
    job: &Job,
    indices: &[u32],
    scratch: &mut Scratch,
) -> Result<(), AllocError>
    requires home { starts_out job.now.titled.state.places ≡ 0 }
    requires low { All (λ i. i ≤ 63) indices.now }
    ensures nodes { OnOk result
        (out.new.items ≡ out.old.items ++ flat_map (node_bytes job.now.titled.state) indices.now) }
    ensures again { OnOk result (All (IsReadBack job.now.titled.state) indices.now) }
{
    for index in indices {
        put_at(out, job, *index, scratch)?;
    }
    Ok(())
}

/// Puts the node of a job of this index after the others. None is out.
fn put_at(out: &mut Vec<u8>, job: &Job, index: u32, scratch: &mut Scratch) -> Result<(), AllocError>
    requires home { starts_out job.now.titled.state.places ≡ 0 }
    requires low { index ≤ 63 }
    ensures node { OnOk result (out.new.items ≡ out.old.items ++ node_bytes job.now.titled.state index) }
    ensures again { OnOk result (IsReadBack job.now.titled.state index) }
{
    let image = job.image(index, scratch)?;
    put_node(out, index, image.as_slice())
}

/// Puts a node after the others: its index, and the bytes of its image after their length.
pub fn put_node(out: &mut Vec<u8>, index: u32, image: &[u8]) -> Result<(), AllocError>
    ensures { OnOk result (out.new.items ≡ out.old.items ++ placed_bytes (record { index = index; image = image.now })) }
{
    put_number(out, u64::from(index))?;
    put_sized(out, image)
}
