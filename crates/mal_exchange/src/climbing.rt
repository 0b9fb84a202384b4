//! Merging the buffers of a tree's solvers.

ghost use Rattle.std.specs.Prelude.{◌≡◌, ◌+◌, ◌≤◌, length, IfOk, OnOk};
ghost use Rattle.spec_exchange.specs.Exchange.{broadcast, entries_of};

use mal_buffer::Buffer;
use mal_tree::Index;
use std::alloc::{AllocError, Global};

/// A buffer takes 1,500 literals.
pub const MOST_LITERALS: usize = 1500;

/// What is broadcast to all solvers of a job: the union of what they export, each list of literals once with the least
/// number, cut to its longest prefix of at most 1,500 literals. The buffers are those of the tree's places from 0 on,
/// at most 64, empty where a solver takes no part. They climb the tree: from the greatest index on each is merged into
/// the one above and cut there, which loses nothing.
pub fn up(alloc: Global, buffers: &[Buffer]) -> Result<Buffer, AllocError>
    requires { length buffers.now ≤ 64 }
    ensures { IfOk result (λ b. b ≡ broadcast (entries_of buffers.now)) }
{
    let mut tops = copies(alloc, buffers)?;
    while tops.len() > 1 {
        climb(alloc, &mut tops)?;
    }
    match tops.pop() {
        None => Ok(Buffer::new(alloc)),
        Some(mut top) => {
            top.cut(MOST_LITERALS);
            Ok(top)
        }
    }
}

/// Equal buffers.
fn copies(alloc: Global, buffers: &[Buffer]) -> Result<Vec<Buffer>, AllocError>
    ensures { IfOk result (λ v. v.items ≡ buffers.now) }
{
    let mut all = Vec::with_capacity(alloc, buffers.len())?;
    for buffer in buffers {
        all.push(buffer.copy()?)?;
    }
    Ok(all)
}

/// Merges the last buffer into that of the place above, and cuts it there.
fn climb(alloc: Global, tops: &mut Vec<Buffer>) -> Result<(), AllocError>
    requires some { 2 ≤ length tops.old.items }
    requires bound { length tops.old.items ≤ 64 }
    ensures len { OnOk result (length tops.new.items + 1 ≡ length tops.old.items) }
    ensures same { OnOk result (broadcast (entries_of tops.new.items) ≡ broadcast (entries_of tops.old.items)) }
{
    let last = tops.len() - 1;
    let Some(above) = Index::of(last as u32).parent() else {
        return Ok(());
    };
    let place = above.number() as usize;
    let mut merged = Buffer::merge(alloc, &tops[place], &tops[last])?;
    merged.cut(MOST_LITERALS);
    tops.pop();
    tops[place] = merged;
    Ok(())
}
