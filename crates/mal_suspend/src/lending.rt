//! What is shared, lent to a node.

ghost use Rattle.std.specs.Prelude.{◌≡◌, IfOk};
ghost use Rattle.mal_cdcl.specs.{Importing.{lent}, Ready.{posted}};
ghost use Rattle.mal_suspend.specs.Starting.{shared_loads, shared_imports};

use mal_buffer::Buffer;
use mal_revision::Revision;
use std::alloc::{AllocError, Global};
use std::sync::Arc;

/// Shared revisions, lent, each with the number of its first clause.
pub fn lend_loads<'a>(
    alloc: Global,
    loads: &'a [(Arc<Revision>, u32)],
) -> Result<Vec<(&'a Revision, u32)>, AllocError>
    ensures { IfOk result (λ v. posted v.items ≡ shared_loads loads.now) }
{
    let mut lent = Vec::new(alloc);
    for load in loads {
        let (revision, first) = load;
        lent.push((&**revision, *first))?;
    }
    Ok(lent)
}

/// Shared lists of what was broadcast, lent.
pub fn lend_imports<'a>(
    alloc: Global,
    imports: &'a [Arc<Buffer>],
) -> Result<Vec<&'a Buffer>, AllocError>
    ensures { IfOk result (λ v. lent v.items ≡ shared_imports imports.now) }
{
    let mut lent = Vec::new(alloc);
    for told in imports {
        lent.push(&**told)?;
    }
    Ok(lent)
}
