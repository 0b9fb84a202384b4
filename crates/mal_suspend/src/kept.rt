//! What is kept of a node.

ghost use Rattle.std.specs.Prelude.{◌≡◌, true, false, IfOk, IfErr};
ghost use Rattle.spec_job.specs.Journaled.{started};
ghost use Rattle.mal_suspend.specs.Kept.{journal_of, is_gone, IsCooled};

use crate::frozen::Frozen;
use crate::journal::Journal;
use crate::rebuilding::replay;
use crate::suspended::Suspended;
use crate::warm::Warm;
use mal_learn::Scratch;
use std::alloc::AllocError;

/// The greatest length of an image of which the node is kept frozen between two starts: the greatest power of two at
/// which freezing and thawing cost less than the slice between them. Of a slice they cost 0.49 at an image of 10,012
/// bytes, 0.65 at 13,742, 0.72 at 14,845, 0.77 at 18,495, 1.25 at 28,709 (random formulas of three literals a clause,
/// first slice to second).
pub const FROZEN_BYTES: usize = 1 << 14;

/// What is kept of a node: the node with its journal, its bytes with its journal, or its journal alone, since it never
/// came back.
#[derive(Drop)]
pub enum Kept {
    Live(Suspended),
    Cold(Frozen),
    Gone(Journal),
}

impl Kept {
    /// The journal of the node.
    pub fn journal(&self) -> &Journal
        ensures { result.now ≡ journal_of self.now }
    {
        match self {
            Kept::Live(suspended) => suspended.journal(),
            Kept::Cold(frozen) => frozen.journal(),
            Kept::Gone(journal) => journal,
        }
    }

    /// Whether the node is gone.
    pub fn is_gone(&self) -> bool
        ensures { result ≡ is_gone self.now }
    {
        match self {
            Kept::Live(_) => false,
            Kept::Cold(_) => false,
            Kept::Gone(_) => true,
        }
    }

    /// The same, where the journal has the number of a new start.
    pub fn started(self, start: u64) -> Kept
        ensures journal { journal_of result ≡ started start (journal_of self) }
        ensures gone { is_gone result ≡ is_gone self }
    {
        match self {
            Kept::Live(mut suspended) => {
                suspended.set_start(start);
                Kept::Live(suspended)
            }
            Kept::Cold(mut frozen) => {
                frozen.set_start(start);
                Kept::Cold(frozen)
            }
            Kept::Gone(mut journal) => {
                journal.set_start(start);
                Kept::Gone(journal)
            }
        }
    }

    /// The node with its journal; one that is frozen is thawed, and one that is gone is rebuilt. Where memory for that
    /// is wanting, gives back what was kept, as it was, with the error.
    pub fn wake(self, scratch: &mut Scratch) -> Result<Suspended, (Kept, AllocError)>
        ensures live { IfOk result (λ s. s ≡ journal_of self) }
        ensures wanting { IfErr result (λ e. e.0 ≡ self) }
    {
        match self {
            Kept::Live(suspended) => Ok(suspended),
            Kept::Cold(frozen) => match frozen.thaw() {
                Ok(suspended) => Ok(suspended),
                Err((frozen, error)) => Err((Kept::Cold(frozen), error)),
            },
            Kept::Gone(journal) => match replay(&journal, scratch) {
                Ok(node) => Ok(Suspended::of(node, journal)),
                Err(error) => Err((Kept::Gone(journal), error)),
            },
        }
    }
}

/// What is kept between two starts of a node that ran: its bytes where they are no more than `FROZEN_BYTES` and memory
/// for them is there, else the node, and why.
pub(crate) fn cooled(suspended: Suspended) -> (Kept, Option<Warm>)
    ensures journal { journal_of result.0 ≡ suspended }
    ensures there { is_gone result.0 ≡ false }
    ensures cooled { IsCooled result.0 result.1 }
{
    match suspended.freeze_within(FROZEN_BYTES) {
        Ok(frozen) => (Kept::Cold(frozen), None),
        Err((suspended, warm)) => (Kept::Live(suspended), Some(warm)),
    }
}
