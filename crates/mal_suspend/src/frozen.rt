//! A node as bytes, with its journal.

ghost use Rattle.std.specs.Prelude.{◌≡◌, IfOk, IfErr};
ghost use Rattle.spec_job.specs.Journaled.{node_of, started};
ghost use Rattle.mal_suspend.specs.Freezing.{IsFrozen};

use crate::journal::Journal;
use crate::suspended::{Solver, Suspended};
use mal_cdcl::Node;
use mal_freeze::thaw_known;
use std::alloc::AllocError;
use std::marker::Model;

/// A node as the bytes of its image, with its journal. Contracts see the journal; the type keeps that the bytes are
/// those of the image of the journal's node.
#[derive(Drop)]
pub struct Frozen {
    bytes: Vec<u8>,
    journal: Journal,
}

impl Model for Frozen {
    ghost use Rattle.spec_job.specs.Journaled.{Journaled};
    ghost use Rattle.mal_suspend.specs.Freezing.{IsFrozen};

    ghost Value = { Journaled };

    ghost view = { λ f. f.journal };

    ghost invariant = { λ f. IsFrozen f.bytes.items f.journal };
}

impl Frozen {
    /// The bytes of the image of a journal's node, with the journal.
    pub fn of(bytes: Vec<u8>, journal: Journal) -> Frozen
        requires { IsFrozen bytes.items journal }
        ensures { result ≡ journal }
    {
        Frozen { bytes, journal }
    }

    /// The bytes: the image of the node.
    pub fn bytes(&self) -> &[u8]
        ensures { IsFrozen result.now self.now }
    {
        self.bytes.as_slice()
    }

    /// The journal.
    pub fn journal(&self) -> &Journal
        ensures { result.now ≡ self.now }
    {
        &self.journal
    }

    /// Gives the journal the number of a new start.
    pub fn set_start(&mut self, start: u64)
        ensures { self.new ≡ started start self.old }
    {
        self.journal.set_start(start);
    }

    /// The node with its journal. If memory runs out, gives the bytes and the journal back, as they were.
    pub fn thaw(self) -> Result<Suspended, (Frozen, AllocError)>
        ensures thawed { IfOk result (λ s. s ≡ self) }
        ensures refused { IfErr result (λ e. e.0 ≡ self) }
    {
        match self.wake() {
            Err(error) => Err((self, error)),
            Ok(node) => Ok(Suspended::of(node, self.journal)),
        }
    }

    /// The node of the bytes.
    fn wake(&self) -> Result<Solver, AllocError>
        ensures { IfOk result (λ n. n.state ≡ node_of self.now) }
    {
        let alloc = self.journal.allocator();
        let image = thaw_known(alloc, self.bytes.as_slice())?;
        let node = Node::of_image(alloc, &image);
        // For the proof.
        drop(image);
        node
    }
}
