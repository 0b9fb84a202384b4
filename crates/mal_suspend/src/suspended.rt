//! A node with its journal.

ghost use Rattle.std.specs.Prelude.{◌≡◌, ◌≤◌, ◌<◌, [], length, IfOk, IfErr, IsTrue};
ghost use Rattle.mal_freeze.specs.Spelling.{image_bytes};
ghost use Rattle.spec_job.specs.Journaled.{node_of, started};
ghost use Rattle.mal_suspend.specs.{Freezing.{IsFrozen}, Kept.{IsBeyond, IsWarm}};

use crate::frozen::Frozen;
use crate::journal::Journal;
use crate::warm::Warm;
use mal_base::Profile;
use mal_cdcl::Node;
use mal_freeze::freeze;
use mal_watch::Watcher;
use std::alloc::{AllocError, Global};
use std::marker::Model;

/// The nodes that are handed out, over the engine with two watched literals a clause.
pub type Solver = Node<Watcher>;

/// A node with its journal. Contracts see the journal; the type keeps that the node is that of the journal.
#[derive(Drop)]
pub struct Suspended {
    node: Solver,
    journal: Journal,
}

impl Model for Suspended {
    ghost use Rattle.std.specs.Prelude.{◌≡◌};
    ghost use Rattle.spec_job.specs.Journaled.{Journaled, node_of};

    ghost Value = { Journaled };

    ghost view = { λ s. s.journal };

    ghost invariant = { λ s. s.node.state ≡ node_of s.journal };
}

impl Suspended {
    /// The node of this index (0 to 63) of a job whose solvers have this profile, before its first start. Takes no
    /// memory.
    pub fn fresh(alloc: Global, job: u64, profile: Profile, index: u32) -> Suspended
        requires { index ≤ 63 }
        ensures { result ≡ record { job = job; profile = profile; index = index; start = 0; entries = [] } }
    {
        Suspended {
            node: Node::fresh_with(alloc, index, profile),
            journal: Journal::new(alloc, job, profile, index),
        }
    }

    /// A node with its journal.
    pub fn of(node: Solver, journal: Journal) -> Suspended
        requires { node.state ≡ node_of journal }
        ensures { result ≡ journal }
    {
        Suspended { node, journal }
    }

    /// The node.
    pub fn node(&self) -> &Solver
        ensures { result.now.state ≡ node_of self.now }
    {
        &self.node
    }

    /// The journal.
    pub fn journal(&self) -> &Journal
        ensures { result.now ≡ self.now }
    {
        &self.journal
    }

    /// Gives the node and its journal away.
    pub fn into_parts(self) -> (Solver, Journal)
        ensures node { result.0.state ≡ node_of self }
        ensures journal { result.1 ≡ self }
    {
        (self.node, self.journal)
    }

    /// Gives the journal the number of a new start.
    pub fn set_start(&mut self, start: u64)
        ensures { self.new ≡ started start self.old }
    {
        self.journal.set_start(start);
    }

    /// The bytes of the node, with its journal. If memory runs out, gives the node and its journal back, as they were.
    pub fn freeze(self) -> Result<Frozen, (Suspended, AllocError)>
        ensures frozen { IfOk result (λ f. f ≡ self) }
        ensures refused { IfErr result (λ e. e.0 ≡ self) }
    {
        match self.bytes() {
            Err(error) => Err((self, error)),
            Ok(bytes) => Ok(self.with_bytes(bytes)),
        }
    }

    /// The bytes of the node, with its journal, where they are no more than these and memory for them is there. Else
    /// gives the node and its journal back, as they were, and says which of the two it was.
    pub fn freeze_within(self, most: usize) -> Result<Frozen, (Suspended, Warm)>
        ensures frozen { IfOk result (λ f. f ≡ self) }
        ensures short { IfOk result (λ f. length (image_bytes (node_of f)) ≤ most) }
        ensures kept { IfErr result (λ e. e.0 ≡ self) }
        ensures warm { IfErr result (λ e. IsWarm most self e.1) }
    {
        match self.bytes_within(most) {
            Err(warm) => Err((self, warm)),
            Ok(bytes) => Ok(self.with_bytes(bytes)),
        }
    }

    /// The journal with the bytes of the node's image in place of the node.
    fn with_bytes(self, bytes: Vec<u8>) -> Frozen
        requires { IsFrozen bytes.items self }
        ensures { result ≡ self }
    {
        // For the proof.
        drop(self.node);
        Frozen::of(bytes, self.journal)
    }

    /// The bytes of the image of the node, where they are no more than these and memory for them is there.
    fn bytes_within(&self, most: usize) -> Result<Vec<u8>, Warm>
        ensures bytes { IfOk result (λ v. IsFrozen v.items self.now) }
        ensures short { IfOk result (λ v. length v.items ≤ most) }
        ensures warm { IfErr result (λ w. IsWarm most self.now w) }
    {
        // Such a node is not even tried.
        if self.is_large(most) {
            return Err(Warm::Large);
        }
        match self.bytes() {
            Err(error) => Err(Warm::Wanting(error)),
            Ok(bytes) => {
                if bytes.len() > most {
                    return Err(Warm::Large);
                }
                Ok(bytes)
            }
        }
    }

    /// Whether the image of the node is surely longer than this: it has 5 bytes and more for each variable, and 12 and
    /// more for each clause.
    fn is_large(&self, most: usize) -> bool
        ensures { IsTrue result → IsBeyond most self.now }
    {
        // For the proof.
        let _alloc = self.journal.allocator();
        if self.node.variables() as usize > most / 5 {
            return true;
        }
        self.node.clause_count() > most / 12
    }

    /// The bytes of the image of the node.
    pub fn bytes(&self) -> Result<Vec<u8>, AllocError>
        ensures { IfOk result (λ v. IsFrozen v.items self.now) }
    {
        let alloc = self.journal.allocator();
        let image = self.node.image()?;
        let bytes = freeze(alloc, &image);
        // For the proof.
        drop(image);
        bytes
    }
}
