//! Nodes that were run by whole slices alone, for tests.

ghost use Rattle.std.specs.Prelude.{◌≡◌, ◌≤◌, IfOk, IfErr, Ok};
ghost use Rattle.mal_freeze.specs.Reading.{image_in};
ghost use Rattle.mal_node_tests.specs.Going.{HasRun};

use mal_base::{ClauseId, Lines, Var};
use mal_cdcl::Node;
use mal_freeze::{freeze, thaw_known};
use mal_learn::{Scratch, Way};
use mal_revision::Revision;
use mal_trail::Listed;
use std::alloc::{AllocError, Global};
use std::marker::Model;

/// How many slices are run at most.
const MOST_SLICES: u32 = 1000;

/// A node that has loaded a revision, and how many slices it has run since.
#[derive(Drop)]
pub struct Going<E: Listed> {
    alloc: Global,
    node: Node<E>,
    slices: u32,
}

impl<E: Listed> Model for Going<E> {
    ghost use Rattle.std.specs.Prelude.{ℕ, ◌≤◌};
    ghost use Rattle.mal_node_tests.specs.Going.{HasRun};

    ghost Value = { ℕ };

    ghost view = { λ g. g.slices };

    ghost invariant = { λ g. (g.slices ≤ 1000) × HasRun g.slices g.node.state };
}

impl<E: Listed> Going<E> {
    /// The node of index 0 that has loaded a revision.
    pub fn new(
        alloc: Global,
        revision: &Revision,
        scratch: &mut Scratch,
    ) -> Result<Going<E>, AllocError> {
        let node = loaded(alloc, revision, scratch)?;
        Ok(Going {
            alloc,
            node,
            slices: 0,
        })
    }

    /// Runs a slice, and gives its lines. None after 1,000 slices.
    pub fn slice(&mut self, scratch: &mut Scratch) -> Result<Option<Lines>, AllocError> {
        if self.slices >= MOST_SLICES {
            return Ok(None);
        }
        self.node.ready(&[], &[], scratch)?;
        self.node.run(scratch);
        self.slices += 1;
        Ok(Some(self.node.take_lines()))
    }

    /// The bytes of the node's image.
    pub fn bytes(&self) -> Result<Vec<u8>, AllocError> {
        let image = self.node.image()?;
        let bytes = freeze(self.alloc, &image);
        drop(image);
        bytes
    }

    /// The node that is thawed from this one's bytes.
    pub fn thawed(&self) -> Result<Going<E>, AllocError> {
        let image = self.node.image()?;
        let frozen = freeze(self.alloc, &image);
        drop(image);
        let bytes = frozen?;
        let woken = woken(self.alloc, bytes.as_slice());
        drop(bytes);
        Ok(Going {
            alloc: self.alloc,
            node: woken?,
            slices: self.slices,
        })
    }

    /// The clauses resolved with on the way of the conflict that waits, and which of three variables were seen. None where
    /// no conflict waits, or where there are other variables.
    pub fn way(&self) -> Result<Option<(Vec<ClauseId>, [bool; 3])>, AllocError> {
        if self.node.variables() != 3 {
            return Ok(None);
        }
        match self.node.conflict() {
            None => Ok(None),
            Some(id) => {
                let mut way = Way::new(self.alloc);
                way.fit(3)?;
                way.follow(self.node.trail(), self.node.engine(), id);
                let seen = [
                    way.has_seen(Var::of(1)),
                    way.has_seen(Var::of(2)),
                    way.has_seen(Var::of(3)),
                ];
                let resolved = Vec::from_slice(self.alloc, way.resolved())?;
                Ok(Some((resolved, seen)))
            }
        }
    }

    /// Whether the search has ended.
    pub fn has_ended(&self) -> bool {
        self.node.verdict().is_some()
    }
}

/// The node of these bytes.
fn woken<E: Listed>(alloc: Global, bytes: &[u8]) -> Result<Node<E>, AllocError>
    requires { IfErr (image_in bytes.now) (λ _. ⊥) }
    ensures { IfOk result (λ n. image_in bytes.now ≡ Ok n.state) }
{
    let image = thaw_known(alloc, bytes)?;
    let node = Node::of_image(alloc, &image);
    drop(image);
    node
}

/// The node of index 0 that has loaded a revision.
fn loaded<E: Listed>(
    alloc: Global,
    revision: &Revision,
    scratch: &mut Scratch,
) -> Result<Node<E>, AllocError>
    ensures { IfOk result (λ n. HasRun 0 n.state) }
{
    if revision.clauses().len() > 1000 {
        return Err(AllocError);
    }
    let mut node = Node::fresh(alloc, 0);
    node.ready(&[(revision, 1)], &[], scratch)?;
    Ok(node)
}
