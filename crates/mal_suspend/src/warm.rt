//! Why a node stays live.

use std::alloc::AllocError;

/// Why a node is not kept as bytes between two starts: its image is longer than `FROZEN_BYTES`, or memory to freeze it
/// was refused with this error.
#[derive(Drop)]
pub enum Warm {
    Large,
    Wanting(AllocError),
}
