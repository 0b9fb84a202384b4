//! How many workers a hall has, and how many nodes a tree.

/// A hall has 1 to so many workers.
pub const MOST_WORKERS: u32 = 64;

/// The nodes of a tree are numbered from 0 to this one.
pub const LAST_NODE: u32 = 63;
