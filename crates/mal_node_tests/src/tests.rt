//! Nodes whose searches and images are known, and what becomes of nodes that are handed out.

mod cdcl_import;
mod freeze_codec;
mod going;
mod suspend;
mod suspend_going;
mod suspend_lease;
mod way;
