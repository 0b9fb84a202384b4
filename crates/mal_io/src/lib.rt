//! The devices that a program reads from and writes to: sources and sinks of bytes that may fail.
//!
//! A source or a sink counts its faults. A call says that it failed only where it counted one, so a
//! caller that reports a fault can show that there was one.
#![tactic(auto)]

pub mod device;
pub mod memory;
pub mod pieces;
pub mod standard;
pub mod whole;

pub use device::{Failed, Sink, Source};
pub use memory::{MemSink, MemSource};
pub use pieces::Pieces;
pub use standard::{StdSink, StdSource};
pub use whole::{ReadAllError, WriteFault, read_all, write_all};
