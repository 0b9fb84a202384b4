//! What a command answers to its input.

use mal_hall::Hall;

/// What a command gives: the halls whose histories go to the log, one after the other, and the text for the output. The
/// bytes of a history are not made before they are written.
#[derive(Drop)]
pub struct Texts {
    pub log: Vec<Hall>,
    pub out: Vec<u8>,
}

/// Why a command gives nothing.
#[derive(Debug, Drop)]
pub enum Complaint {
    /// The source failed.
    Unread,
    /// The input is above 2^26 bytes.
    TooLong,
    /// The input is not in the command's grammar; the line tells its first fault.
    Refused(Vec<u8>),
    /// The input is in the grammar and not as the command wants it; the line tells why.
    Denied(Vec<u8>),
    /// Memory ran out.
    OutOfMemory,
}
