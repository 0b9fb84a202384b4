//! Dialogues with a solver whose answers are known.

mod answers;
mod asking;
mod proofs;
mod refusals;
