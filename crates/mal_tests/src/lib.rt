//! Tests that cross crates: whole runs of the program in threads, of the words, the devices and the gate that it is
//! given.
#![tactic(auto)]

#[cfg(test)]
mod tests;
