//! Tests of values, of texts and of what reads and writes them, from outside: they see no more of a type than its
//! contracts say.
#![tactic(auto)]

#[cfg(test)]
mod tests;
