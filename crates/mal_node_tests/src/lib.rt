//! Tests of solver nodes, of their images, and of nodes that are handed out and come back, from outside: they see no more
//! of a type than its contracts say.
#![tactic(auto)]

#[cfg(test)]
mod tests;
