//! Tests of parts of the solver and of the checker from outside, which see no more of a type than its contracts say.
#![tactic(auto)]

#[cfg(test)]
mod tests;
