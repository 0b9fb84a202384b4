//! Tests of the incremental solver from outside, which see no more of it than its contracts say.
#![tactic(auto)]

#[cfg(test)]
mod tests;
