//! Tests of the hall, of clusters, of inquiries and of the shared service from outside, which see no more of a type than its
//! contracts say.
#![tactic(auto)]

#[cfg(test)]
mod tests;
