//! Tests of activities, of the pace of a search, of the heap of variables and of the marks of clauses from outside.
#![tactic(auto)]

#[cfg(test)]
mod tests;
