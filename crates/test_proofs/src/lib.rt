//! Tests of the programs of `example_proofs`: each edits a text and refuses another.
#![tactic(auto)]

#[cfg(test)]
mod programs;
