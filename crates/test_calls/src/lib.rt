//! Tests of what no row of `test_rows` can say: equality, order and hash, `Display`, owned texts,
//! calls on large tables, and programs that use the library: the functions of the guide, the jobs
//! of tools for manifests, whole programs, the first examples of the Rust crate's documentation, and
//! prints over streams that take little at a time or fail.
//!
//! Each test fails if calls do nothing. Functions that are generic in a type own what is made, and
//! are proved once: a test passes it to them.
#![tactic(auto)]

#[cfg(test)]
mod comparisons;
#[cfg(test)]
mod crowd;
#[cfg(test)]
mod displays;
#[cfg(test)]
mod edits;
#[cfg(test)]
mod examples;
#[cfg(test)]
mod generic;
#[cfg(test)]
mod guide;
#[cfg(test)]
mod holding;
#[cfg(test)]
mod jobs;
#[cfg(test)]
mod labelled;
#[cfg(test)]
mod makers;
#[cfg(test)]
mod mixed;
#[cfg(test)]
mod paths;
#[cfg(test)]
mod prints;
#[cfg(test)]
mod programs;
#[cfg(test)]
mod recipes;
#[cfg(test)]
mod slots;
#[cfg(test)]
mod spans;
#[cfg(test)]
mod streams;
#[cfg(test)]
mod tasks;
#[cfg(test)]
mod texts;
#[cfg(test)]
mod threads;
