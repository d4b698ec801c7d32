//! Whole tools for manifests, each as short as its counterpart over the Rust crate.
#![tactic(auto)]

pub mod add_member;
pub mod bump;
pub mod count_values;
pub mod lint;
pub mod merge;
pub mod migrate;
mod parts;
pub mod sort_deps;
