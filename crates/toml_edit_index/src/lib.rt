//! Where the items of a document stand in its text, as a list of nodes.
//!
//! For programs that read a document in one step: the library for C gives them these nodes.
#![tactic(auto)]

mod found;
mod index;
mod lines;
mod node;

pub use index::{DocumentIndex, index_of};
pub use node::{Node, Span};

#[cfg(test)]
mod tests;
