//! Replacing a file by a new text, so that a crash at any moment leaves the old text or the new one.
#![tactic(auto)]

mod folder;
mod host;
pub mod laws;
mod left;
mod names;
mod replacement;
mod replacing;
#[cfg(test)]
mod tests;

pub use folder::Folder;
pub use host::Host;
pub use replacement::{ReplaceFault, Replacement};
pub use replacing::{read_locked, replace};
