//! The JSON text of the items of a document.
#![tactic(auto)]

mod escaped;
pub mod laws;
mod runs;
mod write;

pub use write::Json;
