//! The program `tomled`, over any streams: its words, its steps and its exit status.
#![tactic(auto)]

mod act;
mod command;
mod error;
mod read;
mod words;

pub use act::{Ending, perform};
pub use command::{end_without_memory, run};
pub use error::{CommandError, RunError};
pub use read::read_document;
pub use words::Command;
