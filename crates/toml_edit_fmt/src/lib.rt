//! Formats TOML texts and documents: white space, empty lines, indentation, comments, and arrays with
//! a line for each value.
//!
//! A formatted text means the same, and has the same comments in the same order, each with what it
//! belongs to. Keys and values keep their order, values their spelling, and keys theirs unless they
//! are to be bare. A text is formatted statement by statement, as it is read.
#![tactic(auto)]

mod columns;
mod document;
mod fault;
mod lines;
mod measure;
mod page;
mod path;
mod rules;
mod state;
mod statement;
mod statements;
mod text;
mod value;

pub use document::format;
pub use fault::FormatFault;
pub use rules::{Arrays, Commas, Comments, Indentation, Rules};
pub use text::format_text;
