//! Edits of a document, one after another: their words, what each one does, and why one is refused.
#![tactic(auto)]

mod along;
mod apply_edits;
mod arrays;
mod edit;
mod elements;
mod fault;
mod first_table;
mod keys;
pub mod laws;
mod line;
mod missing;
mod moves;
mod read_edit;
mod removes;
mod same;
mod script;
mod sections;
mod text;

pub use apply_edits::ApplyEdits;
pub use edit::{Edit, PathVerb, TextVerb, VERBS, ValueVerb, Verb};
pub use fault::{EditFault, ScriptFault, TextFault, WordFault, WordsFault};
pub use keys::comment_text;
pub use line::line_words;
pub use read_edit::{edits_of, keys_of, next_edit};
pub use same::same_value;
pub use script::{apply, apply_edit};
pub use text::edit_text;
