//! From a text to its tree: documents, and lone values, keys and paths with the public traits that
//! parse them.
#![tactic(auto)]

mod array;
mod document;
mod events;
mod fault;
pub mod from_str;
mod inline_table;
mod key;
pub mod lone_keys;
mod options;
mod reader;
mod slots;
mod spanned;
mod value;

#[doc(hidden)]
pub use document::parse_with;
pub use from_str::{FromStr, FromStrWith};
pub use lone_keys::ParsePath;
pub use options::ParseOptions;
pub use toml_edit_syntax::Version;
