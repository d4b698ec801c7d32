//! The leaves of a document's tree: raw texts, decors, spellings and scalars, and how they are
//! written.
//!
//! The crates of keys, containers and documents build on this one.
#![tactic(auto)]

pub mod comments;
pub mod float_datetime;
pub mod mode;
pub mod repr;
pub mod string_integer_boolean;
pub mod write;

pub use comments::{CommentFault, Comments};
pub use mode::Mode;
pub use repr::{Decor, Formatted, Repr, ScalarValue, ValueRepr};
pub use toml_edit_text::{Mem, RawString};
pub use write::{put_last_comma, put_raw, put_scalar, put_side, spelling_text};
