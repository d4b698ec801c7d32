//! From a text to events: its parts in order, with their spans; and the parts that TOML 1.0 lacks.
#![tactic(auto)]

pub mod event;
pub mod lexer;
mod line;
pub mod lone_keys;
pub mod lone_value;
pub mod mistake;
mod statement;
mod value;
mod version;

pub use event::{Event, EventKind, Span, text_at};
pub use lexer::{Batch, BatchEnd, SyntaxFault, check_rest, read_batch, statements_of};
pub use lone_keys::{LonePath, key_mistake, lone_path};
pub use lone_value::lone_events;
pub use mistake::Mistake;
pub use value::NESTING_LIMIT;
pub use version::grammar::Version;
pub use version::{late_part_of_statement, late_part_of_value};
