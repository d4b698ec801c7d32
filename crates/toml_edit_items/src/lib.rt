//! What an item is written as, its kind, and the keys and paths below it.
//!
//! For programs that show parts of a document: `tomlfile` writes these texts.
#![tactic(auto)]

mod below;
mod kind;
mod shape;

pub use below::{key_lines, path_lines};
pub use kind::{Kind, kind_of};
pub use shape::Shape;
