//! Walking over the items of a tree.
#![tactic(auto)]

mod path;
mod visit;

pub use path::Path;
pub use visit::{Visit, visit_item, visit_table};
