//! Walking over the items of a tree: a visitor is called at each.

pub use toml_edit_visit::{Path, Visit, visit_item, visit_table};
