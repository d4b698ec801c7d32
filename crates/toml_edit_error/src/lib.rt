//! The error of a text that is refused, the excerpt of the text that it shows, and the lines and
//! columns of a text.
#![tactic(auto)]

mod excerpt;
mod place;
pub mod toml_error;

pub use excerpt::Excerpt;
pub use place::line_column;
pub use toml_error::{ParseFault, TomlError, refusal};
