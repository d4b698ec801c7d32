//! Texts of two words: a short one is stored in place, a long one is a part of a text that is held
//! in common, in a block of its own size, or in the `String` that it was made of.
//!
//! This is the only crate with raw pointers. A `String` takes three words, as it has room to grow.
#![tactic(auto)]

mod block;
mod deed;
mod leaked;
mod packed_text;
mod raw_string;
mod shared_text;
mod short_text;
mod shown;
mod strip;

pub use packed_text::PackedText;
pub use raw_string::{Mem, RawString, Side};
pub use shared_text::SharedText;
