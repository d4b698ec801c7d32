//! Keys and scalars in a text: where they end, what they mean, and how they are spelled by default.
#![tactic(auto)]

mod block_string;
pub mod decode;
mod lanes;
pub mod lone;
mod number;
pub mod run;
pub mod spelling;
mod string;
pub mod token;

pub use decode::{Scalar, decode_integer, decode_key, decode_name, decode_other, decode_scalar};
pub use lone::range_message;
pub use spelling::{put_key, put_string};
pub use token::{after_key, after_scalar, string_stop};
