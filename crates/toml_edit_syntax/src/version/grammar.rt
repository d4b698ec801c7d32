//! The versions of TOML.

/// A version of TOML.
///
/// TOML 1.1 adds to 1.0 the escapes `\e` and `\xHH`, times without seconds, and newlines, comments
/// and a comma after the last pair in inline tables.
///
/// # Examples
///
/// ```rust,ignore
/// DocumentMut::from_str_with(alloc, text, ParseOptions::new().version(Version::V1_0))
/// ```
///
/// From `read_strictly` of the crate `example_calls`.
#[derive(Clone, Copy, Debug, PartialEq, Eq)]
pub enum Version {
    /// TOML 1.0.0.
    V1_0,
    /// TOML 1.1.0.
    V1_1,
}
