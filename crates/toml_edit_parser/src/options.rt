//! The options of parsing.
ghost use Rattle.std.specs.Prelude.{◌≡◌, if◌then◌else◌};
ghost use Rattle.toml_edit_model.specs.Mode as model;
ghost use Rattle.toml_edit_model.specs.Version.{v1_1};
ghost use Rattle.toml_edit_parser.specs.Options.{mode_of, version_of};
ghost use Rattle.toml_edit_repr.specs.Modes as modes;
ghost use Rattle.toml_edit_syntax.specs.Grammar.{grammar};

use toml_edit_repr::Mode;
use toml_edit_syntax::Version;

/// Options of parsing: the version of TOML, and whether line endings are kept.
///
/// # Examples
///
/// ```rust,ignore
/// DocumentMut::from_str_with(alloc, text, ParseOptions::new().exact(true))
/// ```
///
/// From `read_exactly` of the crate `example_calls`.
#[derive(Clone, Copy, Debug, PartialEq, Eq)]
pub struct ParseOptions {
    version: Version,
    mode: Mode,
}

impl ParseOptions {
    /// Returns the default options: TOML 1.1, and line endings are not kept.
    pub fn new() -> ParseOptions
        ensures version { version_of result ≡ v1_1 }
        ensures mode { mode_of result ≡ model.plain }
    {
        ParseOptions {
            version: Version::V1_1,
            mode: Mode::Plain,
        }
    }

    /// Returns the options with this version of TOML. What the version lacks is refused.
    ///
    /// # Examples
    ///
    /// ```rust,ignore
    /// DocumentMut::from_str_with(alloc, text, ParseOptions::new().version(Version::V1_0))
    /// ```
    ///
    /// From `read_strictly` of the crate `example_calls`.
    pub fn version(mut self, version: Version) -> ParseOptions
        ensures version { version_of result ≡ grammar version }
        ensures mode { mode_of result ≡ mode_of self }
    {
        self.version = version;
        self
    }

    /// Returns the options with line endings kept, or not.
    ///
    /// Where they are kept, carriage returns (CR) outside strings print again, and so does a last
    /// statement without newline. A statement that is added ends in a line feed (LF) even then.
    pub fn exact(mut self, exact: bool) -> ParseOptions
        ensures mode { mode_of result ≡ (if exact then model.exact else model.plain) }
        ensures version { version_of result ≡ version_of self }
    {
        self.mode = if exact { Mode::Exact } else { Mode::Plain };
        self
    }

    /// Returns the version of TOML.
    #[doc(hidden)]
    pub fn get_version(self) -> Version
        ensures { grammar result ≡ version_of self }
    {
        self.version
    }

    /// Returns `true` if line endings are kept.
    #[doc(hidden)]
    pub fn is_exact(self) -> bool
        ensures { result ≡ model.is_exact (mode_of self) }
    {
        self.mode.is_exact()
    }

    /// Returns what happens to line endings.
    #[doc(hidden)]
    pub fn get_mode(self) -> Mode
        ensures { modes.mode_of result ≡ mode_of self }
    {
        self.mode
    }
}
