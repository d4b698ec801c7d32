//! The two ways to treat line endings.
ghost use Rattle.std.specs.Prelude.{◌≡◌};
ghost use Rattle.toml_edit_model.specs.Mode as model;
ghost use Rattle.toml_edit_repr.specs.Modes.{mode_of};

/// Says what happens to the carriage returns (CR) of decors and trailing texts when a document
/// prints.
#[derive(Clone, Copy, Debug, PartialEq, Eq)]
pub enum Mode {
    /// Drops them: each line ends in a line feed (LF) alone.
    Plain,
    /// Keeps them, so that each line that was parsed keeps its ending.
    Exact,
}

impl Mode {
    /// Returns `true` if line endings are kept.
    pub fn is_exact(self) -> bool
        ensures { result ≡ model.is_exact (mode_of self) }
    {
        matches!(self, Mode::Exact)
    }
}
