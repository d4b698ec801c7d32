//! What is asked of a replacement, and why it is not made.
ghost use Rattle.std.specs.Prelude.{◌≡◌};
ghost use Rattle.file_replace.specs.declared.replacement.ReplaceFault.TheVariants.{Failed};

use std::io;

/// A replacement of the text of a file, which is made if it is missing.
#[derive(Clone, Copy)]
pub struct Replacement<'a> {
    pub name: &'a str,
    /// What the file held when it was read, if it was.
    pub before: Option<&'a [u8]>,
    pub text: &'a [u8],
    /// Whether a read-only file is replaced too, and one whose owner or group cannot be kept.
    pub force: bool,
}

/// Why a file is not replaced.
#[derive(Drop)]
pub enum ReplaceFault {
    /// It does not hold what it held when it was read, or is gone.
    Changed,
    /// It is read-only.
    ReadOnly,
    Failed(io::Error),
}

impl From<io::Error> for ReplaceFault {
    ghost from_gives = { λ error fault. fault ≡ Failed error };

    fn from(error: io::Error) -> ReplaceFault {
        ReplaceFault::Failed(error)
    }
}
