//! The lines of a text.
ghost use Rattle.std.specs.Prelude.{IfOk};
ghost use Rattle.line_diff.specs.Diff.{AreLines};
ghost use Rattle.line_diff.specs.Steps.{texts};

use std::alloc::{AllocError, Global};

/// Returns the lines of a text, each with its line feed.
pub fn lines_of(alloc: Global, text: &str) -> Result<Vec<&str>, AllocError>
    ensures { IfOk result (λ lines. AreLines text.now (texts lines.items)) }
{
    text.split_inclusive('\n').collect(alloc)
}
