//! A text that its parts hold in common.
ghost use Rattle.std.specs.Prelude.{◌≡◌, IfOk, string_bytes};
ghost use Rattle.toml_edit_text.specs.SharedText.{IsShown, shown_part};

use std::alloc::{AllocError, Global};
use std::marker::Model;
use std::str;
use std::sync::Arc;

/// A text that its parts hold in common. It never changes, and is freed with the last of them.
#[derive(Drop)]
pub struct SharedText {
    pub(crate) text: Arc<String>,
}

impl Model for SharedText {
    ghost use Rattle.std.specs.Prelude.{ℕ, List, string_bytes};
    ghost use Rattle.std.specs.Arc.{arc_value};

    ghost Value = { List ℕ };

    ghost view = { λ t. string_bytes (arc_value t.text) };
}

impl SharedText {
    /// Makes it of the text of the string, which is not copied.
    ///
    /// # Errors
    ///
    /// Returns an `AllocError` if out of memory.
    pub fn new(alloc: Global, text: String) -> Result<SharedText, AllocError>
        ensures { IfOk result (λ shared. shared ≡ string_bytes text) }
    {
        let text = Arc::new(alloc, text)?;
        Ok(SharedText { text })
    }

    /// Makes it of a copy of the text.
    ///
    /// # Errors
    ///
    /// Returns an `AllocError` if out of memory.
    pub fn from_text(alloc: Global, text: &str) -> Result<SharedText, AllocError>
        ensures { IfOk result (λ shared. shared ≡ text.now) }
    {
        SharedText::new(alloc, String::from_str(alloc, text)?)
    }

    /// Returns the text.
    #[inline(always)]
    pub fn as_str(&self) -> &str
        ensures { result.now ≡ self.now }
    {
        self.text.as_str()
    }
}

/// Returns so many bytes of the text from `start` on, which are a text.
#[inline(always)]
pub(crate) fn part_of(text: &Arc<String>, start: usize, len: usize) -> &str
    requires { IsShown text.now start len }
    ensures { result.now ≡ shown_part text.now start len }
{
    let bytes = text.as_bytes();
    unsafe { str::from_utf8_unchecked(&bytes[start..start + len]) }
}
