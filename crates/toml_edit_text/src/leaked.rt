//! A text that is never freed, whose length is kept beside it.
ghost use Rattle.std.specs.Prelude.{◌≡◌, string_bytes, length};
ghost use Rattle.toml_edit_text.specs.Leaked.{IsLeaked};

use crate::shown::Shown;
use std::marker::{Send, Sync};
use std::str;

/// A text that is never freed. It takes one word: the length is kept beside it.
#[derive(Drop)]
pub(crate) struct Leaked {
    ptr: *const u8,
    shown: Shown,
}

// The pointer is only read through, and what it points to never changes.
unsafe impl Send for Leaked {}

unsafe impl Sync for Leaked {}

impl Leaked {
    /// Makes it of the text of the string, which is not copied.
    #[cold]
    #[inline(never)]
    pub(crate) fn new(text: String) -> Leaked
        ensures text { result.shown.items ≡ string_bytes text }
        ensures whole { IsLeaked result (length (string_bytes text)) }
    {
        let bytes: &'static [u8] = text.into_bytes().leak();
        let (ptr, shown) = Shown::forever(bytes);
        Leaked { ptr, shown }
    }

    /// Returns the text, which has so many bytes.
    #[inline(always)]
    pub(crate) fn read(&self, len: usize) -> &str
        requires { IsLeaked self.now len }
        ensures { result.now ≡ self.now.shown.items }
    {
        unsafe { str::from_utf8_unchecked(self.shown.read(self.ptr, len)) }
    }
}
