//! Bytes that never change and are never freed.
ghost use Rattle.std.specs.Prelude.{◌≡◌, ℕ, ◌^◌, ◌<◌, List, [], length};
ghost use denote.RawPtr.{Ptr};
ghost use Rattle.toml_edit_text.specs.Shown.{IsPlaced, shown_at};

use std::marker::Model;
use std::slice;

/// The right to read `items` at `ptr` forever. It takes no space.
#[derive(Drop)]
pub(crate) struct Shown {
    ghost ptr: { Ptr },
    ghost items: { List ℕ },
    ghost placed: { IsPlaced ptr × (length items < 2 ^ 63) },
}

impl Model for Shown {
    ghost also_owns = { λ s. shown_at s.ptr s.items [] };

    ghost also_shares = { λ s _ _. shown_at s.ptr s.items [] };
}

impl Shown {
    /// Returns the address of the bytes, and the right to read them.
    pub(crate) fn forever(bytes: &'static [u8]) -> (*const u8, Shown)
        ensures { (result.1.ptr ≡ result.0) × (result.1.items ≡ bytes.now) }
    {
        (bytes.as_ptr(), Shown {})
    }

    /// Returns the bytes.
    #[inline(always)]
    pub(crate) fn read(&self, ptr: *const u8, len: usize) -> &[u8]
        requires { (ptr ≡ self.now.ptr) × (len ≡ length self.now.items) }
        ensures { result.now ≡ self.now.items }
    {
        unsafe { slice::from_raw_parts(ptr, len) }
    }
}
