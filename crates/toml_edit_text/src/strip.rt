//! Bytes side by side, owned by a pointer alone.
ghost use Rattle.std.specs.Prelude.{◌≡◌, ℕ, List, length};
ghost use Rattle.core.specs.Mem.Slots.{slots_items, slots_ptr, slots_len, IsFull};
ghost use Rattle.toml_edit_text.specs.Strip.{strip_owns, strip_lent};

use core::slots::Slots;
use std::marker::{Model, Send, Sync};
use std::slice;

/// Bytes side by side, owned by a pointer alone.
pub(crate) struct Strip {
    pub(crate) ptr: *mut u8,
    pub(crate) ghost items: { List ℕ },
}

impl Model for Strip {
    ghost also_owns = { λ s. strip_owns s.ptr s.items };

    ghost also_shares = { λ s _ κ. strip_lent s.ptr s.items κ };
}

unsafe impl Send for Strip {}

unsafe impl Sync for Strip {}

impl Strip {
    /// Takes the bytes of a full row.
    pub(crate) fn of(row: Slots<u8>) -> Strip
        requires { IsFull row }
        ensures { (result.ptr ≡ slots_ptr row) × (result.items ≡ slots_items row) }
    {
        let parts = unsafe { row.into_raw_parts() };
        Strip { ptr: parts.0 }
    }

    /// Gives the bytes back as a row of places.
    pub(crate) fn into_slots(self, len: usize) -> Slots<u8>
        requires { len ≡ length self.items }
        ensures { (slots_ptr result ≡ self.ptr) × (slots_len result ≡ len) }
    {
        let Strip { ptr } = self;
        unsafe { Slots::from_raw_parts(ptr, len) }
    }

    /// Returns the bytes.
    #[inline(always)]
    pub(crate) fn read(&self, len: usize) -> &[u8]
        requires { len ≡ length self.now.items }
        ensures { result.now ≡ self.now.items }
    {
        unsafe { slice::from_raw_parts(self.ptr, len) }
    }
}
