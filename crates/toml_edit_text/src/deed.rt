//! A block of bytes from an allocator, as a row of empty places, and the right to free it.
ghost use Rattle.std.specs.Prelude.{◌≡◌, ℕ, ◌^◌, ◌<◌, IfOk};
ghost use Rattle.std.specs.Borrow.{u8};
ghost use Rattle.core.specs.Mem.Slots.{slots_ptr, slots_len};
ghost use Rattle.core.specs.Mem.Slots.Ownership.{leased};
ghost use base.Fml.{ftrue};
ghost use denote.RawPtr.{Ptr};

use core::slots::Slots;
use std::alloc::{AllocError, Allocator, Global};
use std::marker::{Model, PhantomData, Send, Sync};

/// The right to give the block of `len` bytes at `at` back to `alloc`. It takes no space.
pub(crate) struct Deed<A: Allocator = Global> {
    mark: PhantomData<*const A>,
    ghost at: { Ptr },
    ghost len: { ℕ },
    ghost alloc: { A },
}

impl<A: Allocator> Model for Deed<A> {
    ghost also_owns = { λ d. leased (A.dealloc_token d.alloc) u8 d.at d.len };

    ghost also_shares = { λ _ _ _. ftrue };
}

unsafe impl<A: Allocator + Send> Send for Deed<A> {}

// A `&` to it holds nothing.
unsafe impl<A: Allocator> Sync for Deed<A> {}

/// Returns empty places for `len` bytes, and the right to free them.
pub(crate) fn reserve<A: Allocator>(
    alloc: &A,
    len: usize,
) -> Result<(Slots<u8>, Deed<A>), AllocError>
    requires { len < 2 ^ 63 }
    ensures { IfOk result (λ r. (slots_len r.0 ≡ len) × (r.1.at ≡ slots_ptr r.0) × (r.1.len ≡ len) × (r.1.alloc ≡ alloc.now)) }
{
    match alloc.allocate(len, 1) {
        Ok(block) => {
            let slots = unsafe { Slots::from_raw_parts(block, len) };
            Ok((slots, Deed { mark: PhantomData }))
        }
        Err(error) => Err(error),
    }
}

/// Frees the places.
pub(crate) fn release<A: Allocator>(alloc: &A, slots: Slots<u8>, deed: Deed<A>)
    requires { (deed.at ≡ slots_ptr slots) × (deed.len ≡ slots_len slots) × (deed.alloc ≡ alloc.now) }
{
    let parts = unsafe { slots.into_raw_parts() };
    let Deed { mark: _ } = deed;
    unsafe { alloc.deallocate(parts.0, parts.1, 1) }
}
