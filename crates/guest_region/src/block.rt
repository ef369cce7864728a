//! One raw block of bytes: made at once and zero at first, written, lent, and freed at its end.
ghost use Rattle.std.specs.Prelude.{◌≡◌, ℕ, ◌+◌, ◌≤◌, ◌<◌, ◌^◌, List, length, replicate, IfOk};
ghost use Rattle.std.specs.Borrow.{sem};
ghost use base.Fml.{ftrue};
ghost use denote.RawPtr.{Ptr};
ghost use Rattle.guest_region.specs.ByteSlices.{part};
ghost use Rattle.guest_region.specs.Ownership.{bytes_own, bytes_lent, block_type};

use std::alloc::{AllocError, Allocator};
use std::marker::{Model, PhantomData};
use std::slice;

/// Bytes side by side, which the block owns.
pub(crate) struct RawBlock {
    ptr: *mut u8,
    ghost bytes: { List ℕ },
}

impl Model for RawBlock {
    ghost also_owns = { λ b. bytes_own b.ptr b.bytes };

    ghost also_shares = { λ b _ κ. bytes_lent b.ptr b.bytes κ };
}

/// The right to give a block of `len` bytes at `ptr` back to `alloc`. It takes no space.
pub(crate) struct Lease<A: Allocator> {
    mark: PhantomData<*const A>,
    ghost alloc: { A },
    ghost ptr: { Ptr },
    ghost len: { ℕ },
}

impl<A: Allocator> Model for Lease<A> {
    ghost also_owns = { λ l. A.dealloc_token l.alloc (block_type l.len) l.ptr };

    ghost also_shares = { λ _ _ _. ftrue };
}

impl RawBlock {
    ghost use Rattle.guest_region.specs.Lease.{IsLeaseFor};
    ghost use Rattle.guest_region.specs.LendsPart.{lends_part};

    /// A block of that many zeros.
    pub(crate) fn zeroed<A: Allocator>(
        alloc: &A,
        len: usize,
    ) -> Result<(RawBlock, Lease<A>), AllocError>
        requires { len < 2 ^ 63 }
        ensures zeros { IfOk result (λ made. made.0.bytes ≡ replicate len 0) }
        ensures lease { IfOk result (λ made. IsLeaseFor made.1 alloc.now made.0.ptr len) }
    {
        match alloc.allocate(len, 1) {
            Ok(ptr) => {
                let mut i = 0;
                'bytes: while i < len {
                    unsafe { ptr.add(i).write(0) };
                    i += 1;
                }
                Ok((RawBlock { ptr }, Lease { mark: PhantomData }))
            }
            Err(error) => Err(error),
        }
    }

    /// Gives the block back. It has `len` bytes.
    pub(crate) fn free<A: Allocator>(self, alloc: &A, len: usize, lease: Lease<A>)
        requires whole { length self.bytes ≡ len }
        requires lease { IsLeaseFor lease alloc.now self.ptr len }
    {
        let RawBlock { ptr } = self;
        let Lease { mark: _ } = lease;
        unsafe { alloc.deallocate(ptr, len, 1) }
    }

    /// Lends that many bytes from a place on.
    pub(crate) fn part(&self, at: usize, len: usize) -> &[u8]
        requires { at + len ≤ length self.now.bytes }
        ensures { result.now ≡ part self.now.bytes at len }
    {
        unsafe { slice::from_raw_parts(self.ptr.add(at), len) }
    }

    /// Copies the bytes from a place on into `out`, as many as it takes.
    pub(crate) fn copy_out(&self, at: usize, out: &mut [u8])
        requires { at + length out.old ≤ length self.now.bytes }
        ensures { out.new ≡ part self.now.bytes at (length out.old) }
    {
        let len = out.len();
        let to = out.as_mut_ptr();
        let mut i = 0;
        unsafe {
            let from = self.ptr.add(at);
            'bytes: while i < len {
                to.add(i).write(from.add(i).read());
                i += 1;
            }
        }
    }

    /// Lends that many bytes from a place on, to be written.
    pub(crate) fn part_mut(&mut self, at: usize, len: usize) -> &mut [u8]
        requires { at + len ≤ length self.old.bytes }
        ensures* writes_back { sem 𝓛 (lends_part self.entry at result) }
        ensures value { result.now ≡ part self.old.bytes at len }
    {
        unsafe { slice::from_raw_parts_mut(self.ptr.add(at), len) }
    }
}
