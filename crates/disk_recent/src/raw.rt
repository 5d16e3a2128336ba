//! One allocation of bytes, reached by a pointer. All that touches the pointer stands here.
ghost use Rattle.std.specs.Prelude.{◌≡◌, ℕ, ◌+◌, ◌≤◌, ◌<◌, ◌^◌, List, Option, Some, None, map, length, take, drop, replicate, slice_set, IfOk};
ghost use base.Fml.{ftrue};
ghost use denote.RawPtr.{Ptr};
ghost use Rattle.disk_recent.specs.Owned.{bytes_own, bytes_lent, room_owned, IsWritten};
ghost use Rattle.disk_recent.specs.Places.{put_at};

use std::alloc::{AllocError, Allocator};
use std::marker::{Model, PhantomData, Send, Sync};
use std::slice;

/// The owner of the bytes. Contracts see each place, with its byte if one was written there.
pub(crate) struct RawBytes {
    at: *mut u8,
    ghost places: { List (Option ℕ) },
}

impl Model for RawBytes {
    ghost also_owns = { λ r. bytes_own r.at r.places };

    ghost also_shares = { λ r _ κ. bytes_lent r.at r.places κ };
}

unsafe impl Send for RawBytes {}

unsafe impl Sync for RawBytes {}

/// The right to give an allocation of `count` bytes at `at` back to `alloc`. It takes no space.
pub(crate) struct Ownership<A: Allocator> {
    mark: PhantomData<*const A>,
    ghost at: { Ptr },
    ghost count: { ℕ },
    ghost alloc: { A },
}

impl<A: Allocator> Model for Ownership<A> {
    ghost also_owns = { λ d. room_owned (A.dealloc_token d.alloc) d.at d.count };

    ghost also_shares = { λ _ _ _. ftrue };
}

unsafe impl<A: Allocator + Send> Send for Ownership<A> {}

// A `&` to it holds nothing.
unsafe impl<A: Allocator> Sync for Ownership<A> {}

/// An allocation of `count` bytes, none of them written.
pub(crate) fn allocate<A: Allocator>(
    alloc: &A,
    count: usize,
) -> Result<(RawBytes, Ownership<A>), AllocError>
    requires { count < 2 ^ 63 }
    ensures { IfOk result (λ r. (r.0.places ≡ replicate count None) × (r.1.at ≡ r.0.at) × (r.1.count ≡ count) × (r.1.alloc ≡ alloc.now)) }
{
    match alloc.allocate(count, 1) {
        Ok(at) => Ok((RawBytes { at }, Ownership { mark: PhantomData })),
        Err(error) => Err(error),
    }
}

/// Gives the allocation back.
pub(crate) fn deallocate<A: Allocator>(
    alloc: &A,
    bytes: RawBytes,
    count: usize,
    ownership: Ownership<A>,
)
    requires { (length bytes.places ≡ count) × (ownership.at ≡ bytes.at) × (ownership.count ≡ count) × (ownership.alloc ≡ alloc.now) }
{
    let RawBytes { at } = bytes;
    let Ownership { mark: _ } = ownership;
    unsafe { alloc.deallocate(at, count, 1) }
}

impl RawBytes {
    /// Writes one byte, whatever stood there.
    pub(crate) fn write(&mut self, index: usize, byte: u8)
        requires { index < length self.old.places }
        ensures { (self.new.at ≡ self.old.at) × (self.new.places ≡ slice_set self.old.places index (Some byte)) }
    {
        unsafe { self.at.add(index).write(byte) }
    }

    /// Writes bytes from a place on, whatever stood there.
    pub(crate) fn write_all(&mut self, at: usize, bytes: &[u8])
        requires within { at + length bytes.now ≤ length self.old.places }
        requires few { length self.old.places < 2 ^ 63 }
        ensures { (self.new.at ≡ self.old.at) × (self.new.places ≡ put_at self.old.places at bytes.now) }
    {
        let mut place = at;
        for byte in bytes {
            self.write(place, *byte);
            place += 1;
        }
    }

    /// The `count` bytes from the place `from` on.
    pub(crate) fn slice(&self, from: usize, count: usize) -> &[u8]
        requires { IsWritten self.now.places from count }
        ensures { take count (drop from self.now.places) ≡ map Some result.now }
    {
        unsafe { slice::from_raw_parts(self.at.add(from), count) }
    }
}
