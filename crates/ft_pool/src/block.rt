//! The block: places side by side for values of one type, of which the first hold a value.
ghost use Rattle.std.specs.Prelude.{◌≡◌, ℕ, ◌<◌, ◌≤◌, [], List, length, slice_get, Some, IfOk, IsTrue, ⊤};
ghost use Rattle.std.specs.Mem.{type_size};
ghost use Rattle.std.specs.Vec.Ownership.{FitsInBlock};
ghost use denote.RawPtr.{Ptr};
ghost use prog.Memory.{capped};
ghost use Rattle.ft_pool.specs.block.Places.{put_at};
ghost use Rattle.ft_pool.specs.block.Ownership.{cells_own, cells_lent};

use std::alloc::{AllocError, Allocator};
use std::marker::{Model, PhantomData};
use std::mem::{align_of, size_of};

/// How many bytes a value takes.
fn item_bytes<T>() -> usize
    ensures { result ≡ capped (type_size T.row) }
{
    size_of::<T>()
}

/// Whether a block for so many values is small enough to ask for.
pub(crate) fn fits_block<T>(room: usize) -> bool
    ensures { IsTrue result → FitsInBlock T.row room }
{
    let most = isize::MAX as usize;
    let bytes = item_bytes::<T>();
    room <= most && bytes <= most && (bytes == 0 || room <= most / bytes)
}

/// Where a block begins. It owns nothing.
pub(crate) struct Start<T> {
    ptr: *mut T,
}

impl<T> Clone for Start<T> {
    ghost is_clone = { λ x y. y ≡ x };

    ghost is_infallible = { λ _. ⊤ };

    fn clone(&self) -> Result<Start<T>, AllocError> {
        Ok(*self)
    }
}

impl<T> Copy for Start<T> {}

/// The owner of a block with `room` places, of which the first hold `items`, and of the right to give it back to
/// `heap`. It takes no space.
pub(crate) struct Cells<T, A: Allocator> {
    mark: PhantomData<*const (T, A)>,
    pub(crate) ghost at: { Ptr },
    pub(crate) ghost room: { ℕ },
    pub(crate) ghost items: { List T },
    pub(crate) ghost heap: { A },
    ghost fits: { length items ≤ room },
}

impl<T, A: Allocator> Model for Cells<T, A> {
    ghost also_owns = { λ cells. cells_own T.row (A.dealloc_token cells.heap) cells.at cells.room cells.items };

    ghost also_shares = { λ cells _ κ. cells_lent T.row cells.at cells.room cells.items κ };
}

impl<T, A: Allocator> Cells<T, A> {
    /// A block with room for `room` values.
    pub(crate) fn take(alloc: &A, room: usize) -> Result<(Start<T>, Cells<T, A>), AllocError>
        requires { FitsInBlock T.row room }
        ensures { IfOk result (λ block. (block.1.at ≡ block.0.ptr) × (block.1.room ≡ room) × (block.1.items ≡ [])
            × (block.1.heap ≡ alloc.now)) }
    {
        match alloc.allocate(room * size_of::<T>(), align_of::<T>()) {
            Ok(block) => {
                let start = Start {
                    ptr: block as *mut T,
                };
                Ok((start, Cells { mark: PhantomData }))
            }
            Err(refused) => Err(refused),
        }
    }

    /// Gives the block back, whatever its places hold.
    pub(crate) fn give_back(self, start: Start<T>, room: usize, alloc: &A)
        requires { (start.ptr ≡ self.at) × (room ≡ self.room) × (alloc.now ≡ self.heap) }
    {
        let Cells { mark: _ } = self;
        unsafe {
            alloc.deallocate(start.ptr as *mut u8, room * size_of::<T>(), align_of::<T>());
        }
    }

    /// Writes a value over one that is there, or into the first free place.
    pub(crate) fn put(&mut self, start: Start<T>, place: usize, item: T)
        requires { (start.ptr ≡ self.old.at) × (place ≤ length self.old.items) × (place < self.old.room) }
        ensures { (self.new.at ≡ self.old.at) × (self.new.room ≡ self.old.room) × (self.new.items ≡ put_at self.old.items place item)
            × (self.new.heap ≡ self.old.heap) }
    {
        unsafe { start.ptr.add(place).write(item) }
    }

    /// The value in a place.
    pub(crate) fn get(&self, start: Start<T>, place: usize) -> &T
        requires { (start.ptr ≡ self.now.at) × (place < length self.now.items) }
        ensures { slice_get self.now.items place ≡ Some result.now }
    {
        unsafe { &*start.ptr.add(place) }
    }
}
