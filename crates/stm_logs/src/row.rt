//! Rows of places in one raw block. All raw pointers of the product are in this file.
ghost use Rattle.std.specs.Prelude.{◌≡◌, ℕ, ◌^◌, ◌<◌, Bool, true, false, List, length, IfOk, slice_index_or, slice_set};
ghost use Rattle.core.specs.Mem.Slots.Ownership.{Filled, owned, lent, leased};
ghost use Rattle.core.specs.Allocator.{FitsBlock};

use std::alloc::{AllocError, Allocator};
use std::marker::{Model, PhantomData, Send};
use std::mem::{align_of, size_of};

/// Places for values, one after the other in one block. `items` has a value for each place, and
/// `filled` says which places hold their value.
pub(crate) struct Row<T> {
    ptr: *mut T,
    len: usize,
    pub ghost items: { List T },
    pub ghost filled: { List Bool },
    pub ghost ok: { (len ≡ length items) × (len ≡ length filled) },
    ghost small: { len < 2 ^ 64 },
}

impl<T> Model for Row<T> {
    ghost also_owns = { λ a. owned T.row a.ptr a.len a.items a.filled };

    ghost also_shares = { λ a _ κ. lent T.row a.ptr a.len a.items a.filled κ };
}

// A row owns its places.
unsafe impl<T: Send> Send for Row<T> {}

impl<T> Row<T> {
    ghost use Rattle.stm_logs.specs.Frees.{IsReserved};

    /// Allocates a row of `n` empty places, with the right to free it.
    ///
    /// # Safety
    ///
    /// A row never drops the values that it holds.
    pub(crate) unsafe fn reserve<A: Allocator>(
        alloc: &A,
        n: usize,
    ) -> Result<(Row<T>, Right<T, A>), AllocError>
        ghost items: { List T }
        requires { (n ≡ length items) × FitsBlock T.row n }
        ensures { IfOk result (λ p. IsReserved n alloc.now p) }
    {
        match alloc.allocate(n * size_of::<T>(), align_of::<T>()) {
            Ok(block) => {
                let ptr = block as *mut T;
                let by = PhantomData;
                Ok((Row { ptr, len: n }, Right { ptr, len: n, by }))
            }
            Err(refused) => Err(refused),
        }
    }

    /// Returns the value at place `i`.
    #[inline]
    pub(crate) fn get(&self, i: usize) -> &T
        requires { (i < self.now.len) × (slice_index_or self.now.filled i false ≡ true) }
        ensures { result.now ≡ slice_index_or self.now.items i result.now }
    {
        unsafe { &*self.ptr.add(i) }
    }

    /// Puts `x` at place `i`. A value already at the place is not dropped.
    #[inline]
    pub(crate) fn put(&mut self, i: usize, x: T)
        requires { i < self.old.len }
        ensures items { self.new.items ≡ slice_set self.old.items i x }
        ensures filled { self.new.filled ≡ slice_set self.old.filled i true }
        ensures places { (self.new.ptr ≡ self.old.ptr) × (self.new.len ≡ self.old.len) }
    {
        unsafe { self.ptr.add(i).write(x) }
    }
}

/// The right to free the block behind a row.
pub(crate) struct Right<T, A: Allocator> {
    ptr: *mut T,
    len: usize,
    by: PhantomData<A>,
    pub ghost alloc: { A },
}

impl<T, A: Allocator> Model for Right<T, A> {
    ghost also_owns = { λ l. leased (A.dealloc_token l.alloc) T.row l.ptr l.len };
}

// A block may be freed on any thread if its allocator may cross threads.
unsafe impl<T, A: Allocator + Send> Send for Right<T, A> {}

/// Frees the block behind a row. Values in the row are not dropped.
pub(crate) fn release<T, A: Allocator>(alloc: &A, row: Row<T>, right: Right<T, A>)
    requires { (right.ptr ≡ row.ptr) × (right.len ≡ row.len) × (right.alloc ≡ alloc.now) }
{
    let Row { ptr: _, len: _ } = row;
    let Right { ptr, len, by: _ } = right;
    unsafe {
        alloc.deallocate(ptr as *mut u8, len * size_of::<T>(), align_of::<T>());
    }
}

/// Puts `value` at every place of a row.
pub(crate) fn fill<T: Copy>(row: &mut Row<T>, len: usize, value: T)
    requires { row.old.len ≡ len }
    ensures filled { Filled row.new.filled 0 len }
    ensures items { (k : ℕ) → slice_index_or row.new.items k value ≡ value }
    ensures places { (row.new.ptr ≡ row.old.ptr) × (row.new.len ≡ row.old.len) }
{
    for i in 0..len {
        row.put(i, value);
    }
}
