//! The region. The functions of `block` alone touch its memory.
ghost use Rattle.std.specs.Prelude.{◌≡◌, ◌+◌, ◌-◌, ◌<◌, ◌≤◌, [], ◌∷◌, ◌++◌, length, slice_get, slice_set, take, Some, IfNone, IfOk, IfSome};
ghost use Rattle.ft_pool.specs.meaning.Region.{region};

use crate::block::{Cells, Start, fits_block};
use crate::id::{Id, Mark};
use ft_base::NoMemory;
use std::alloc::Global;
use std::marker::Model;

/// A region for values of one type. Contracts see the list of its values and the number `spare` of those that it
/// still has room for. It takes its memory when it is opened, and gives it back when it is dropped.
pub struct Pool<T> {
    start: Start<T>,
    cells: Cells<T, Global>,
    len: usize,
    room: usize,
    alloc: Global,
}

impl<T> Model for Pool<T> {
    ghost use Rattle.std.specs.Prelude.{◌≡◌, ◌-◌, ◌≤◌, length, take};
    ghost use Rattle.ft_pool.specs.meaning.Region.{Region, region, region_code};

    ghost Value = { Region T };

    ghost coded = { region_code T.code };

    ghost view = { λ pool. region (take pool.len pool.cells.items) (pool.room - pool.len) };

    ghost invariant = { λ pool. (pool.start.ptr ≡ pool.cells.at) × (pool.room ≡ pool.cells.room) × (pool.alloc ≡ pool.cells.heap)
        × (pool.len ≤ pool.room) × (pool.len ≤ length pool.cells.items) };
}

impl<T: Copy> Pool<T> {
    /// An empty region with room for `room` values, in one block of memory. It is `NoMemory` where such a block can't
    /// be had. No byte of the block is written.
    pub fn open(alloc: Global, room: usize) -> Result<Pool<T>, NoMemory>
        ensures { IfOk result (λ pool. pool ≡ region [] room) }
    {
        if !fits_block::<T>(room) {
            return Err(NoMemory);
        }
        let (start, cells) = Cells::take(&alloc, room)?;
        Ok(Pool {
            start,
            cells,
            len: 0,
            room,
            alloc,
        })
    }

    /// Adds a value at the end. There must be room to spare.
    #[tactic(auto, using(crate::proofs::PlacesLemmas::puts))]
    pub fn push(&mut self, item: T) -> Id<T>
        requires { 0 < self.old.spare }
        ensures id { result ≡ length self.old.items }
        ensures items { self.new.items ≡ self.old.items ++ item ∷ [] }
        ensures spare { self.new.spare + 1 ≡ self.old.spare }
        ensures room { length self.new.items + self.new.spare ≡ length self.old.items + self.old.spare }
    {
        let place = self.len;
        self.cells.put(self.start, place, item);
        self.len = place + 1;
        Id::new(place)
    }

    /// The value with this id.
    pub fn get(&self, id: Id<T>) -> T
        requires { id < length self.now.items }
        ensures { slice_get self.now.items id ≡ Some result }
    {
        *self.cells.get(self.start, id.number())
    }

    /// The id of the value at this place, from 0 in the order in which values were added.
    pub fn id(&self, place: usize) -> Id<T>
        requires { place < length self.now.items }
        ensures { result ≡ place }
    {
        Id::new(place)
    }

    /// The last value. None exactly where there is none.
    pub fn last(&self) -> Option<T>
        ensures some { IfSome result (λ item. slice_get self.now.items (length self.now.items - 1) ≡ Some item) }
        ensures none { IfNone result (self.now.items ≡ []) }
    {
        if self.len == 0 {
            return None;
        }
        Some(*self.cells.get(self.start, self.len - 1))
    }

    /// Takes the last value off, and gives its room back. None exactly where there is none; the region is then as it was.
    pub fn pop(&mut self) -> Option<T>
        ensures some { IfSome result (λ item. self.old.items ≡ self.new.items ++ item ∷ []) }
        ensures none { IfNone result ((self.old.items ≡ []) × (self.new.items ≡ [])) }
        ensures room { length self.new.items + self.new.spare ≡ length self.old.items + self.old.spare }
    {
        let item = self.last()?;
        self.len -= 1;
        Some(item)
    }

    /// Puts a value in the place of the one with this id. The others stay.
    #[tactic(auto, using(crate::proofs::PlacesLemmas::puts))]
    pub fn set(&mut self, id: Id<T>, item: T)
        requires { id < length self.old.items }
        ensures items { self.new.items ≡ slice_set self.old.items id item }
        ensures spare { self.new.spare ≡ self.old.spare }
        ensures room { length self.new.items + self.new.spare ≡ length self.old.items + self.old.spare }
    {
        self.cells.put(self.start, id.number(), item);
    }

    /// How far the region is filled, to come back to by `release`.
    pub fn mark(&self) -> Mark
        ensures { result ≡ length self.now.items }
    {
        Mark::new(self.len)
    }

    /// Keeps the values that were there at the mark, and gives the room of the others back.
    pub fn release(&mut self, mark: Mark)
        requires { mark ≤ length self.old.items }
        ensures items { self.new.items ≡ take mark self.old.items }
        ensures spare { self.new.spare ≡ self.old.spare + (length self.old.items - mark) }
        ensures room { length self.new.items + self.new.spare ≡ length self.old.items + self.old.spare }
    {
        self.len = mark.len();
    }

    /// How many values there are.
    pub fn len(&self) -> usize
        ensures { result ≡ length self.now.items }
    {
        self.len
    }

    /// How many more values there is room for.
    pub fn spare(&self) -> usize
        ensures { result ≡ self.now.spare }
    {
        self.room - self.len
    }
}

impl<T> Drop for Pool<T> {
    fn drop(self) {
        let Pool {
            start,
            cells,
            len: _,
            room,
            alloc,
        } = self;
        cells.give_back(start, room, &alloc);
    }
}
