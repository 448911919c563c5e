ghost use Rattle.std.specs.Prelude.{◌≡◌, IfOk};

use crate::boxed::Boxed;
use crate::list::List;
use crate::memory::NoMemory;
use std::alloc::Global;

/// A value that can be copied where memory is had. The copy equals the original.
pub trait Duplicate: Drop {
    fn duplicate(&self, alloc: Global) -> Result<Self, NoMemory>
        ensures { IfOk result (λ copy. copy ≡ self.now) };
}

impl Duplicate for bool {
    fn duplicate(&self, _alloc: Global) -> Result<bool, NoMemory> {
        Ok(*self)
    }
}

impl Duplicate for u8 {
    fn duplicate(&self, _alloc: Global) -> Result<u8, NoMemory> {
        Ok(*self)
    }
}

impl Duplicate for u32 {
    fn duplicate(&self, _alloc: Global) -> Result<u32, NoMemory> {
        Ok(*self)
    }
}

impl Duplicate for i64 {
    fn duplicate(&self, _alloc: Global) -> Result<i64, NoMemory> {
        Ok(*self)
    }
}

impl<T: Duplicate> Duplicate for List<T> {
    fn duplicate(&self, alloc: Global) -> Result<List<T>, NoMemory> {
        let mut copies = List::new(alloc);
        for item in self.as_slice() {
            copies.push(item.duplicate(alloc)?)?;
        }
        Ok(copies)
    }
}

impl<T: Duplicate> Duplicate for Boxed<T> {
    fn duplicate(&self, alloc: Global) -> Result<Boxed<T>, NoMemory> {
        Boxed::new(alloc, self.get().duplicate(alloc)?)
    }
}
