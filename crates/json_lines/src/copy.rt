//! Copies that memory may not suffice for.
ghost use Rattle.std.specs.Prelude.{◌≡◌, IfOk};

use crate::map::Entry;
use row_base::{Items, NoMemory, Text};
use std::alloc::Global;

/// What is copied where there is memory.
pub trait TryCopy: Drop {
    /// An equal value. The bytes of its texts are shared.
    fn try_copy(&self, alloc: Global) -> Result<Self, NoMemory>
        ensures { IfOk result (λ c. c ≡ self.now) };
}

impl TryCopy for Text {
    fn try_copy(&self, _alloc: Global) -> Result<Text, NoMemory> {
        self.copy()
    }
}

impl<T: TryCopy> TryCopy for Option<T> {
    fn try_copy(&self, alloc: Global) -> Result<Option<T>, NoMemory> {
        match self {
            Some(value) => Ok(Some(value.try_copy(alloc)?)),
            None => Ok(None),
        }
    }
}

impl<T: TryCopy> TryCopy for Items<T> {
    fn try_copy(&self, alloc: Global) -> Result<Items<T>, NoMemory> {
        let mut items = Vec::with_capacity(alloc, self.as_slice().len())?;
        for item in self.as_slice() {
            items.push(item.try_copy(alloc)?)?;
        }
        Ok(Items::from_vec(items))
    }
}

impl<V: TryCopy> TryCopy for Entry<V> {
    fn try_copy(&self, alloc: Global) -> Result<Entry<V>, NoMemory> {
        let name = self.name.copy()?;
        let value = self.value.try_copy(alloc)?;
        Ok(Entry { name, value })
    }
}
