//! Lists that share their chunks with the lists that they are made of.
ghost use Rattle.std.specs.Prelude.{◌≡◌, ◌++◌, ◌∷◌, [], length, flat_map, IfOk};

use crate::shared::{Shared, copy_and};
use fh_model::{Copies, Items, NoMemory};
use std::alloc::Global;
use std::marker::Model;

/// The number of items of a full chunk.
const CHUNK_ITEMS: usize = 128;

/// A list that never changes. A list of one item more shares the full chunks with it and copies the items behind them
/// alone, so that it costs the same however long the list is, but where a chunk becomes full. Contracts see the list of
/// the items.
#[derive(Drop)]
pub(crate) struct Chunks<T> {
    full: Shared<Vec<Shared<Items<Shared<T>>>>>,
    last: Shared<Items<Shared<T>>>,
    count: usize,
}

impl<T> Model for Chunks<T> {
    ghost use Rattle.std.specs.Prelude.{◌≡◌, ◌++◌, List, length, flat_map};
    ghost use Rattle.std.specs.Coded.{coded_list};

    ghost Value = { List T };

    ghost coded = { coded_list T.code };

    ghost view = { λ list. flat_map (λ chunk. chunk) list.full.items ++ list.last };

    ghost invariant = { λ list. list.count ≡ length (flat_map (λ chunk. chunk) list.full.items ++ list.last) };
}

impl<T> Chunks<T> {
    pub(crate) fn len(&self) -> usize
        ensures { result ≡ length self.now }
    {
        self.count
    }

    /// The items of the full chunks, and those behind them.
    pub(crate) fn parts(&self) -> (&[Shared<Items<Shared<T>>>], &[Shared<T>])
        ensures { flat_map (λ chunk. chunk) result.0.now ++ result.1.now ≡ self.now }
    {
        (self.full.as_slice(), self.last.as_slice())
    }
}

impl<T: Drop> Chunks<T> {
    pub(crate) fn empty(alloc: Global) -> Result<Chunks<T>, NoMemory>
        ensures { IfOk result (λ list. list ≡ []) }
    {
        Ok(Chunks {
            full: Shared::new(alloc, Vec::new(alloc))?,
            last: Shared::new(alloc, Items::empty(alloc))?,
            count: 0,
        })
    }

    /// The list with an item more. It is refused where the list has as many items as can be counted.
    pub(crate) fn and(&self, item: Shared<T>) -> Result<Chunks<T>, NoMemory>
        ensures { IfOk result (λ list. list ≡ self.now ++ item ∷ []) }
    {
        let Some(count) = self.count.checked_add(1) else {
            return Err(NoMemory);
        };
        let alloc = *self.full.allocator();
        let items = copy_and(alloc, self.last.as_slice(), item)?;
        let is_full = CHUNK_ITEMS <= items.len();
        let chunk = Shared::new(alloc, Items::new(items))?;
        if !is_full {
            return Ok(Chunks {
                full: self.full.copy()?,
                last: chunk,
                count,
            });
        }
        let full = copy_and(alloc, &self.full, chunk)?;
        Ok(Chunks {
            full: Shared::new(alloc, full)?,
            last: Shared::new(alloc, Items::empty(alloc))?,
            count,
        })
    }

    /// The list with more items.
    pub(crate) fn with(&self, items: &[Shared<T>]) -> Result<Chunks<T>, NoMemory>
        ensures { IfOk result (λ list. list ≡ self.now ++ items.now) }
    {
        let mut list = self.copy()?;
        for item in items {
            list = list.and(item.copy()?)?;
        }
        Ok(list)
    }
}

impl<T: Drop> Copies for Chunks<T> {
    /// Takes no memory. It is refused where the list has as many copies as can be counted.
    fn copy(&self) -> Result<Chunks<T>, NoMemory> {
        Ok(Chunks {
            full: self.full.copy()?,
            last: self.last.copy()?,
            count: self.count,
        })
    }
}
