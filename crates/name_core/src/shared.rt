//! Values that are shared where they would be copied.
ghost use Rattle.std.specs.Prelude.{◌≡◌, ◌++◌, ◌∷◌, [], IfOk};

use fh_model::{Copies, NoMemory, copy_all};
use std::alloc::Global;
use std::marker::Model;
use std::ops::Deref;
use std::sync::Arc;

/// A value that never changes and is one with its copies, so that a copy costs the same whatever the value is. Contracts
/// see the value.
#[derive(Drop)]
pub(crate) struct Shared<T> {
    inner: Arc<T, Global>,
}

impl<T> Model for Shared<T> {
    ghost use Rattle.std.specs.Arc.{arc_value};

    ghost Value = { T };

    ghost coded = { T.code };

    ghost view = { λ shared. arc_value shared.inner };
}

impl<T: Drop> Shared<T> {
    pub(crate) fn new(alloc: Global, value: T) -> Result<Shared<T>, NoMemory>
        ensures { IfOk result (λ shared. shared ≡ value) }
    {
        let inner = Arc::new(alloc, value)?;
        Ok(Shared { inner })
    }
}

/// The items, and one more.
pub(crate) fn copy_and<T: Copies + Drop>(
    alloc: Global,
    items: &[T],
    item: T,
) -> Result<Vec<T>, NoMemory>
    ensures { IfOk result (λ more. more.items ≡ items.now ++ item ∷ []) }
{
    let mut more = copy_all(alloc, items)?;
    more.push(item)?;
    Ok(more)
}

impl<T> Deref for Shared<T> {
    type Target = T;

    ghost deref_gives = { λ shared value. value ≡ shared };

    fn deref(&self) -> &T {
        &self.inner
    }
}

impl<T: Drop> Copies for Shared<T> {
    /// Takes no memory. It is refused where the value has as many copies as can be counted.
    fn copy(&self) -> Result<Shared<T>, NoMemory> {
        let inner = Arc::try_clone(&self.inner)?;
        Ok(Shared { inner })
    }
}
