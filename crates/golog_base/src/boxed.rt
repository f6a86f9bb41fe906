// `Boxed`, a value in memory of its own, as the parts of a recursive type stand: an `Arc`, which
// contracts see as the value. Its owners share it, and none of them changes it.
ghost use Rattle.std.specs.Prelude.{◌≡◌, IfOk};

use crate::NoMemory;
use std::alloc::Global;
use std::marker::Model;
use std::sync::Arc;

/// A value in memory of its own, as the parts of a recursive type stand. Its owners share the value,
/// which none of them changes. Contracts see it as the value.
#[derive(Debug, Drop)]
pub struct Boxed<T> {
    inner: Arc<T>,
}

impl<T> Model for Boxed<T> {
    ghost Value = { T };

    ghost coded = { T.code };

    ghost view = { λ b. b.inner.value };
}

impl<T> Boxed<T> {
    /// The value, lent.
    pub fn get(&self) -> &T
        ensures { result.now ≡ self.now }
    {
        &self.inner
    }

    /// One more owner of the same value. Takes no memory, and fails where an owner more can't be counted.
    pub fn share(&self) -> Result<Boxed<T>, NoMemory>
        ensures { IfOk result (λ b. b ≡ self.now) }
    {
        Ok(Boxed {
            inner: Arc::try_clone(&self.inner)?,
        })
    }
}

impl<T: Drop> Boxed<T> {
    /// Puts the value into memory of its own. After `NoMemory` the value is dropped.
    pub fn new(alloc: Global, value: T) -> Result<Boxed<T>, NoMemory>
        ensures { IfOk result (λ b. b ≡ value) }
    {
        Ok(Boxed {
            inner: Arc::new(alloc, value)?,
        })
    }
}

impl<T: PartialEq> PartialEq for Boxed<T> {
    ghost eq = { λ a b. T.eq a b };

    ghost laws = { T.laws };

    fn eq(&self, other: &Boxed<T>) -> bool {
        *self.get() == *other.get()
    }
}

impl<T: Eq> Eq for Boxed<T> {
    ghost laws = { T.Eq.laws };
}
