// A value twice, one to hand out and one to keep: a device that takes no memory later gives its
// texts away and still tells them. Contracts see the value.
ghost use Rattle.std.specs.Prelude.{◌≡◌, IfOk, reverse};

use crate::{Idle, Served};
use golog_base::{Bytes, List, NoMemory};
use std::alloc::Global;
use std::marker::Model;

/// A value that can be copied where there is memory for the copy.
pub trait TryClone: Drop {
    /// A copy of the value. Takes memory.
    fn try_clone(&self, alloc: Global) -> Result<Self, NoMemory>
        ensures { IfOk result (λ copy. copy ≡ self.now) };
}

impl TryClone for Bytes {
    fn try_clone(&self, alloc: Global) -> Result<Bytes, NoMemory> {
        Bytes::copy_of(alloc, self.as_slice())
    }
}

impl TryClone for Served {
    fn try_clone(&self, alloc: Global) -> Result<Served, NoMemory> {
        match self {
            Served::Nothing => Ok(Served::Nothing),
            Served::Value(text) => Ok(Served::Value(text.try_clone(alloc)?)),
        }
    }
}

impl TryClone for Idle {
    fn try_clone(&self, alloc: Global) -> Result<Idle, NoMemory> {
        match self {
            Idle::Post(text) => Ok(Idle::Post(text.try_clone(alloc)?)),
            Idle::Rest => Ok(Idle::Rest),
            Idle::Close => Ok(Idle::Close),
        }
    }
}

/// A value twice: one to hand out, and one to keep. Contracts see it as the value.
#[derive(Debug, Drop)]
pub struct Twin<T> {
    handed: T,
    kept: T,
}

impl<T> Model for Twin<T> {
    ghost use Rattle.std.specs.Prelude.{◌≡◌};

    ghost Value = { T };

    ghost coded = { T.code };

    ghost view = { λ twin. twin.kept };

    ghost invariant = { λ twin. twin.handed ≡ twin.kept };
}

impl<T> Twin<T> {
    /// The value to hand out, and the value to keep.
    pub fn split(self) -> (T, T)
        ensures handed { result.0 ≡ self }
        ensures kept { result.1 ≡ self }
    {
        let Twin { handed, kept } = self;
        (handed, kept)
    }
}

impl<T: TryClone> Twin<T> {
    /// The value and a copy of it. Takes memory.
    pub fn of(alloc: Global, value: T) -> Result<Twin<T>, NoMemory>
        ensures { IfOk result (λ twin. twin ≡ value) }
    {
        let handed = value.try_clone(alloc)?;
        Ok(Twin {
            handed,
            kept: value,
        })
    }
}

/// The values with their copies, the last in front. Takes memory.
pub fn reversed_twins<T: TryClone>(
    alloc: Global,
    mut values: List<T>,
) -> Result<Vec<Twin<T>>, NoMemory>
    ensures { IfOk result (λ twins. reverse twins.items ≡ values) }
{
    let mut twins = Vec::new(alloc);
    while let Some(value) = values.pop() {
        let twin = Twin::of(alloc, value)?;
        twins.push(twin)?;
    }
    Ok(twins)
}
