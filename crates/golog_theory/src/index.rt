// `Index`, where the names of a theory stand in it; `Numbers`, those of items that have names
// (`Named`).
ghost use Rattle.std.specs.Prelude.{◌≡◌, ℕ, List, None, OnOk, IfOk};
ghost use Rattle.std.specs.List.{list_any};
ghost use Rattle.golog_theory.specs.Names.{same, lists, sort_name};
ghost use Rattle.golog_theory.specs.Index.{number_at, or_new, below, Finds, IsIndexOf};

use golog_base::{NoMemory, Word};
use golog_tree::{DraftAction, DraftDevice, DraftFluent, DraftSort, DraftTheory};
use std::alloc::Global;
use std::collections::HashMap;

/// What has a name.
pub trait Named {
    ghost name: { Self → List ℕ };

    /// The bytes of the name.
    fn name(&self) -> &[u8]
        ensures { result.now ≡ name self.now };
}

impl Named for DraftSort {
    ghost name = { sort_name };

    fn name(&self) -> &[u8] {
        match self {
            DraftSort::Range { name, .. } | DraftSort::Listed { name, .. } => name.as_bytes(),
        }
    }
}

impl Named for DraftDevice {
    ghost name = { λ device. device.name };

    fn name(&self) -> &[u8] {
        self.name.as_bytes()
    }
}

impl Named for DraftFluent {
    ghost name = { λ fluent. fluent.name };

    fn name(&self) -> &[u8] {
        self.name.as_bytes()
    }
}

impl Named for DraftAction {
    ghost name = { λ action. action.name };

    fn name(&self) -> &[u8] {
        self.name.as_bytes()
    }
}

/// The numbers of items by their names, where the first of a name counts.
#[derive(Drop)]
pub struct Numbers {
    by_name: HashMap<Vec<u8>, usize>,
}

impl Numbers {
    /// No name has a number. Takes no memory.
    pub fn new(alloc: Global) -> Numbers
        ensures { (word : List ℕ) → number_at result word ≡ None }
    {
        Numbers {
            by_name: HashMap::new(alloc),
        }
    }

    /// The number of the name, where it has one.
    pub fn get(&self, name: &[u8]) -> Option<usize>
        ensures { result ≡ number_at self.now name.now }
    {
        self.by_name.get(name).copied()
    }

    /// The number of the name, where it has one that is below the limit.
    pub fn get_below(&self, name: &[u8], limit: usize) -> Option<usize>
        ensures { result ≡ below limit (number_at self.now name.now) }
    {
        match self.get(name) {
            Some(number) if number < limit => Some(number),
            _ => None,
        }
    }

    /// Gives the number to the name, unless it has one.
    pub fn add(&mut self, alloc: Global, name: &[u8], number: usize) -> Result<(), NoMemory>
        ensures { OnOk result ((word : List ℕ) → number_at self.new word
            ≡ or_new (number_at self.old word) (same word name.now) number) }
    {
        if self.get(name).is_some() {
            return Ok(());
        }
        let mut key = Vec::new(alloc);
        key.extend_from_slice(name)?;
        self.by_name.insert(key, number)?;
        Ok(())
    }
}

/// The numbers of items by their names.
pub fn numbers_of<T: Named>(alloc: Global, items: &[T]) -> Result<Numbers, NoMemory>
    ensures { IfOk result (λ numbers. Finds (λ word item. same word (T.name item)) numbers items.now) }
{
    let mut numbers = Numbers::new(alloc);
    for (number, item) in items.iter().enumerate() {
        numbers.add(alloc, item.name(), number)?;
    }
    Ok(numbers)
}

/// Gives the number to the words that have none.
fn add_words(
    numbers: &mut Numbers,
    alloc: Global,
    words: &[Word],
    number: usize,
) -> Result<(), NoMemory>
    ensures { OnOk result ((word : List ℕ) → number_at numbers.new word
        ≡ or_new (number_at numbers.old word) (list_any (same word) words.now) number) }
{
    for word in words {
        numbers.add(alloc, word.as_bytes(), number)?;
    }
    Ok(())
}

/// Gives the number of the sort to the constants that it lists.
fn add_constants(
    numbers: &mut Numbers,
    alloc: Global,
    sort: &DraftSort,
    number: usize,
) -> Result<(), NoMemory>
    ensures { OnOk result ((word : List ℕ) → number_at numbers.new word
        ≡ or_new (number_at numbers.old word) (lists word sort.now) number) }
{
    match sort {
        DraftSort::Range { .. } => Ok(()),
        DraftSort::Listed { constants, .. } => {
            add_words(numbers, alloc, constants.as_slice(), number)
        }
    }
}

/// The numbers of sorts by the constants that they list.
fn constants_of(alloc: Global, sorts: &[DraftSort]) -> Result<Numbers, NoMemory>
    ensures { IfOk result (λ numbers. Finds lists numbers sorts.now) }
{
    let mut numbers = Numbers::new(alloc);
    for (number, sort) in sorts.iter().enumerate() {
        add_constants(&mut numbers, alloc, sort, number)?;
    }
    Ok(numbers)
}

/// Where the names of a theory stand in it.
#[derive(Drop)]
pub struct Index {
    pub(crate) sorts: Numbers,
    /// The sorts that list constants.
    pub(crate) constants: Numbers,
    pub(crate) devices: Numbers,
    pub(crate) fluents: Numbers,
    pub(crate) actions: Numbers,
}

impl Index {
    /// The index of a theory.
    pub fn of(alloc: Global, theory: &DraftTheory) -> Result<Index, NoMemory>
        ensures { IfOk result (λ index. IsIndexOf index theory.now) }
    {
        Ok(Index {
            sorts: numbers_of(alloc, theory.sorts.as_slice())?,
            constants: constants_of(alloc, theory.sorts.as_slice())?,
            devices: numbers_of(alloc, theory.devices.as_slice())?,
            fluents: numbers_of(alloc, theory.fluents.as_slice())?,
            actions: numbers_of(alloc, theory.actions.as_slice())?,
        })
    }

    /// Adds a sort and the constants that it lists.
    pub fn add_sort(
        &mut self,
        alloc: Global,
        sort: &DraftSort,
        number: usize,
    ) -> Result<(), NoMemory>
        ensures sorts { OnOk result ((word : List ℕ) → number_at self.new.sorts word
            ≡ or_new (number_at self.old.sorts word) (same word (sort_name sort.now)) number) }
        ensures constants { OnOk result ((word : List ℕ) → number_at self.new.constants word
            ≡ or_new (number_at self.old.constants word) (lists word sort.now) number) }
        ensures devices { OnOk result (self.new.devices ≡ self.old.devices) }
        ensures fluents { OnOk result (self.new.fluents ≡ self.old.fluents) }
        ensures actions { OnOk result (self.new.actions ≡ self.old.actions) }
    {
        self.sorts.add(alloc, sort.name(), number)?;
        add_constants(&mut self.constants, alloc, sort, number)
    }
}
