// A list of what items give, with their least refusal.
ghost use Rattle.std.specs.Prelude.{[], None, OnOk, IfOk};
ghost use Rattle.golog_check.specs.Checked.{AddsTo, IsChecked, Lowers};

use crate::fault::CheckFault;
use golog_base::{List, NoMemory};
use golog_rows::{Refusal, lesser};
use std::alloc::Global;

/// What the items so far give, but for those that are refused, and the least refusal.
#[derive(Drop)]
pub struct Checked<T> {
    pub items: List<T>,
    pub least: Option<Refusal>,
}

fn with_fault(least: Option<Refusal>, fault: CheckFault) -> Result<Option<Refusal>, NoMemory>
    ensures { IfOk result (λ new. Lowers fault least new) }
{
    match fault {
        CheckFault::Refused { code, at } => Ok(lesser(least, Refusal { code, at })),
        CheckFault::Memory => Err(NoMemory),
    }
}

impl<T> Checked<T> {
    /// Where no item was checked yet.
    pub fn new(alloc: Global) -> Checked<T>
        ensures { IsChecked result [] }
    {
        Checked {
            items: List::new(alloc),
            least: None,
        }
    }
}

impl<T: Drop> Checked<T> {
    /// Adds what was answered for one more item.
    pub fn add(&mut self, answer: Result<T, CheckFault>) -> Result<(), NoMemory>
        ensures { OnOk result (AddsTo answer self.old self.new) }
    {
        match answer {
            Ok(item) => self.items.push(item)?,
            Err(fault) => self.least = with_fault(self.least, fault)?,
        }
        Ok(())
    }
}
