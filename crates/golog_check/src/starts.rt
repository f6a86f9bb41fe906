// Start items, resolved: the value of all ground fluents of a fluent, or that of one.
ghost use Rattle.std.specs.Prelude.{◌≡◌, [], map, IfOk};
ghost use Rattle.golog_check.specs.Faults.{Answers};
ghost use Rattle.golog_check.specs.Checked.{IsChecked};
ghost use Rattle.golog_check.specs.Starts.{constant_of as spec_constant_of, constant as spec_constant, value_in as spec_value_in, own_sort as spec_own_sort, one_in as spec_one_in, start_in as spec_start_in};

use crate::args::{arg_in, arg_place, args_in};
use crate::checked::Checked;
use crate::fault::{BAD_START, CheckFault};
use crate::names::Names;
use golog_base::{List, NoMemory, both};
use golog_tree::{Arg, DraftArg, DraftStart, Place};
use std::alloc::Global;

/// Where a value is not known.
pub const UNKNOWN: u8 = 255;

/// A start value that was checked.
#[derive(Drop)]
pub enum Start {
    /// That of all ground fluents of a fluent.
    Each {
        fluent: u32,
        value: u8,
    },
    /// That of one ground fluent.
    One {
        fluent: u32,
        args: List<u8>,
        value: u8,
    },
}

/// The constant that an argument is.
fn constant_of(arg: Arg) -> Option<u8>
    ensures { result ≡ spec_constant_of arg }
{
    match arg {
        Arg::Const(value) => Some(value),
        Arg::Var(_) => None,
    }
}

fn constants(alloc: Global, args: &[Arg]) -> Result<List<u8>, NoMemory>
    ensures { IfOk result (λ values. values ≡ map spec_constant args.now) }
{
    let mut values = List::new(alloc);
    for arg in args {
        values.push(constant_of(*arg).unwrap_or(0))?;
    }
    Ok(values)
}

fn bad_start(at: Place) -> CheckFault
    ensures { result ≡ CheckFault.Refused BAD_START at }
{
    CheckFault::Refused {
        code: BAD_START,
        at,
    }
}

/// A start value in a place of the sort, unknown where there is none.
#[tactic(auto, unfolding(crate::specs::Starts::value_in))]
fn value_in(names: &Names<'_>, sort: u32, value: &Option<DraftArg>) -> Result<u8, CheckFault>
    ensures { Answers result (spec_value_in names.now sort value.now) }
{
    let Some(arg) = value else {
        return Ok(UNKNOWN);
    };
    match arg_in(names, &[], sort, arg) {
        Ok(found) => match constant_of(found) {
            Some(value) => Ok(value),
            None => Err(bad_start(arg_place(arg))),
        },
        Err(fault) => Err(match fault {
            CheckFault::Memory => CheckFault::Memory,
            CheckFault::Refused { .. } => bad_start(arg_place(arg)),
        }),
    }
}

fn own_sort(names: &Names<'_>, fluent: u32) -> u32
    ensures { result ≡ spec_own_sort names.now fluent }
{
    names.fluent_sort(fluent).unwrap_or(0)
}

/// The start value of one ground fluent.
#[tactic(auto, unfolding(crate::specs::Starts::one_in))]
fn one_in(
    alloc: Global,
    names: &Names<'_>,
    fluent: u32,
    args: &[DraftArg],
    value: &Option<DraftArg>,
) -> Result<Start, CheckFault>
    ensures { Answers result (spec_one_in names.now fluent args.now value.now) }
{
    let args = args_in(alloc, names, &[], names.fluent_sorts(fluent), args);
    let (args, value) = both(args, value_in(names, own_sort(names, fluent), value))?;
    let values = constants(alloc, args.as_slice());
    drop(args);
    Ok(Start::One {
        fluent,
        args: values?,
        value,
    })
}

/// A start value, of all ground fluents of a fluent or of one.
fn start_in(alloc: Global, names: &Names<'_>, start: &DraftStart) -> Result<Start, CheckFault>
    ensures { Answers result (spec_start_in names.now start.now) }
{
    match start {
        DraftStart::Each { fluent, value, .. } => {
            let value = value_in(names, own_sort(names, *fluent), value)?;
            Ok(Start::Each {
                fluent: *fluent,
                value,
            })
        }
        DraftStart::One {
            fluent,
            args,
            value,
            ..
        } => one_in(alloc, names, *fluent, args.as_slice(), value),
    }
}

/// Start values, one after another.
pub fn starts_in(
    alloc: Global,
    names: &Names<'_>,
    items: &[DraftStart],
) -> Result<Checked<Start>, NoMemory>
    ensures { IfOk result (λ checked. IsChecked checked (map (spec_start_in names.now) items.now)) }
{
    let mut checked = Checked::new(alloc);
    for item in items {
        checked.add(start_in(alloc, names, item))?;
    }
    Ok(checked)
}
