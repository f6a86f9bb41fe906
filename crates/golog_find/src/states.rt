// The states of a search: their rows, and the values of all in one list.
ghost use Rattle.std.specs.Prelude.{◌≡◌, ◌<◌, [], ◌∷◌, ◌++◌, ◌↔◌, All, IsTrue, OnOk, OnErr, Some, false, length, slice_get};
ghost use Rattle.std.specs.Option.{option_map_or};
ghost use Rattle.golog_find.specs.Numbers.{is_pair};
ghost use Rattle.golog_find.specs.Rows.{IsWithin, lent, row_state, row_states, state_hash};

use crate::numbered::Numbered;
use golog_base::{Bytes, List, NoMemory};
use golog_tree::Label;
use std::alloc::Global;
use std::hash::{FoldHasher, Hasher};
use std::marker::Model;

/// A state without its values, which stand among those of all states from `start` on up to `end`.
#[derive(Clone, Copy, Drop)]
pub struct Row {
    label: Label,
    left: u64,
    from: usize,
    start: usize,
    end: usize,
}

/// A state that a search has reached, its values lent.
#[derive(Clone, Copy)]
pub struct NumberedRef<'a> {
    pub label: Label,
    pub left: u64,
    pub values: &'a [u8],
    pub from: usize,
}

/// States that a search has reached, the values of all of them in one piece of memory. Contracts see the states as
/// their list.
#[derive(Drop)]
pub struct States {
    rows: List<Row>,
    values: Bytes,
}

impl Model for States {
    ghost use Rattle.std.specs.Prelude.{List, All, length};
    ghost use Rattle.std.specs.Coded.{codes};
    ghost use Rattle.golog_find.specs.contracts.numbered.Numbered as numbered;
    ghost use Rattle.golog_find.specs.declared.numbered.Numbered.{Numbered as AnyNumbered};
    ghost use Rattle.golog_find.specs.Rows.{IsWithin, row_states};

    ghost Value = { List AnyNumbered };

    ghost coded = { Prim.hlevel (codes, numbered.the_row.coded) };

    ghost view = { λ states. row_states states.values states.rows };

    ghost invariant = { λ states. All (IsWithin (length states.values)) states.rows };
}

/// The hash of a program's number and values.
pub fn hash_of(left: u64, values: &[u8]) -> u64
    ensures { result ≡ state_hash left values.now }
{
    let mut hasher = FoldHasher::default();
    hasher.write_u64(left);
    hasher.write(values);
    hasher.finish()
}

/// The values of a row.
fn values_of<'a>(values: &'a [u8], row: &Row) -> &'a [u8]
    requires { IsWithin (length values.now) row.now }
    ensures { result.now ≡ (row_state values.now row.now).state }
{
    &values[row.start..row.end]
}

/// The state at a place.
fn state_at<'a>(rows: &[Row], values: &'a [u8], place: usize) -> NumberedRef<'a>
    requires inside { place < length rows.now }
    requires within { All (IsWithin (length values.now)) rows.now }
    ensures { slice_get (row_states values.now rows.now) place ≡ Some (lent result) }
{
    let row = &rows[place];
    NumberedRef {
        label: row.label,
        left: row.left,
        values: values_of(values, row),
        from: row.from,
    }
}

/// Whether a state of this number and these values stands at a place.
fn has_at(rows: &[Row], values: &[u8], place: usize, left: u64, wanted: &[u8]) -> bool
    requires { All (IsWithin (length values.now)) rows.now }
    ensures { result
        ≡ option_map_or (is_pair left wanted.now) (slice_get (row_states values.now rows.now) place) false }
{
    if place >= rows.len() {
        return false;
    }
    let there = state_at(rows, values, place);
    left == there.left && wanted == there.values
}

/// Adds a state's values, and its row. After `NoMemory` the rows stand for the same states as before.
fn push_row(rows: &mut List<Row>, values: &mut Bytes, reached: &Numbered) -> Result<(), NoMemory>
    requires { All (IsWithin (length values.old)) rows.old }
    ensures within { All (IsWithin (length values.new)) rows.new }
    ensures ok { OnOk result (row_states values.new rows.new
        ≡ row_states values.old rows.old ++ reached.now ∷ []) }
    ensures err { OnErr result (row_states values.new rows.new ≡ row_states values.old rows.old) }
{
    let start = values.len();
    values.extend(reached.state.values())?;
    rows.push(Row {
        label: reached.label,
        left: reached.left,
        from: reached.from,
        start,
        end: values.len(),
    })?;
    Ok(())
}

impl States {
    /// No state. Takes no memory.
    pub fn new(alloc: Global) -> States
        ensures { result ≡ [] }
    {
        States {
            rows: List::new(alloc),
            values: List::new(alloc),
        }
    }

    /// The number of states.
    pub fn len(&self) -> usize
        ensures { result ≡ length self.now }
    {
        self.rows.len()
    }

    /// Whether there is no state.
    pub fn is_empty(&self) -> bool
        ensures { IsTrue result ↔ (self.now ≡ []) }
    {
        self.rows.is_empty()
    }

    /// The state at a place.
    pub fn at(&self, place: usize) -> NumberedRef<'_>
        requires { place < length self.now }
        ensures { slice_get self.now place ≡ Some (lent result) }
    {
        state_at(self.rows.as_slice(), self.values.as_slice(), place)
    }

    /// Whether a state of this number and these values stands at a place.
    pub fn has(&self, place: usize, left: u64, values: &[u8]) -> bool
        ensures { result ≡ option_map_or (is_pair left values.now) (slice_get self.now place) false }
    {
        has_at(
            self.rows.as_slice(),
            self.values.as_slice(),
            place,
            left,
            values,
        )
    }

    /// Adds a state last. After `NoMemory` the states are as before.
    pub fn push(&mut self, reached: &Numbered) -> Result<(), NoMemory>
        ensures ok { OnOk result (self.new ≡ self.old ++ reached.now ∷ []) }
        ensures err { OnErr result (self.new ≡ self.old) }
    {
        push_row(&mut self.rows, &mut self.values, reached)?;
        Ok(())
    }
}
