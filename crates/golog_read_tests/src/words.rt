// Tests of names, alone and in records and in types that hold themselves, of lists, texts and
// boxes, and of `add_decimal`.
use crate::asserting::same;
use golog_base::{Boxed, Bytes, List, NoMemory, Text, Word, add_decimal, both, is_name};
use std::alloc::Global;

/// What is declared by a name, as the records of higher crates are.
#[derive(Debug, Drop, PartialEq, Eq)]
enum Declared {
    Range { name: Word, low: i32 },
    Listed { name: Word, constants: List<Word> },
}

/// A record that is copied with the name in it.
#[derive(Clone, Copy, Debug, PartialEq, Eq)]
struct Place {
    name: Word,
    at: u32,
}

/// A type that holds itself, with names at its leaves.
#[derive(Debug, Drop)]
enum Named {
    Leaf { name: Word },
    Branch { parts: List<Named>, name: Word },
    Other(Boxed<Named>),
}

// Each text with whether it is a name, and whether it is a word too.
#[test]
fn names(rt: HostRuntime) {
    let texts: [(&[u8], bool, bool); 7] = [
        (b"_a-9Z", true, true),
        (b"", false, false),
        (b"9a", false, false),
        (b"-a", false, false),
        (b"a b", false, false),
        (&[b'a'; 32], true, false),
        (&[b'a'; 31], true, true),
    ];
    for (text, is_so, is_word) in texts {
        same(&rt, text, (is_name(text), has_word(text)), (is_so, is_word));
    }
}

/// Whether there is a word of these bytes.
fn has_word(bytes: &[u8]) -> bool {
    match Word::of(bytes) {
        Some(word) => word.as_bytes() == bytes,
        None => false,
    }
}

fn listed(alloc: Global, name: Word, constant: Word) -> Result<Declared, NoMemory> {
    let constants = List::copy_of(alloc, &[name, constant])?;
    Ok(Declared::Listed { name, constants })
}

fn branch(alloc: Global, name: Word, leaf: Word) -> Result<Named, NoMemory> {
    let mut parts = List::new(alloc);
    parts.push(Named::Leaf { name: leaf })?;
    let branch = Boxed::new(alloc, Named::Branch { parts, name })?;
    Ok(Named::Other(branch))
}

/// Whether a word is itself and not another one, also in a record that is copied.
fn are_copied(one: Word, other: Word) -> [bool; 4] {
    let place = Place { name: one, at: 3 };
    let copied = place;
    let is_named = copied.name.as_bytes() == one.as_bytes();
    [one == one, one != other, copied == place, is_named]
}

/// Whether one declaration is not another, and a type that holds itself is made.
fn are_made(alloc: Global, one: Word, other: Word) -> Result<[bool; 2], NoMemory> {
    let listed = listed(alloc, one, other)?;
    let is_other = listed != Declared::Range { name: one, low: 0 };
    drop(listed);
    let branch = branch(alloc, one, other)?;
    let is_made = matches!(&branch, Named::Other(_));
    drop(branch);
    Ok([is_other, is_made])
}

#[test]
fn words_stand_in_records(rt: HostRuntime) -> Result<(), NoMemory> {
    let (Some(one), Some(other)) = (Word::of(b"a"), Word::of(b"ab")) else {
        return Err(NoMemory);
    };
    same(&rt, "copied", are_copied(one, other), [true; 4]);
    same(&rt, "made", are_made(rt.alloc(), one, other)?, [true; 2]);
    Ok(())
}

/// A list that grows by one item and by a slice, and shrinks by one.
fn grown(alloc: Global) -> Result<List<u32>, NoMemory> {
    let mut list = List::copy_of(alloc, &[1, 2])?;
    list.push(3)?;
    list.extend(&[4, 5])?;
    Ok(list)
}

/// Whether it has its items, the last is taken away, the last but one is found and none behind it, and its vector
/// makes the list again.
fn is_grown(mut list: List<u32>, wanted: &List<u32>) -> [bool; 5] {
    let whole = list.as_slice() == [1, 2, 3, 4, 5].as_slice();
    let last = list.pop() == Some(5);
    let found = list.get(3).copied() == Some(4);
    let none = list.get(4).is_none();
    let again = List::from_vec(list.into_vec());
    let is_again = again == *wanted;
    drop(again);
    [whole, last, found, none, is_again]
}

fn lists_told(alloc: Global) -> Result<[bool; 5], NoMemory> {
    let (list, wanted) = both(grown(alloc), List::copy_of(alloc, &[1, 2, 3, 4]))?;
    let told = is_grown(list, &wanted);
    drop(wanted);
    Ok(told)
}

#[test]
fn lists(rt: HostRuntime) -> Result<(), NoMemory> {
    same(&rt, "lists", lists_told(rt.alloc())?, [true; 5]);
    Ok(())
}

/// Takes a type that threads share and take.
fn may_be_shared<T: Send + Sync>() {}

fn has_text(alloc: Global, text: &str) -> Result<bool, NoMemory> {
    let made = Text::of(alloc, text)?;
    Ok(made.as_str() == text)
}

/// Whether a number's digits stand behind what stood there.
fn has_digits(alloc: Global, number: usize, text: &[u8]) -> Result<bool, NoMemory> {
    let mut bytes = Bytes::copy_of(alloc, b"n ")?;
    add_decimal(&mut bytes, number)?;
    Ok(bytes.as_slice() == text)
}

fn has_value(alloc: Global, value: u32) -> Result<bool, NoMemory> {
    let made = Boxed::new(alloc, value)?;
    let shared = made.share()?;
    Ok(*shared.get() == value)
}

#[test]
fn texts_and_boxes(rt: HostRuntime) -> Result<(), NoMemory> {
    let told = [
        has_text(rt.alloc(), "tëxt")?,
        has_value(rt.alloc(), 7)?,
        has_digits(rt.alloc(), 0, b"n 0")?,
        has_digits(rt.alloc(), 1_048_576, b"n 1048576")?,
    ];
    same(&rt, "told", told, [true; 4]);
    Ok(())
}

// Threads share texts, lists, words and boxes.
fn cross_threads() {
    may_be_shared::<Text>();
    may_be_shared::<List<u32>>();
    may_be_shared::<Word>();
    may_be_shared::<Boxed<u32>>();
}
