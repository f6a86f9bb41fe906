// The cases that blocks say.
use crate::blocks::Block;
use golog_base::{Bytes, HeldFile, List, NoMemory, Text, both};
use std::alloc::Global;
use std::mem;

/// Why a file holds no cases: memory ran out, the file can't be read, or the line of this number can't stand where
/// it does.
#[derive(Clone, Copy)]
pub enum Fault {
    Memory,
    Unread,
    Line(usize),
}

impl From<NoMemory> for Fault {
    fn from(_error: NoMemory) -> Fault {
        Fault::Memory
    }
}

/// The status and the text that are wanted of a call.
#[derive(Drop)]
pub struct Wanted {
    pub status: Option<u8>,
    pub text: Bytes,
}

/// A case: its name, the words and the files of a call, and what is wanted of it.
#[derive(Drop)]
pub struct Case {
    pub name: Text,
    pub words: Vec<String>,
    pub files: List<HeldFile>,
    pub wanted: Wanted,
}

impl Case {
    /// A case of this name, of which nothing is wanted yet.
    fn new(alloc: Global, name: &str) -> Result<Case, NoMemory> {
        Ok(Case {
            name: Text::of(alloc, name)?,
            words: Vec::new(alloc),
            files: List::new(alloc),
            wanted: Wanted {
                status: None,
                text: Bytes::new(alloc),
            },
        })
    }

    /// Puts these words, if there are any, behind its own and behind its name.
    pub fn add_more(&mut self, alloc: Global, more: &str) -> Result<(), NoMemory> {
        if more.is_empty() {
            return Ok(());
        }
        self.add_words(alloc, more)?;
        let told = format!(in alloc; "{}, {more}", self.name.as_str())?;
        let name = Text::of(alloc, told.as_str());
        drop(told);
        let name = name?;
        drop(mem::replace(&mut self.name, name));
        Ok(())
    }

    /// Whether a block whose first line begins with this word may stand in a case, which has what it says then.
    fn add(
        &mut self,
        alloc: Global,
        kind: &str,
        rest: &str,
        bytes: Bytes,
    ) -> Result<bool, NoMemory> {
        match kind {
            "words" => self.add_words(alloc, rest),
            "word" => self.add_word(bytes),
            "file" => self.add_file(alloc, rest, bytes),
            "wants" => Ok(self.want(rest, bytes)),
            _ => Ok(false),
        }
    }

    fn add_words(&mut self, alloc: Global, words: &str) -> Result<bool, NoMemory> {
        for word in words.split(' ') {
            self.words.push(String::from_str(alloc, word)?)?;
        }
        Ok(true)
    }

    fn add_word(&mut self, bytes: Bytes) -> Result<bool, NoMemory> {
        match String::from_utf8(bytes.into_vec()) {
            Ok(word) => {
                self.words.push(word)?;
                Ok(true)
            }
            Err(_) => Ok(false),
        }
    }

    fn add_file(&mut self, alloc: Global, name: &str, bytes: Bytes) -> Result<bool, NoMemory> {
        let name = Text::of(alloc, name)?;
        self.files.push(HeldFile { name, bytes })?;
        Ok(true)
    }

    /// Whether digits say a status, which is wanted then with this text.
    fn want(&mut self, digits: &str, text: Bytes) -> bool {
        self.wanted.status = digits.parse::<u8>().ok();
        drop(mem::replace(&mut self.wanted.text, text));
        self.wanted.status.is_some()
    }
}

/// The cases of these blocks.
pub fn cases_of(alloc: Global, blocks: List<Block>) -> Result<List<Case>, Fault> {
    let mut cases = List::new(alloc);
    for block in blocks.into_vec() {
        let number = block.number;
        if !take_block(alloc, &mut cases, block)? {
            return Err(Fault::Line(number));
        }
    }
    Ok(cases)
}

/// Whether a block may stand behind these cases.
fn take_block(alloc: Global, cases: &mut List<Case>, block: Block) -> Result<bool, NoMemory> {
    let Block { head, bytes, .. } = block;
    let taken = take_parts(alloc, cases, head.as_str(), bytes);
    drop(head);
    taken
}

fn take_parts(
    alloc: Global,
    cases: &mut List<Case>,
    head: &str,
    bytes: Bytes,
) -> Result<bool, NoMemory> {
    let (kind, rest) = head.split_once(' ').unwrap_or((head, ""));
    match kind {
        "case" => {
            cases.push(Case::new(alloc, rest)?)?;
            Ok(true)
        }
        "part" => Ok(true),
        _ => add_to_last(alloc, cases, kind, rest, bytes),
    }
}

fn add_to_last(
    alloc: Global,
    cases: &mut List<Case>,
    kind: &str,
    rest: &str,
    bytes: Bytes,
) -> Result<bool, NoMemory> {
    let Some(mut case) = cases.pop() else {
        return Ok(false);
    };
    let added = case.add(alloc, kind, rest, bytes);
    let ((), is_added) = both(cases.push(case), added)?;
    Ok(is_added)
}
