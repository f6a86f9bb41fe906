// Case files, from their bytes to cases.
use crate::blocks::blocks_of;
use crate::cases::{Case, Fault, cases_of};
use golog_base::{Files, List, ReadFault, read_all};
use std::alloc::Global;

/// The most bytes of a case file.
const LIMIT: u32 = 1 << 24;

/// The cases of the file of this name.
pub fn cases_in<F: Files>(alloc: Global, files: &mut F, name: &str) -> Result<List<Case>, Fault> {
    match read_all(alloc, files, name, LIMIT) {
        Ok(bytes) => {
            let cases = cases_from(alloc, bytes.as_slice());
            drop(bytes);
            cases
        }
        Err(ReadFault::Memory) => Err(Fault::Memory),
        Err(_) => Err(Fault::Unread),
    }
}

fn cases_from(alloc: Global, bytes: &[u8]) -> Result<List<Case>, Fault> {
    match std::str::from_utf8(bytes) {
        Ok(text) => cases_of(alloc, blocks_of(alloc, text)?),
        Err(_) => Err(Fault::Unread),
    }
}
