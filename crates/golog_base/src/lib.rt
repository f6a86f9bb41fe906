//! Files, sinks, names and the small containers that the other crates stand on.
//!
//! - **Files and sinks.** `Files` (select a file by its name, read from it) and `Sink` (take bytes)
//!   are the only ways in and out of the interpreter. Each tells proofs what it holds or took where
//!   it can (`held`, `rest`, `taken`), and always a count of faults that never falls, and files
//!   whether one is selected (`selected`), without which none may be read; the layers above may
//!   answer a fault only where the count rose. `MemFiles` and `MemSink` tell everything and fail at
//!   the calls whose numbers they were given; `FileFiles` and `OutSink` stand for the real files
//!   and standard output, tell nothing of content, and are trusted beyond their count. `read_all`
//!   and `write_all` are what the layers above call.
//! - **Containers.** `List` (and `Bytes`, a list of bytes), `Text` and `Boxed` are `Vec`, `String`
//!   and `Arc` as contracts see them: a list, the bytes of a text, the value itself. The owners of
//!   a `Boxed` share its value (`share`), which none of them changes. So a record of an agent is
//!   read in a contract as plain data. A type may hold itself through `List` and `Boxed`
//!   (`specs/formers` shows that to the prover). `put_reserved` puts bytes into a `Vec` that has
//!   room for them.
//! - **Names and numbers.** `Word` is a name of 1 to 31 bytes, copied like a number, and `is_name`
//!   the test for names of any length. What a name is stands once, in `specs/Names`. `add_decimal`
//!   adds the digits of a number to a text; `is_number` and `is_natural` are the tests for numbers
//!   with and without a sign, `value` and `amount_within` what their digits spell, where it is
//!   small enough (`specs/Numbers`).
//! - **Want of memory** is `NoMemory`; whatever takes memory answers it in place of failing the
//!   process.
//! - **Two results.** `both` gives the values of two calls that are both made before either is
//!   looked at, or the first error.
#![tactic(auto)]

mod boxed;
mod decimals;
mod failed;
mod failures;
mod file_files;
mod files;
mod list;
mod mem_files;
mod mem_sink;
mod memory;
mod numbers;
mod out_sink;
mod reserved;
mod results;
mod sink;
mod text;
mod word;

pub use boxed::Boxed;
pub use decimals::add_decimal;
pub use failed::Failed;
pub use file_files::FileFiles;
pub use files::{Files, ReadFault, read_all};
pub use list::{Bytes, List};
pub use mem_files::{HeldFile, MemFiles};
pub use mem_sink::MemSink;
pub use memory::NoMemory;
pub use numbers::{amount_within, has_sign, is_natural, is_number, value};
pub use out_sink::OutSink;
pub use reserved::put_reserved;
pub use results::both;
pub use sink::{Sink, write_all};
pub use text::Text;
pub use word::{Word, is_name};
