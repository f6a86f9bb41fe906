// `Files`: files that are selected by name and read. They tell proofs what they hold where they
// can, whether one is selected, and always a count of faults that never falls.
ghost use Rattle.std.specs.Prelude.{◌≡◌, ◌≢◌, ◌⊎◌, ◌+◌, ◌-◌, ◌<◌, ◌≤◌, ℕ, Bool, true, List, [], Option, None, Some, length, take, drop, OnOk, OnErr, IfOk, IfSome, IsErrOf};
ghost use Rattle.golog_base.specs.declared.mem_files.HeldFile.{HeldFile};
ghost use Rattle.golog_base.specs.Faults.{Rose};
ghost use Rattle.golog_base.specs.Known.{bytes_and_then, TakesAtMost};
ghost use Rattle.golog_base.specs.Files.{Opens, HasNone, FileHas};

use crate::{Bytes, Failed, List};
use std::alloc::Global;
use thiserror::Error;

/// Files that are read by name. They count the faults of the outside, a count that never falls.
pub trait Files {
    // The files by name, where they are told.
    ghost held: { Self → Option (List HeldFile) };

    // The unread bytes of the selected file, where they are told.
    ghost rest: { Self → Option (List ℕ) };

    // Whether a file is selected, which can be read.
    ghost selected: { Self → Bool };

    // How often the outside has failed. The greatest u64 stands for itself and all above.
    ghost faults: { Self → ℕ };

    /// Selects the file of this name, which is read from its first byte on. `Failed` comes only where the
    /// count of faults rose, or where the files are told and none has the name: then the count stays.
    fn select(&mut self, name: &str) -> Result<(), Failed>
        ensures opened { OnOk result (Opens (held self.old) name.now (rest self.new)) }
        ensures selected { OnOk result (selected self.new ≡ true) }
        ensures failed { OnErr result (HasNone (held self.old) name.now
            ⊎ Rose (faults self.old) (faults self.new)) }
        ensures missing { HasNone (held self.old) name.now → faults self.new ≡ faults self.old }
        ensures untold { OnErr result (rest self.new ≡ None) }
        ensures held { held self.new ≡ held self.old }
        ensures faults { faults self.old ≤ faults self.new };

    /// Moves bytes of the selected file to the front of the buffer and answers how many: at least one where
    /// one is left and the buffer isn't empty, so 0 is the end of the file. A file is to be selected, and stays so
    /// where bytes are moved: what the caller does can't make the outside fail. `Failed` comes only where the count
    /// of faults rose.
    fn read(&mut self, buf: &mut [u8]) -> Result<usize, Failed>
        requires { selected self.old ≡ true }
        ensures selected { OnOk result (selected self.new ≡ true) }
        ensures within { IfOk result (λ n. n ≤ length buf.new) }
        ensures moved { IfOk result (λ n. rest self.old ≡ bytes_and_then (take n buf.new) (rest self.new)) }
        ensures at_end { IfOk result (λ n. n ≡ 0 → 0 < length buf.new
            → IfSome (rest self.old) (λ left. left ≡ [])) }
        ensures failed { OnErr result (Rose (faults self.old) (faults self.new)) }
        ensures untold { OnErr result (rest self.new ≡ None) }
        ensures held { held self.new ≡ held self.old }
        ensures faults { faults self.old ≤ faults self.new };
}

/// Why a file was not read.
#[derive(Debug, Drop, Error)]
pub enum ReadFault {
    /// A call failed, or no file has the name.
    #[error("the file cannot be read")]
    Failed,
    /// The file has more bytes than the limit.
    #[error("the file is too long")]
    TooLong,
    /// Memory ran out.
    #[error("memory ran out")]
    Memory,
}

/// How many bytes are read at once.
const CHUNK: usize = 1024;

/// The bytes of the file of this name, of at most `limit` bytes. `Failed` comes only where the count of
/// faults rose, or where the files are told and none has the name; `TooLong` exactly where more than `limit`
/// bytes were given, of which no more than `limit + 1` are read.
pub fn read_all<F: Files>(
    alloc: Global,
    files: &mut F,
    name: &str,
    limit: u32,
) -> Result<Bytes, ReadFault>
    ensures read { IfOk result (λ bytes. FileHas (F.held files.old) name.now (λ held. held ≡ bytes)) }
    ensures within { IfOk result (λ bytes. length bytes ≤ limit) }
    ensures failed { IsErrOf result ReadFault.Failed
        → HasNone (F.held files.old) name.now ⊎ Rose (F.faults files.old) (F.faults files.new) }
    ensures too_long { IsErrOf result ReadFault.TooLong
        → FileHas (F.held files.old) name.now (λ held. limit < length held) }
    // Where no call failed, no more than one byte above the limit is taken.
    ensures at_most { IsErrOf result ReadFault.Failed ⊎ FileHas (F.held files.old) name.now
        (λ held. TakesAtMost (limit + 1) (Some held) (F.rest files.new)) }
    ensures taken { IsErrOf result ReadFault.TooLong
        → FileHas (F.held files.old) name.now (λ held. F.rest files.new ≡ Some (drop (limit + 1) held)) }
    ensures held { F.held files.new ≡ F.held files.old }
    ensures faults { F.faults files.old ≤ F.faults files.new }
{
    match files.select(name) {
        Ok(()) => read_rest(alloc, files, limit),
        Err(_) => Err(ReadFault::Failed),
    }
}

// Reads the rest of the selected file, of at most `limit` bytes.
fn read_rest<F: Files>(alloc: Global, files: &mut F, limit: u32) -> Result<Bytes, ReadFault>
    requires { F.selected files.old ≡ true }
    ensures read { IfOk result (λ bytes. IfSome (F.rest files.old) (λ rest. rest ≡ bytes)) }
    ensures within { IfOk result (λ bytes. length bytes ≤ limit) }
    ensures failed { IsErrOf result ReadFault.Failed → Rose (F.faults files.old) (F.faults files.new) }
    ensures too_long { IsErrOf result ReadFault.TooLong
        → IfSome (F.rest files.old) (λ rest. limit < length rest) }
    ensures at_most { IsErrOf result ReadFault.Failed
        ⊎ TakesAtMost (limit + 1) (F.rest files.old) (F.rest files.new) }
    ensures taken { IsErrOf result ReadFault.TooLong
        → IfSome (F.rest files.old) (λ rest. F.rest files.new ≡ Some (drop (limit + 1) rest)) }
    ensures held { F.held files.new ≡ F.held files.old }
    ensures faults { F.faults files.old ≤ F.faults files.new }
{
    let most = limit as usize + 1;
    let mut bytes = Bytes::new(alloc);
    while bytes.len() < most {
        if read_some(files, &mut bytes, most)? == 0 {
            return Ok(bytes);
        }
    }
    Err(ReadFault::TooLong)
}

// Adds some of the rest to `bytes`, up to `most` in all; none only at the end of the file.
fn read_some<F: Files>(files: &mut F, bytes: &mut Bytes, most: usize) -> Result<usize, ReadFault>
    requires selected { F.selected files.old ≡ true }
    requires room { length bytes.old < most }
    ensures selected { OnOk result (F.selected files.new ≡ true) }
    ensures at_most { IsErrOf result ReadFault.Memory
        → TakesAtMost (most - length bytes.old) (F.rest files.old) (F.rest files.new) }
    ensures moved { OnOk result (bytes_and_then bytes.new (F.rest files.new)
        ≡ bytes_and_then bytes.old (F.rest files.old)) }
    ensures count { IfOk result (λ count. length bytes.new ≡ length bytes.old + count) }
    ensures within { OnOk result (length bytes.new ≤ most) }
    ensures at_end { IfOk result (λ count. count ≡ 0 → IfSome (F.rest files.new) (λ rest. rest ≡ [])) }
    ensures failed { IsErrOf result ReadFault.Failed → Rose (F.faults files.old) (F.faults files.new) }
    ensures not_long { IsErrOf result ReadFault.TooLong → ⊥ }
    ensures held { F.held files.new ≡ F.held files.old }
    ensures faults { F.faults files.old ≤ F.faults files.new }
{
    let mut chunk = [0u8; CHUNK];
    let room = (most - bytes.len()).min(CHUNK);
    let Ok(count) = files.read(&mut chunk[..room]) else {
        return Err(ReadFault::Failed);
    };
    match bytes.extend(&chunk[..count]) {
        Ok(()) => Ok(count),
        Err(_) => Err(ReadFault::Memory),
    }
}
