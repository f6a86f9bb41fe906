// `MemFiles`, files in memory: they tell all, and fail at the calls whose numbers they were given.
ghost use Rattle.std.specs.Prelude.{◌≡◌, ◌≤◌, ◌<◌, ◌+◌, ◌^◌, ◌⊎◌, ◌↔◌, ℕ, [], length, take, min, true, Some, None, IfSome, IfNone, OnOk, OnErr, IfOk, IsErr, IsSome, IsTrue};
ghost use Rattle.golog_base.specs.Failures.{uncalled, after_call, fails_next};
ghost use Rattle.golog_base.specs.Files.{bytes_of, HasNone, Opens};
ghost use Rattle.golog_base.specs.Known.{bytes_and_then};
ghost use Rattle.golog_base.specs.MemFiles.{bytes_at, bytes_left, held_of, rest_of, selects, faults_of, failures_of};
ghost use Rattle.golog_base.specs.Faults.{Rose};

use crate::failures::Failures;
use crate::{Bytes, Failed, Files, List, Text};

/// One file: its name and all its bytes.
#[derive(Debug, Drop)]
pub struct HeldFile {
    pub name: Text,
    pub bytes: Bytes,
}

// A place in a file: the file's number, and how many of its bytes were read.
#[derive(Clone, Copy, Debug)]
struct Reading {
    file: usize,
    at: usize,
}

/// Files that are held in memory, some of whose calls fail. They tell all that they hold.
#[derive(Debug, Drop)]
pub struct MemFiles {
    held: List<HeldFile>,
    failures: Failures,
    reading: Option<Reading>,
    faults: u64,
}

impl MemFiles {
    /// Of two files of one name the first counts. The calls of the numbers in `fails` fail, `select` and
    /// `read` being counted together from 0. Takes no memory.
    pub fn new(held: List<HeldFile>, fails: List<u32>) -> MemFiles
        ensures held { held_of result ≡ held }
        ensures rest { rest_of result ≡ None }
        ensures faults { faults_of result ≡ 0 }
        ensures failures { failures_of result ≡ uncalled fails }
    {
        MemFiles {
            held,
            failures: Failures::new(fails),
            reading: None,
            faults: 0,
        }
    }

    // A call that fails.
    fn fail(&mut self) -> Failed
        ensures held { self.new.held ≡ self.old.held }
        ensures failures { self.new.failures ≡ self.old.failures }
        ensures reading { self.new.reading ≡ None }
        ensures rose { Rose self.old.faults self.new.faults }
        ensures grows { self.old.faults ≤ self.new.faults }
    {
        self.reading = None;
        self.faults = self.faults.saturating_add(1);
        Failed
    }
}

// The number of the first file of this name.
fn position_of(held: &[HeldFile], name: &str) -> Option<usize>
    ensures found { IfSome result (λ n. bytes_of held.now name.now ≡ Some (bytes_at held.now n)) }
    ensures none { IfNone result (bytes_of held.now name.now ≡ None) }
{
    let mut rest = held;
    let mut passed = 0;
    while let [first, after @ ..] = rest {
        if first.name.as_str() == name {
            return Some(passed);
        }
        passed += 1;
        rest = after;
    }
    None
}

impl Files for MemFiles {
    ghost held = { λ files. Some (held_of files) };

    ghost rest = { rest_of };

    ghost selected = { selects };

    ghost faults = { faults_of };

    fn select(&mut self, name: &str) -> Result<(), Failed>
        ensures opened { OnOk result (Opens (Some (held_of self.old)) name.now (rest_of self.new)) }
        ensures selected { OnOk result (selects self.new ≡ true) }
        ensures failed { OnErr result (HasNone (Some (held_of self.old)) name.now
            ⊎ Rose (faults_of self.old) (faults_of self.new)) }
        ensures missing { HasNone (Some (held_of self.old)) name.now
            → faults_of self.new ≡ faults_of self.old }
        ensures untold { OnErr result (rest_of self.new ≡ None) }
        ensures held { held_of self.new ≡ held_of self.old }
        ensures faults { faults_of self.old ≤ faults_of self.new }

        // It fails exactly where no file has the name or this call is to fail, and else it is no fault.
        ensures fails { IsErr result ↔ (HasNone (Some (held_of self.old)) name.now
            ⊎ IsTrue (fails_next (failures_of self.old))) }
        ensures no_fault { OnOk result (faults_of self.new ≡ faults_of self.old) }
        ensures counted { failures_of self.new ≡ after_call (failures_of self.old) }
    {
        let fails = self.failures.fails_now();
        match position_of(self.held.as_slice(), name) {
            Some(file) if !fails => {
                self.reading = Some(Reading { file, at: 0 });
                Ok(())
            }
            Some(_) => Err(self.fail()),
            None => {
                self.reading = None;
                Err(Failed)
            }
        }
    }

    fn read(&mut self, buf: &mut [u8]) -> Result<usize, Failed>
        requires { selects self.old ≡ true }
        ensures selected { OnOk result (selects self.new ≡ true) }
        ensures within { IfOk result (λ n. n ≤ length buf.new) }
        ensures moved { IfOk result (λ n. rest_of self.old
            ≡ bytes_and_then (take n buf.new) (rest_of self.new)) }
        ensures at_end { IfOk result (λ n. n ≡ 0 → 0 < length buf.new
            → IfSome (rest_of self.old) (λ left. left ≡ [])) }
        ensures failed { OnErr result (Rose (faults_of self.old) (faults_of self.new)) }
        ensures untold { OnErr result (rest_of self.new ≡ None) }
        ensures held { held_of self.new ≡ held_of self.old }
        ensures faults { faults_of self.old ≤ faults_of self.new }

        // It fails exactly where this call is to fail, and else it moves all that fits.
        ensures fails { IsErr result ↔ IsTrue (fails_next (failures_of self.old)) }
        ensures fits { IfOk result (λ n. IfSome (rest_of self.old)
            (λ left. n ≡ min (length left) (length buf.new))) }
        ensures no_fault { OnOk result (faults_of self.new ≡ faults_of self.old) }
        ensures counted { failures_of self.new ≡ after_call (failures_of self.old) }
    {
        let fails = self.failures.fails_now();
        let Some(reading) = self.reading else {
            return Err(self.fail());
        };
        if fails {
            return Err(self.fail());
        }
        let left = unread(self.held.as_slice(), reading);
        let count = left.len().min(buf.len());
        buf[..count].copy_from_slice(&left[..count]);
        self.reading = Some(Reading {
            file: reading.file,
            at: reading.at + count,
        });
        Ok(count)
    }
}

// The bytes from this place on.
fn unread(held: &[HeldFile], reading: Reading) -> &[u8]
    ensures left { bytes_left held.now (Some reading) ≡ Some result.now }
    ensures fits { reading.at + length result.now < 2 ^ 64 }
{
    match held.get(reading.file) {
        Some(file) => {
            let bytes = file.bytes.as_slice();
            &bytes[reading.at.min(bytes.len())..]
        }
        None => &[],
    }
}
