// `FileFiles`, real files: they tell nothing of content, and are trusted beyond their count of
// faults.
ghost use Rattle.std.specs.Prelude.{◌≡◌, ◌≤◌, None, is_some};
ghost use Rattle.golog_base.specs.Faults.{Rose};

use crate::{Failed, Files};
use std::fs::File;
use std::io::Read;
use std::rt;

/// The files of a runtime. They tell nothing of what they hold, and count as a fault each call that the
/// system fails.
#[derive(Drop)]
pub struct FileFiles<R: rt::Files + Drop> {
    rt: R,
    selected: Option<R::File>,
    faults: u64,
}

impl<R: rt::Files + Drop> FileFiles<R> {
    /// The files that this runtime reads, none being selected. Takes no memory.
    pub fn new(rt: R) -> Self
        ensures held { ⟦<FileFiles<R> as Files>⟧.held result ≡ None }
        ensures rest { ⟦<FileFiles<R> as Files>⟧.rest result ≡ None }
        ensures faults { ⟦<FileFiles<R> as Files>⟧.faults result ≡ 0 }
    {
        FileFiles {
            rt,
            selected: None,
            faults: 0,
        }
    }

    // A call that fails. No file is selected after it.
    fn fail(&mut self) -> Failed
        ensures rose { Rose self.old.faults self.new.faults }
        ensures grows { self.old.faults ≤ self.new.faults }
    {
        self.selected = None;
        self.faults = self.faults.saturating_add(1);
        Failed
    }
}

impl<R: rt::Files + Drop> Files for FileFiles<R> {
    ghost held = { λ _. None };

    ghost rest = { λ _. None };

    ghost selected = { λ files. is_some files.selected };

    ghost faults = { λ files. files.faults };

    fn select(&mut self, name: &str) -> Result<(), Failed> {
        match File::open(&self.rt, name) {
            Ok(file) => {
                self.selected = Some(file);
                Ok(())
            }
            Err(_) => Err(self.fail()),
        }
    }

    fn read(&mut self, buf: &mut [u8]) -> Result<usize, Failed> {
        let Some(file) = &mut self.selected else {
            return Err(self.fail());
        };
        match file.read(buf) {
            Ok(count) => Ok(count),
            Err(_) => Err(self.fail()),
        }
    }
}
