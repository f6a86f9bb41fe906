// `Lines`, the lines of the bytes, one after another.
ghost use Rattle.std.specs.Prelude.{◌≡◌, ◌==◌, [], ◌∷◌, MatchOption, drop, position};
ghost use Rattle.golog_semantics.specs.Verdicts.{lines_in};

use std::marker::Model;

/// The lines of a text that are to come. Contracts see it as their list.
#[derive(Drop)]
pub(crate) struct Lines<'a> {
    rest: &'a [u8],
    is_over: bool,
}

impl<'a> Model for Lines<'a> {
    ghost use Rattle.std.specs.Prelude.{ℕ, List, [], if◌then◌else◌};
    ghost use Rattle.golog_semantics.specs.Verdicts.{lines_in};

    ghost Value = { List (List ℕ) };

    ghost view = { λ lines. if lines.is_over then [] else lines_in lines.rest.now };
}

/// The place of the first line feed.
fn line_end(text: &[u8]) -> Option<usize>
    ensures { result ≡ position (λ byte. byte == 10) text.now }
{
    text.iter().position(|byte| *byte == b'\n')
}

impl<'a> Lines<'a> {
    /// All lines of a text.
    pub(crate) fn of(bytes: &'a [u8]) -> Lines<'a>
        ensures { result ≡ lines_in bytes.now }
    {
        Lines {
            rest: bytes,
            is_over: false,
        }
    }

    /// Passes over so many lines, or over all where fewer are left.
    pub(crate) fn pass(&mut self, count: usize)
        ensures { self.new ≡ drop count self.old }
    {
        for _ in 0..count {
            self.next();
        }
    }

    /// The next line: `None` exactly where none is left.
    pub(crate) fn next(&mut self) -> Option<&'a [u8]>
        ensures { MatchOption result ((self.old ≡ []) × (self.new ≡ []))
            (λ line. self.old ≡ line.now ∷ self.new) }
    {
        if self.is_over {
            return None;
        }
        match line_end(self.rest) {
            Some(end) => {
                let line = &self.rest[..end];
                self.rest = &self.rest[end + 1..];
                Some(line)
            }
            None => {
                self.is_over = true;
                Some(self.rest)
            }
        }
    }
}
