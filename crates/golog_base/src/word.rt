// `Word`, a name of 1 to 31 bytes that is copied like a number, and the test for names of any
// length.
ghost use Rattle.std.specs.Prelude.{◌≡◌};
ghost use Rattle.std.specs.List.{list_all};
ghost use Rattle.std.specs.Option.{SomeIff};
ghost use Rattle.golog_base.specs.Names.{IsWord, begins_name as spec_begins, continues_name as spec_continues, is_name as spec_is_name};

use std::marker::Model;

/// The most bytes of a `Word`.
const LONGEST: usize = 31;

/// A name of 1 to 31 bytes, as an agent gives it to what it declares. Contracts see it as the list of its
/// bytes.
#[derive(Clone, Copy, Debug)]
pub struct Word {
    // The name, and zeros behind it.
    bytes: [u8; LONGEST],
    count: u8,
}

impl Model for Word {
    ghost use Rattle.std.specs.Prelude.{ℕ, List, ◌-◌, ◌++◌, length, take, replicate};
    ghost use Rattle.golog_base.specs.Names.{HoldsWord};
    ghost use Rattle.golog_base.specs.GivenBack.{bytes-back, length-back};

    ghost Value = { List ℕ };

    ghost view = { λ word. take word.count word.bytes };

    ghost invariant = { λ word. HoldsWord word.bytes word.count };

    ghost inverse = { λ name. record {
      bytes = name ++ replicate (31 - length name) 0;
      count = length name;
    } };

    ghost inverse_ok = { λ word holds i. record {
      bytes = bytes-back word.bytes word.count holds i;
      count = length-back word.bytes word.count holds i;
    } };
}

impl Word {
    /// The word of these bytes: `None` exactly where they are no name of 1 to 31 bytes.
    pub fn of(bytes: &[u8]) -> Option<Word>
        ensures { SomeIff result (IsWord bytes.now) bytes.now }
    {
        if bytes.len() > LONGEST || !is_name(bytes) {
            return None;
        }
        let mut padded = [0; LONGEST];
        padded[..bytes.len()].copy_from_slice(bytes);
        Some(Word {
            bytes: padded,
            count: bytes.len() as u8,
        })
    }

    /// The bytes of the name.
    pub fn as_bytes(&self) -> &[u8]
        ensures same { result.now ≡ self.now }
        ensures word { IsWord self.now }
    {
        &self.bytes[..self.count as usize]
    }
}

impl PartialEq for Word {
    ghost use Rattle.std.specs.Prelude.{◌==◌};
    ghost use Rattle.std.proofs.Common.{rules};
    ghost use Rattle.std.specs.Cmp.Rules.{comparing};
    ghost use Rattle.std.specs.Cmp.Lexicographic.{pointwise};

    ghost eq = { pointwise ◌==◌ };

    ghost laws = { Prim.search (comparing, rules) };

    fn eq(&self, other: &Word) -> bool {
        self.as_bytes() == other.as_bytes()
    }
}

impl Eq for Word {
    ghost use Rattle.std.proofs.Common.{rules};
    ghost use Rattle.std.specs.Cmp.Rules.{comparing};

    ghost laws = { Prim.search (comparing, rules) };
}

/// Whether the bytes are a name: a letter or `_`, and then letters, digits, `_` and `-`, any number of them.
pub fn is_name(bytes: &[u8]) -> bool
    ensures { result ≡ spec_is_name bytes.now }
{
    match bytes.split_first() {
        None => false,
        Some((first, others)) => begins_name(*first) && continue_name(others),
    }
}

fn continue_name(bytes: &[u8]) -> bool
    ensures { result ≡ list_all spec_continues bytes.now }
{
    bytes.iter().all(|byte| continues_name(*byte))
}

fn begins_name(byte: u8) -> bool
    ensures { result ≡ spec_begins byte }
{
    byte.is_ascii_alphabetic() || byte == b'_'
}

fn continues_name(byte: u8) -> bool
    ensures { result ≡ spec_continues byte }
{
    begins_name(byte) || byte.is_ascii_digit() || byte == b'-'
}
