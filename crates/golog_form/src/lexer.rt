// The tokens of a text, one after another: `(`, `)`, an atom, a byte of no class.
ghost use Rattle.std.specs.Prelude.{◌≡◌, ◌≤◌, ◌<◌, ◌+◌, ◌^◌, ◌++◌, length, take, drop, true, false, IfOk, MatchOption, [], ◌∷◌};
ghost use Rattle.golog_form.specs.Tokens.{tokens_from, run, IsNext, starts_token};

use crate::class::{ByteClass, class_of};
use crate::token::Token;
use golog_base::{Bytes, NoMemory};
use std::alloc::Global;

/// The first place from `at` on where a token begins, or the end.
#[tactic(auto, using(crate::proofs::Lexing::gaps))]
fn skip_gap(bytes: &[u8], at: u32) -> u32
    requires within { at ≤ length bytes.now }
    requires small { length bytes.now < 2 ^ 32 }
    ensures after { at ≤ result }
    ensures in_bytes { result ≤ length bytes.now }
    ensures same { tokens_from false at bytes.now ≡ tokens_from false result bytes.now }
    ensures begins { result < length bytes.now → starts_token (drop result bytes.now) ≡ true }
{
    let mut place = at;
    while (place as usize) < bytes.len() {
        match class_of(bytes[place as usize]) {
            ByteClass::Separator => place += 1,
            ByteClass::Semicolon => place = comment_end(bytes, place + 1),
            _ => return place,
        }
    }
    place
}

/// The place behind the comment whose next byte stands at `at`: after the line feed that ends it, or the end.
#[tactic(auto, using(crate::proofs::Lexing::gaps))]
fn comment_end(bytes: &[u8], at: u32) -> u32
    requires within { at ≤ length bytes.now }
    requires small { length bytes.now < 2 ^ 32 }
    ensures after { at ≤ result }
    ensures in_bytes { result ≤ length bytes.now }
    ensures same { tokens_from true at bytes.now ≡ tokens_from false result bytes.now }
{
    let mut place = at;
    while (place as usize) < bytes.len() {
        let ends = bytes[place as usize] == b'\n';
        place += 1;
        if ends {
            return place;
        }
    }
    place
}

/// The place after the atom bytes that stand from `at` on.
#[tactic(auto, using(crate::proofs::Lexing::runs))]
fn atom_end(bytes: &[u8], at: u32) -> u32
    requires within { at ≤ length bytes.now }
    requires small { length bytes.now < 2 ^ 32 }
    ensures run { result ≡ at + run (drop at bytes.now) }
    ensures in_bytes { result ≤ length bytes.now }
{
    let mut place = at;
    while (place as usize) < bytes.len() && class_of(bytes[place as usize]) == ByteClass::Atom {
        place += 1;
    }
    place
}

/// The first token from `at` on; `None` exactly where none is left.
#[tactic(auto, using(crate::proofs::Lexing::starts))]
pub fn next_token(alloc: Global, bytes: &[u8], at: u32) -> Result<Option<Token>, NoMemory>
    requires within { at ≤ length bytes.now }
    requires small { length bytes.now < 2 ^ 32 }
    ensures { IfOk result (λ found.
        MatchOption found (tokens_from false at bytes.now ≡ []) (IsNext at bytes.now)) }
{
    let at = skip_gap(bytes, at);
    if at as usize == bytes.len() {
        return Ok(None);
    }
    match class_of(bytes[at as usize]) {
        ByteClass::Open => Ok(Some(Token::Open { at })),
        ByteClass::Close => Ok(Some(Token::Close { end: at + 1 })),
        ByteClass::Atom => {
            let end = atom_end(bytes, at);
            let text = Bytes::copy_of(alloc, &bytes[at as usize..end as usize])?;
            Ok(Some(Token::Atom { text, at, end }))
        }
        _ => Ok(Some(Token::Bad { at })),
    }
}
