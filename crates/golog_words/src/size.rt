// The size of a demo, the number of workers, and the depth and fuel of a plan, which a word spells.
ghost use Rattle.std.specs.Prelude.{◌≡◌, ◌≤◌, IfSome, option_and_then, option_map};
ghost use Rattle.golog_words.specs.Commands.{count_in, depth_in, fuel_in, size_in, up_to};

use golog_base::{amount_within, is_natural};

// The greatest size of a demo.
const MOST_LEVELS: u32 = 200;

// The most workers that a search has.
const MOST_WORKERS: u32 = 16;

// The greatest depth of a plan.
const MOST_DEPTH: u32 = 16;

// The most fuel of the search for one.
const MOST_FUEL: u32 = 100_000;

// The number from 1 to this one that a word spells, if it spells one.
fn up_to(most: u32, word: &str) -> Option<u32>
    ensures spelled { result ≡ up_to most word.now }
    ensures most { IfSome result (λ number. number ≤ most) }
{
    let digits = word.as_bytes();
    let number = amount_within(digits, most)?;
    if number >= 1 && is_natural(digits) {
        Some(number)
    } else {
        None
    }
}

// The size that a word spells, if it spells one.
pub(crate) fn size_in(word: &str) -> Option<u32>
    ensures { result ≡ size_in word.now }
{
    up_to(MOST_LEVELS, word)
}

// The depth that a word spells, if it spells one.
pub(crate) fn depth_in(word: &str) -> Option<u32>
    ensures { result ≡ depth_in word.now }
{
    up_to(MOST_DEPTH, word)
}

// The fuel that a word spells, if it spells one.
pub(crate) fn fuel_in(word: &str) -> Option<u32>
    ensures { result ≡ fuel_in word.now }
{
    up_to(MOST_FUEL, word)
}

// The number of workers that a word spells, if it spells one.
pub(crate) fn count_in(word: &str) -> Option<u8>
    ensures { result ≡ count_in word.now }
{
    let count = up_to(MOST_WORKERS, word)?;
    Some(count as u8)
}

// The number of workers that a word spells, if there is one that does.
pub(crate) fn count_of(word: Option<&str>) -> Option<u8>
    ensures { result ≡ option_and_then count_in (option_map (λ digits. digits.now) word.entry) }
{
    count_in(word?)
}
