// What the words behind `run` say, without memory: one pass over them.
ghost use Rattle.std.specs.Prelude.{◌≡◌, map, option_map, string_bytes};
ghost use Rattle.golog_words.specs.Commands.{is_file_word, is_inline, is_from, is_workers, nothing_said, said_by, said_more, with_awaited, with_file, with_inline, with_from, with_word, with_workers};
ghost use Rattle.golog_words.specs.Said.{said_of};

use crate::size::count_in;

// What the word behind `--from` or `--workers` tells: the file of a journal, or a number.
#[derive(Clone, Copy)]
pub(crate) enum Awaited {
    Journal,
    Count,
}

// What the words up to one of them have said.
#[derive(Clone, Copy)]
pub(crate) struct Said<'w> {
    pub agent: Option<&'w str>,
    pub devices: Option<&'w str>,
    pub inline: bool,
    pub from: Option<&'w str>,
    pub workers: Option<&'w str>,
    // What the next word tells, where the last one was `--from` or `--workers`.
    pub awaits: Option<Awaited>,
}

// What the words say, if each of them may stand behind `run` where it stands.
pub(crate) fn said_by<'w>(words: &'w [String]) -> Option<Said<'w>>
    ensures { option_map said_of result ≡ said_by (map string_bytes words.entry.now) nothing_said }
{
    let mut said = Said {
        agent: None,
        devices: None,
        inline: false,
        from: None,
        workers: None,
        awaits: None,
    };
    for word in words {
        said = said_more(said, word)?;
    }
    Some(said)
}

// What is said with one more word.
fn said_more<'w>(said: Said<'w>, word: &'w String) -> Option<Said<'w>>
    ensures { option_map said_of result ≡ said_more (said_of said.entry) (string_bytes word.entry.now) }
{
    match said.awaits {
        Some(awaited) => with_awaited(awaited, said, word),
        None => with_word(said, word),
    }
}

// What is said with one more word, where nothing is awaited.
fn with_word<'w>(said: Said<'w>, word: &'w String) -> Option<Said<'w>>
    ensures { option_map said_of result ≡ with_word (said_of said.entry) (string_bytes word.entry.now) }
{
    if is_file_word(word) {
        return with_file(said, word.as_str());
    }
    if is_inline(word) {
        return with_inline(said);
    }
    if is_from(word) {
        return with_from(said);
    }
    if is_workers(word) {
        return with_workers(said);
    }
    None
}

// What is said with one more file.
fn with_file<'w>(said: Said<'w>, name: &'w str) -> Option<Said<'w>>
    ensures { option_map said_of result ≡ with_file (said_of said.entry) name.entry.now }
{
    let name = Some(name);
    if said.agent.is_none() {
        return Some(Said {
            agent: name,
            ..said
        });
    }
    if said.devices.is_none() {
        return Some(Said {
            devices: name,
            ..said
        });
    }
    None
}

// What is said with what is awaited.
fn with_awaited<'w>(awaited: Awaited, said: Said<'w>, word: &'w String) -> Option<Said<'w>>
    ensures { option_map said_of result ≡ with_awaited awaited (said_of said.entry) (string_bytes word.entry.now) }
{
    match awaited {
        Awaited::Journal => with_journal(said, word),
        Awaited::Count => with_count(said, word),
    }
}

// What is said with the file that `--from` awaits.
fn with_journal<'w>(said: Said<'w>, word: &'w String) -> Option<Said<'w>>
    ensures { option_map said_of result
        ≡ with_awaited Awaited.Journal (said_of said.entry) (string_bytes word.entry.now) }
{
    if !is_file_word(word) {
        return None;
    }
    let from = Some(word.as_str());
    Some(Said {
        from,
        awaits: None,
        ..said
    })
}

// What is said with the number that `--workers` awaits.
fn with_count<'w>(said: Said<'w>, word: &'w String) -> Option<Said<'w>>
    ensures { option_map said_of result
        ≡ with_awaited Awaited.Count (said_of said.entry) (string_bytes word.entry.now) }
{
    let digits = word.as_str();
    if count_in(digits).is_none() {
        return None;
    }
    let workers = Some(digits);
    Some(Said {
        workers,
        awaits: None,
        ..said
    })
}

// What is said with one more `--inline`.
fn with_inline<'w>(said: Said<'w>) -> Option<Said<'w>>
    ensures { option_map said_of result ≡ with_inline (said_of said.entry) }
{
    if said.inline {
        return None;
    }
    Some(Said {
        inline: true,
        ..said
    })
}

// What is said with one more `--from`.
fn with_from<'w>(said: Said<'w>) -> Option<Said<'w>>
    ensures { option_map said_of result ≡ with_from (said_of said.entry) }
{
    if said.from.is_some() {
        return None;
    }
    let awaits = Some(Awaited::Journal);
    Some(Said { awaits, ..said })
}

// What is said with one more `--workers`.
fn with_workers<'w>(said: Said<'w>) -> Option<Said<'w>>
    ensures { option_map said_of result ≡ with_workers (said_of said.entry) }
{
    if said.workers.is_some() {
        return None;
    }
    let awaits = Some(Awaited::Count);
    Some(Said { awaits, ..said })
}

// Whether the word is not empty and does not begin with `-`.
pub(crate) fn is_file_word(word: &String) -> bool
    ensures { result ≡ is_file_word (string_bytes word.now) }
{
    match word.as_bytes() {
        [] => false,
        [first, ..] => *first != b'-',
    }
}

fn is_inline(word: &String) -> bool
    ensures { result ≡ is_inline (string_bytes word.now) }
{
    word.as_str() == "--inline"
}

fn is_from(word: &String) -> bool
    ensures { result ≡ is_from (string_bytes word.now) }
{
    word.as_str() == "--from"
}

fn is_workers(word: &String) -> bool
    ensures { result ≡ is_workers (string_bytes word.now) }
{
    word.as_str() == "--workers"
}
