// The words that a program in a list begins with.
ghost use Rattle.std.specs.Prelude.{◌≡◌};
ghost use Rattle.golog_prog.specs.Keywords.{keyword_of, later_keyword};

/// The words that a program in a list begins with.
#[derive(Clone, Copy)]
pub enum Keyword {
    Act,
    Test,
    Seq,
    Choice,
    Pick,
    Star,
    If,
    While,
    Conc,
    Prio,
    Cstar,
    Call,
    Search,
    Interrupt,
    Interrupts,
}

/// The keyword that a text spells, where it is one of those behind `while`.
fn later_keyword(text: &[u8]) -> Option<Keyword>
    ensures { result ≡ later_keyword text.now }
{
    if text == b"conc".as_slice() {
        Some(Keyword::Conc)
    } else if text == b"prio".as_slice() {
        Some(Keyword::Prio)
    } else if text == b"cstar".as_slice() {
        Some(Keyword::Cstar)
    } else if text == b"call".as_slice() {
        Some(Keyword::Call)
    } else if text == b"search".as_slice() {
        Some(Keyword::Search)
    } else if text == b"interrupt".as_slice() {
        Some(Keyword::Interrupt)
    } else if text == b"interrupts".as_slice() {
        Some(Keyword::Interrupts)
    } else {
        None
    }
}

/// The keyword that a text spells.
#[tactic(auto, unfolding(crate::specs::Keywords::keyword_of))]
pub fn keyword_of(text: &[u8]) -> Option<Keyword>
    ensures { result ≡ keyword_of text.now }
{
    if text == b"act".as_slice() {
        Some(Keyword::Act)
    } else if text == b"test".as_slice() {
        Some(Keyword::Test)
    } else if text == b"seq".as_slice() {
        Some(Keyword::Seq)
    } else if text == b"choice".as_slice() {
        Some(Keyword::Choice)
    } else if text == b"pick".as_slice() {
        Some(Keyword::Pick)
    } else if text == b"star".as_slice() {
        Some(Keyword::Star)
    } else if text == b"if".as_slice() {
        Some(Keyword::If)
    } else if text == b"while".as_slice() {
        Some(Keyword::While)
    } else {
        later_keyword(text)
    }
}
