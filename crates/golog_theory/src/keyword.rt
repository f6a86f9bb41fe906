// The words that items and conditions begin with.
ghost use Rattle.std.specs.Prelude.{◌≡◌};
ghost use Rattle.golog_theory.specs.Keywords.{cond_keyword, item_keyword};

/// The words that an item begins with.
#[derive(Clone, Copy)]
pub enum ItemKeyword {
    Sort,
    Device,
    Fluent,
    Start,
    Action,
    Exo,
    Poss,
    Causes,
    Senses,
    Proc,
    Main,
}

/// The words that a condition in a list begins with where it is no fluent.
#[derive(Clone, Copy)]
pub enum CondKeyword {
    Equal,
    Less,
    AtMost,
    Not,
    And,
    Or,
    ForSome,
    ForAll,
}

/// The keyword of an item that a text spells.
#[tactic(auto, unfolding(crate::specs::Keywords::item_keyword))]
pub fn item_keyword(text: &[u8]) -> Option<ItemKeyword>
    ensures { result ≡ item_keyword text.now }
{
    if text == b"sort".as_slice() {
        Some(ItemKeyword::Sort)
    } else if text == b"device".as_slice() {
        Some(ItemKeyword::Device)
    } else if text == b"fluent".as_slice() {
        Some(ItemKeyword::Fluent)
    } else if text == b"start".as_slice() {
        Some(ItemKeyword::Start)
    } else if text == b"action".as_slice() {
        Some(ItemKeyword::Action)
    } else if text == b"exo".as_slice() {
        Some(ItemKeyword::Exo)
    } else if text == b"poss".as_slice() {
        Some(ItemKeyword::Poss)
    } else if text == b"causes".as_slice() {
        Some(ItemKeyword::Causes)
    } else if text == b"senses".as_slice() {
        Some(ItemKeyword::Senses)
    } else if text == b"proc".as_slice() {
        Some(ItemKeyword::Proc)
    } else if text == b"main".as_slice() {
        Some(ItemKeyword::Main)
    } else {
        None
    }
}

/// The keyword of a condition that a text spells.
#[tactic(auto, unfolding(crate::specs::Keywords::cond_keyword))]
pub fn cond_keyword(text: &[u8]) -> Option<CondKeyword>
    ensures { result ≡ cond_keyword text.now }
{
    if text == b"=".as_slice() {
        Some(CondKeyword::Equal)
    } else if text == b"<".as_slice() {
        Some(CondKeyword::Less)
    } else if text == b"<=".as_slice() {
        Some(CondKeyword::AtMost)
    } else if text == b"not".as_slice() {
        Some(CondKeyword::Not)
    } else if text == b"and".as_slice() {
        Some(CondKeyword::And)
    } else if text == b"or".as_slice() {
        Some(CondKeyword::Or)
    } else if text == b"some".as_slice() {
        Some(CondKeyword::ForSome)
    } else if text == b"all".as_slice() {
        Some(CondKeyword::ForAll)
    } else {
        None
    }
}
