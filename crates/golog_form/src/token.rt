// `Token`, what stands between separators and comments, with its place.
ghost use Rattle.std.specs.Prelude.{◌≡◌, ◌+◌, ◌<◌, ◌^◌};
ghost use Rattle.golog_form.specs.Tokens.{place, end_of};

use golog_base::Bytes;

/// What stands between separators and comments, with the place of its first byte or the place after its last,
/// in bytes from 0.
#[derive(Debug, Drop)]
pub enum Token {
    Open { at: u32 },
    Close { end: u32 },
    Atom { text: Bytes, at: u32, end: u32 },
    /// A byte without a class.
    Bad { at: u32 },
}

impl Token {
    /// The place after the token.
    pub fn end(&self) -> u32
        requires { place self.now + 1 < 2 ^ 32 }
        ensures { result ≡ end_of self.now }
    {
        match self {
            Token::Open { at } | Token::Bad { at } => *at + 1,
            Token::Close { end } | Token::Atom { end, .. } => *end,
        }
    }
}
