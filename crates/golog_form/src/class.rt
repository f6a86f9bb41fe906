// The classes of bytes: what a byte that stands outside comments is.
ghost use Rattle.std.specs.Prelude.{◌≡◌};
ghost use Rattle.golog_form.specs.Tokens.{class};

/// What a byte outside comments is.
#[derive(Clone, Copy, Debug, PartialEq, Eq)]
pub enum ByteClass {
    /// Space, tab, line feed and carriage return.
    Separator,
    /// Begins a comment, which ends with the line.
    Semicolon,
    Open,
    Close,
    /// A letter, a digit, `_`, `+`, `-`, `=` or `<`.
    Atom,
    /// Has no class.
    Bad,
}

/// The class of a byte that stands outside comments.
pub fn class_of(byte: u8) -> ByteClass
    ensures { result ≡ class byte }
{
    match byte {
        b' ' | b'\t' | b'\n' | b'\r' => ByteClass::Separator,
        b';' => ByteClass::Semicolon,
        b'(' => ByteClass::Open,
        b')' => ByteClass::Close,
        b'A'..=b'Z' | b'a'..=b'z' | b'0'..=b'9' | b'_' | b'+' | b'-' | b'=' | b'<' =>
            ByteClass::Atom,
        _ => ByteClass::Bad,
    }
}
