//! Tokens and their kinds.

ghost use Rattle.std.specs.Prelude.{◌≡◌, ◌↔◌, IsTrue};

use crate::mark::Mark;
use crate::word::Word;
use qml_base::Place;
use qml_text::Text;

/// What a token is, with what it says.
#[derive(Debug, Drop)]
pub enum TokenKind {
    /// A name that is no reserved word (ECMA-262, 12.7 Names and Keywords, without escapes).
    Name(Text),
    /// A whole number in decimal or hexadecimal digits, at most 2^53 (ECMA-262, 12.9.3 Numeric Literals).
    Number(u64),
    /// Digits, a dot and digits: the version of an import. It has no effect, so nothing is kept of it.
    Version,
    /// What a text literal stands for (ECMA-262, 12.9.4 String Literals).
    Text(Text),
    /// A mark (ECMA-262, 12.8 Punctuators).
    Mark(Mark),
    /// A reserved word (ECMA-262, 12.7.2 Keywords and Reserved Words).
    Word(Word),
    /// The end of the bytes.
    End,
}

impl TokenKind {
    /// Whether it is this mark.
    pub fn is_mark(&self, wanted: Mark) -> bool
        ensures { IsTrue result ↔ (self.now ≡ TokenKind.Mark wanted) }
    {
        match self {
            TokenKind::Mark(found) => *found == wanted,
            TokenKind::Name(_)
            | TokenKind::Number(_)
            | TokenKind::Version
            | TokenKind::Text(_)
            | TokenKind::Word(_)
            | TokenKind::End => false,
        }
    }

    /// Whether it is this reserved word.
    pub fn is_word(&self, wanted: Word) -> bool
        ensures { IsTrue result ↔ (self.now ≡ TokenKind.Word wanted) }
    {
        match self {
            TokenKind::Word(found) => *found == wanted,
            TokenKind::Name(_)
            | TokenKind::Number(_)
            | TokenKind::Version
            | TokenKind::Text(_)
            | TokenKind::Mark(_)
            | TokenKind::End => false,
        }
    }
}

/// A token: what it is, the place of its first byte, and whether a line end stands between it and the token before it
/// or, for the first token, the start of the bytes.
#[derive(Debug, Drop)]
pub struct Token {
    pub what: TokenKind,
    pub place: Place,
    pub after_line: bool,
}
