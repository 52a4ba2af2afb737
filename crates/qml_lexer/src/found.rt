//! Tokens as they are found.

ghost use Rattle.std.specs.Prelude.{◌≡◌, [], ◌∷◌, ◌++◌, OnOk};
ghost use Rattle.qml_lexer.specs.Reading.{token_on};

use qml_base::Place;
use qml_syntax::{Token, TokenKind};
use qml_text::NoMemory;

/// Where a token begins, and whether a line end stands before it.
#[derive(Clone, Copy, Debug, PartialEq, Eq)]
pub struct Spot {
    pub place: Place,
    pub after_line: bool,
}

/// What was read at the front of a text.
#[derive(Clone, Copy, Debug, PartialEq, Eq)]
pub enum Piece {
    /// Blanks or a comment.
    Gap,
    /// A token, which was put behind those found before.
    Token,
}

/// Puts a token of this kind behind those found before.
#[inline]
pub fn put(found: &mut Vec<Token>, spot: Spot, what: TokenKind) -> Result<(), NoMemory>
    ensures { OnOk result (found.new.items ≡ found.old.items ++ token_on spot what ∷ []) }
{
    found.push(Token {
        what,
        place: spot.place,
        after_line: spot.after_line,
    })?;
    Ok(())
}
