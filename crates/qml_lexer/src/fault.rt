//! Why bytes are not read.

ghost use Rattle.std.specs.Prelude.{◌≡◌};
ghost use Rattle.qml_lexer.specs.declared.fault.Fault.TheVariants as fault;
ghost use Rattle.qml_lexer.specs.declared.fault.LexFault.TheVariants as lex_fault;

use qml_base::Place;
use qml_text::NoMemory;
use thiserror::Error;

/// What is wrong at the place where bytes are not read.
#[derive(Clone, Copy, Debug, PartialEq, Eq, Error)]
pub enum LexCause {
    /// The bytes aren't UTF-8 from there on.
    #[error("the bytes aren't UTF-8 from here on")]
    NotUtf8,
    /// A character that begins no token.
    #[error("no token begins with this character")]
    Character,
    /// A text that isn't closed on its line.
    #[error("the text isn't closed on its line")]
    OpenText,
    /// A comment that isn't closed.
    #[error("the comment isn't closed")]
    OpenComment,
    /// A backslash in a text that begins no escape.
    #[error("a backslash in the text begins no escape")]
    Escape,
    /// Digits that are no number: past 2^53, with a zero before others, or directly followed by a name character.
    #[error("these digits are no number")]
    Number,
}

/// Why there are no tokens.
#[derive(Clone, Copy, Debug, PartialEq, Eq, Error)]
pub enum LexFault {
    /// No token list reads the bytes; `place` is that of the first byte of the token or comment that can't be read.
    #[error("line {}, column {}: {cause}", .place.line, .place.column)]
    Bad { place: Place, cause: LexCause },
    /// There was no memory.
    #[error("there was no memory")]
    NoMemory,
}

impl From<NoMemory> for LexFault {
    ghost from_gives = { λ _ e. e ≡ lex_fault.NoMemory };

    fn from(_error: NoMemory) -> LexFault {
        LexFault::NoMemory
    }
}

/// Why nothing is read at the front of a text.
#[derive(Clone, Copy, Debug, PartialEq, Eq)]
pub enum Fault {
    Bad(LexCause),
    NoMemory,
}

impl From<NoMemory> for Fault {
    ghost from_gives = { λ _ e. e ≡ fault.NoMemory };

    fn from(_error: NoMemory) -> Fault {
        Fault::NoMemory
    }
}
