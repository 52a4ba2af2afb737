//! Single characters, and runs of characters of one class.

ghost use Rattle.std.specs.Prelude.{◌≡◌, ◌==◌, ◌<◌, ℕ, Bool, ◌∷◌, [], ◌++◌, length, MatchOption, IfSome};
ghost use Rattle.std.specs.Str.{chars};
ghost use Rattle.std.specs.Char.{encode_utf8};
ghost use Rattle.qml_lexer.specs.Characters as s;

use unicode_ident::{is_xid_continue, is_xid_start};

/// The first character and what stands behind it.
pub fn split_first_char(text: &str) -> Option<(char, &str)>
    ensures value { MatchOption result (chars text.now ≡ []) (λ p. chars text.now ≡ p.0 ∷ chars p.1.now) }
    ensures bytes { IfSome result (λ p. text.now ≡ encode_utf8 p.0 ++ p.1.now) }
    ensures shorter { IfSome result (λ p. length p.1.now < length text.now) }
{
    let mut characters = text.chars();
    let first = characters.next()?;
    Some((first, characters.as_str()))
}

/// Whether a name may begin with the character.
pub fn is_start(character: char) -> bool
    ensures { result ≡ s.is_start character }
{
    is_xid_start(character) || character == '_' || character == '$'
}

/// Whether the character is a quote.
pub fn is_quote(character: char) -> bool
    ensures { result ≡ s.is_quote character }
{
    character == '"' || character == '\''
}

/// Whether the character ends a line, alone or with another.
pub fn is_line_end(character: char) -> bool
    ensures { result ≡ s.is_line_end character }
{
    character == '\n' || character == '\r'
}

/// Whether the character is a blank.
pub fn is_blank(character: char) -> bool
    ensures { result ≡ s.is_blank character }
{
    character == ' '
        || character == '\t'
        || character == '\u{b}'
        || character == '\u{c}'
        || is_line_end(character)
        || character == '\u{a0}'
        || character == '\u{feff}'
}

/// Whether the text begins with this character.
pub fn begins_with(text: &str, wanted: char) -> bool
    ensures { result ≡ s.begins (λ x. x == wanted) (chars text.now) }
{
    match split_first_char(text) {
        Some((first, _)) => first == wanted,
        None => false,
    }
}

/// A class of characters.
pub trait Class {
    ghost holds: { ℕ → Bool };

    fn has(&self, character: char) -> bool
        ensures { result ≡ holds character };
}

/// The characters that go on in a name.
pub struct Parts;

impl Class for Parts {
    ghost holds = { s.is_part };

    #[tactic(auto, using(crate::proofs::CharacterLemmas::ascii_part))]
    fn has(&self, character: char) -> bool {
        if character.is_ascii() {
            return character.is_ascii_alphanumeric() || character == '_' || character == '$';
        }
        is_xid_continue(character) || character == '$'
    }
}

/// The blanks.
pub struct Blanks;

impl Class for Blanks {
    ghost holds = { s.is_blank };

    fn has(&self, character: char) -> bool {
        is_blank(character)
    }
}

/// The characters that end no line.
pub struct InLine;

impl Class for InLine {
    ghost holds = { s.is_in_line };

    fn has(&self, character: char) -> bool {
        !is_line_end(character)
    }
}

/// The characters that stand for themselves between either quotes.
pub struct Plain;

impl Class for Plain {
    ghost holds = { s.is_plain };

    fn has(&self, character: char) -> bool {
        !is_quote(character) && !is_line_end(character) && character != '\\'
    }
}

/// Whether the text begins with a character of the class.
pub fn begins<C: Class>(text: &str, class: &C) -> bool
    ensures { result ≡ s.begins C.holds (chars text.now) }
{
    match split_first_char(text) {
        Some((first, _)) => class.has(first),
        None => false,
    }
}

/// What stands behind the characters of the class at the front.
pub fn behind_run<'a, C: Class>(text: &'a str, class: &C) -> &'a str
    ensures { chars result.now ≡ s.behind C.holds (chars text.now) }
{
    let mut rest = text;
    while let Some((first, behind)) = split_first_char(rest) {
        if !class.has(first) {
            return rest;
        }
        rest = behind;
    }
    rest
}

/// The characters of the class at the front, and what stands behind them.
pub fn split_run<'a, C: Class>(text: &'a str, class: &C) -> (&'a str, &'a str)
    ensures front { chars result.0.now ≡ s.run C.holds (chars text.now) }
    ensures behind { chars result.1.now ≡ s.behind C.holds (chars text.now) }
{
    let behind = behind_run(text, class);
    (&text[..text.len() - behind.len()], behind)
}
