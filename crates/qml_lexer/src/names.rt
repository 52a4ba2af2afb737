//! Names and reserved words.

ghost use Rattle.std.specs.Prelude.{◌≡◌, [], ◌∷◌, ◌++◌, OnOk, List, ℕ, true, false};
ghost use Rattle.std.specs.Str.{chars};
ghost use Rattle.qml_lexer.specs.Names as s;
ghost use Rattle.qml_lexer.specs.Reading.{token_on};
ghost use Rattle.qml_lexer.specs.Spells.{is_identifier, IsName};
ghost use Rattle.qml_lexer.specs.Characters.{is_part};
ghost use Rattle.std.specs.List.{list_all};

use crate::characters::{Class, Parts, is_start, split_first_char};
use crate::found::{Spot, put};
use qml_syntax::{Token, TokenKind, Word};
use qml_text::{NoMemory, Text};
use std::alloc::Global;

/// How a reserved word is written.
fn spelling(word: Word) -> &'static str
    ensures { result.now ≡ s.word_spelling word }
{
    match word {
        Word::Break => "break",
        Word::Case => "case",
        Word::Catch => "catch",
        Word::Class => "class",
        Word::Const => "const",
        Word::Continue => "continue",
        Word::Debugger => "debugger",
        Word::Default => "default",
        Word::Delete => "delete",
        Word::Do => "do",
        Word::Else => "else",
        Word::Enum => "enum",
        Word::Export => "export",
        Word::Extends => "extends",
        Word::False => "false",
        Word::Finally => "finally",
        Word::For => "for",
        Word::Function => "function",
        Word::If => "if",
        Word::Import => "import",
        Word::In => "in",
        Word::InstanceOf => "instanceof",
        Word::Let => "let",
        Word::New => "new",
        Word::Null => "null",
        Word::Return => "return",
        Word::Super => "super",
        Word::Switch => "switch",
        Word::This => "this",
        Word::Throw => "throw",
        Word::True => "true",
        Word::Try => "try",
        Word::TypeOf => "typeof",
        Word::Var => "var",
        Word::Void => "void",
        Word::While => "while",
        Word::With => "with",
        Word::Yield => "yield",
    }
}

/// The one of these words that is written so.
fn word_among(words: &[Word], name: &str) -> Option<Word>
    ensures { result ≡ s.word_among words.now name.now }
{
    for word in words {
        if spelling(*word) == name {
            return Some(*word);
        }
    }
    None
}

/// The reserved words among which a name that begins with this byte has to be looked for.
#[tactic(auto, using(crate::proofs::FirstLemmas::words_by_first))]
fn words_from(first: u8) -> &'static [Word]
    ensures { (bytes : List ℕ) →
        s.word_among result.now (first ∷ bytes) ≡ s.word_among s.reserved_words (first ∷ bytes) }
{
    match first {
        b'b' => &[Word::Break],
        b'c' => &[
            Word::Case,
            Word::Catch,
            Word::Class,
            Word::Const,
            Word::Continue,
        ],
        b'd' => &[Word::Debugger, Word::Default, Word::Delete, Word::Do],
        b'e' => &[Word::Else, Word::Enum, Word::Export, Word::Extends],
        b'f' => &[Word::False, Word::Finally, Word::For, Word::Function],
        b'i' => &[Word::If, Word::Import, Word::In, Word::InstanceOf],
        b'l' => &[Word::Let],
        b'n' => &[Word::New, Word::Null],
        b'r' => &[Word::Return],
        b's' => &[Word::Super, Word::Switch],
        b't' => &[Word::This, Word::Throw, Word::True, Word::Try, Word::TypeOf],
        b'v' => &[Word::Var, Word::Void],
        b'w' => &[Word::While, Word::With],
        b'y' => &[Word::Yield],
        _ => &[],
    }
}

/// The reserved word that is written so.
fn word_of(name: &str) -> Option<Word>
    ensures { result ≡ s.word_among s.reserved_words name.now }
{
    let first = name.as_bytes().first()?;
    word_among(words_from(*first), name)
}

/// Puts the token that a name's spelling is: a reserved word, or a name.
pub fn put_name(
    alloc: Global,
    spelt: &str,
    spot: Spot,
    found: &mut Vec<Token>,
) -> Result<(), NoMemory>
    ensures { OnOk result (found.new.items ≡ found.old.items ++ token_on spot (s.kind_of (chars spelt.now)) ∷ []) }
{
    match word_of(spelt) {
        Some(word) => put(found, spot, TokenKind::Word(word)),
        None => {
            let name = Text::from_str(alloc, spelt)?;
            put(found, spot, TokenKind::Name(name))
        }
    }
}

/// Whether each character of the text may go on in a name.
fn are_parts(text: &str) -> bool
    ensures { result ≡ list_all is_part (chars text.now) }
{
    let mut rest = text;
    while let Some((first, behind)) = split_first_char(rest) {
        if !Parts.has(first) {
            return false;
        }
        rest = behind;
    }
    true
}

/// Whether the text is an identifier, as a reserved word is too.
fn is_identifier(text: &str) -> bool
    ensures { result ≡ is_identifier (chars text.now) }
{
    match split_first_char(text) {
        Some((first, behind)) => is_start(first) && are_parts(behind),
        None => false,
    }
}

/// Whether the text is a name: an identifier, and no reserved word (ECMA-262, 12.7 Names and Keywords).
#[tactic(auto, using(crate::proofs::NameLemmas::names_it, crate::proofs::NameLemmas::names_nothing))]
pub fn is_name(text: &str) -> bool
    ensures yes { result ≡ true → IsName (chars text.now) }
    ensures no { result ≡ false → IsName (chars text.now) → ⊥ }
{
    if !is_identifier(text) {
        return false;
    }
    match word_of(text) {
        Some(_) => false,
        None => true,
    }
}
