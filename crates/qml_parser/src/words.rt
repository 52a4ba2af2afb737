//! What single tokens and names are.

ghost use Rattle.std.specs.Prelude.{◌≡◌, codes};
ghost use Rattle.std.specs.Str.{bytes_eq};
ghost use Rattle.qml_syntax.specs.Words as w;
ghost use Rattle.js_machine.specs.Machine as js;
ghost use Rattle.qml_machine.specs.DocumentMachine as m;
ghost use Rattle.qml_parser.specs.Going as g;
ghost use Rattle.qml_parser.specs.Reached.{that_tail};

use qml_machine::FirstWord;
use qml_syntax::{Mark, Token, TokenKind};
use qml_text::Text;

/// What stands last in a member or an import: which tokens go on with it behind a line end (Qt 5.15, "QML Syntax Basics").
#[derive(Clone, Copy, Debug, PartialEq, Eq)]
pub enum Tail {
    /// Nothing goes on with it.
    Whole,
    /// The name of a property, before its value.
    Value,
    /// A name of an alias's target, before a dot.
    Dot,
    /// The name of a signal, before its brackets.
    Brackets,
    /// The name of a module, before a dot, a version or `as`.
    Version,
    /// A version or a text, before `as`.
    As,
}

/// Whether it is `{`.
pub fn is_left_brace(kind: &TokenKind) -> bool
    ensures { result ≡ m.is_left_brace kind.now }
{
    matches!(kind, TokenKind::Mark(Mark::LeftBrace))
}

/// Whether it is `}`.
pub fn is_brace(kind: &TokenKind) -> bool
    ensures { result ≡ js.is_brace kind.now }
{
    matches!(kind, TokenKind::Mark(Mark::RightBrace))
}

/// Whether it is `;`.
pub fn is_semi(kind: &TokenKind) -> bool
    ensures { result ≡ js.is_semi kind.now }
{
    matches!(kind, TokenKind::Mark(Mark::Semicolon))
}

/// Whether it is `:`.
pub fn is_colon(kind: &TokenKind) -> bool
    ensures { result ≡ m.is_colon kind.now }
{
    matches!(kind, TokenKind::Mark(Mark::Colon))
}

/// Whether it is `.`.
pub fn is_dot(kind: &TokenKind) -> bool
    ensures { result ≡ m.is_dot kind.now }
{
    matches!(kind, TokenKind::Mark(Mark::Dot))
}

/// Whether it is `(`.
pub fn is_left_paren(kind: &TokenKind) -> bool
    ensures { result ≡ m.is_left_paren kind.now }
{
    matches!(kind, TokenKind::Mark(Mark::LeftParen))
}

/// Whether it is `>`.
pub fn is_greater(kind: &TokenKind) -> bool
    ensures { result ≡ m.is_greater kind.now }
{
    matches!(kind, TokenKind::Mark(Mark::Greater))
}

/// Whether it is `<`.
pub fn is_less(kind: &TokenKind) -> bool
    ensures { result ≡ g.is_less kind.now }
{
    matches!(kind, TokenKind::Mark(Mark::Less))
}

/// Whether it is `)`.
pub fn is_right_paren(kind: &TokenKind) -> bool
    ensures { result ≡ g.is_right_paren kind.now }
{
    matches!(kind, TokenKind::Mark(Mark::RightParen))
}

/// Whether it is `as`.
pub fn names_as(name: &Text) -> bool
    ensures { result ≡ bytes_eq name.now (codes "as") }
{
    match name.units() {
        [97, 115] => true,
        _ => false,
    }
}

/// Whether it is `id`.
pub fn names_id(name: &Text) -> bool
    ensures { result ≡ bytes_eq name.now (codes "id") }
{
    match name.units() {
        [105, 100] => true,
        _ => false,
    }
}

const LIST: [u16; 4] = [108, 105, 115, 116];

const ALIAS: [u16; 5] = [97, 108, 105, 97, 115];

const PROPERTY: [u16; 8] = [112, 114, 111, 112, 101, 114, 116, 121];

const READ_ONLY: [u16; 8] = [114, 101, 97, 100, 111, 110, 108, 121];

const SIGNAL: [u16; 6] = [115, 105, 103, 110, 97, 108];

const PRAGMA: [u16; 6] = [112, 114, 97, 103, 109, 97];

const LIBRARY: [u16; 7] = [108, 105, 98, 114, 97, 114, 121];

/// `.js`, which the name of a script file ends in.
const SCRIPT_END: [u16; 3] = [46, 106, 115];

/// Whether it is `list`.
pub fn names_list(name: &Text) -> bool
    ensures { result ≡ bytes_eq name.now (codes "list") }
{
    name.units() == LIST.as_slice()
}

/// Whether it is `alias`.
pub fn names_alias(name: &Text) -> bool
    ensures { result ≡ bytes_eq name.now (codes "alias") }
{
    name.units() == ALIAS.as_slice()
}

/// Whether it is `property`.
pub fn names_property(name: &Text) -> bool
    ensures { result ≡ bytes_eq name.now (codes "property") }
{
    name.units() == PROPERTY.as_slice()
}

/// Whether it is `readonly`.
fn names_read_only(name: &Text) -> bool
    ensures { result ≡ bytes_eq name.now (codes "readonly") }
{
    name.units() == READ_ONLY.as_slice()
}

/// Whether it is `signal`.
fn names_signal(name: &Text) -> bool
    ensures { result ≡ bytes_eq name.now (codes "signal") }
{
    name.units() == SIGNAL.as_slice()
}

/// Whether it is `pragma`.
pub fn names_pragma(name: &Text) -> bool
    ensures { result ≡ bytes_eq name.now (codes "pragma") }
{
    name.units() == PRAGMA.as_slice()
}

/// Whether it is `library`.
pub fn names_library(name: &Text) -> bool
    ensures { result ≡ bytes_eq name.now (codes "library") }
{
    name.units() == LIBRARY.as_slice()
}

/// Which word the first name of a member is.
pub fn first_word(name: &Text) -> FirstWord
    ensures { result ≡ m.word_of name.now }
{
    if names_property(name) {
        FirstWord::Property
    } else if names_read_only(name) {
        FirstWord::ReadOnly
    } else if names_signal(name) {
        FirstWord::Signal
    } else {
        FirstWord::Other
    }
}

/// Whether it is the name of a type, which begins with A to Z.
pub fn is_type(name: &Text) -> bool
    ensures { result ≡ w.is_type name.now }
{
    match name.units().first() {
        Some(unit) => 65 <= *unit && *unit <= 90,
        None => false,
    }
}

/// Whether it is the name of an id, which begins with a to z or `_`.
pub fn is_id(name: &Text) -> bool
    ensures { result ≡ w.is_id name.now }
{
    match name.units().first() {
        Some(unit) => 97 <= *unit && *unit <= 122 || *unit == 95,
        None => false,
    }
}

/// Whether it names a script file.
pub fn is_script(text: &Text) -> bool
    ensures { result ≡ w.is_script text.now }
{
    let units = text.units();
    let start = units.len().saturating_sub(3);
    let (_, end) = units.split_at(start);
    end == SCRIPT_END.as_slice()
}

/// Whether it is the name `as`.
pub fn is_as(kind: &TokenKind) -> bool
    ensures { result ≡ w.is_as kind.now }
{
    match kind {
        TokenKind::Name(name) => names_as(name),
        _ => false,
    }
}

/// Whether a mark goes on with what stands last.
fn continues_mark(tail: Tail, mark: Mark) -> bool
    ensures { result ≡ w.continues (that_tail tail) (TokenKind.Mark mark) }
{
    match mark {
        Mark::Semicolon => true,
        Mark::Colon => tail == Tail::Value,
        Mark::Dot => tail == Tail::Dot || tail == Tail::Version,
        Mark::LeftParen => tail == Tail::Brackets,
        _ => false,
    }
}

/// Whether a token goes on with what stands last.
fn continues(tail: Tail, kind: &TokenKind) -> bool
    ensures { result ≡ w.continues (that_tail tail) kind.now }
{
    match kind {
        TokenKind::Mark(mark) => continues_mark(tail, *mark),
        TokenKind::Version | TokenKind::Number(_) => tail == Tail::Version,
        TokenKind::Name(name) => {
            if tail == Tail::Version || tail == Tail::As {
                names_as(name)
            } else {
                false
            }
        }
        TokenKind::Text(_) | TokenKind::Word(_) | TokenKind::End => false,
    }
}

/// Whether what stands last may end before a token without a `;`.
pub fn stops(tail: Tail, token: &Token) -> bool
    ensures { result ≡ m.stops (that_tail tail) token.now }
{
    is_brace(&token.what) || token.after_line && !continues(tail, &token.what)
}
