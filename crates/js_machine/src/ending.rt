//! Where a line end ends a statement.

ghost use Rattle.std.specs.Prelude.{◌≡◌};
ghost use Rattle.qml_syntax.specs.Ends as e;
ghost use Rattle.js_machine.specs.Machine as m;
ghost use Rattle.js_machine.specs.Roles.{that_last};

use qml_syntax::{Mark, Token, TokenKind};

/// What stands last in a statement (ECMA-262, 12.10 Automatic Semicolon Insertion: what may follow it on a line of its
/// own depends on this).
#[derive(Clone, Copy, Debug, PartialEq, Eq)]
pub enum Last {
    /// A name that is declared without a value.
    Bare,
    /// An expression that neither a call nor an element may follow.
    Shut,
    /// An expression that a call or an element may follow.
    Callable,
}

/// An expression stands last, which a call or an element may follow or not.
pub fn last_of(callable: bool) -> Last
    ensures { that_last result ≡ e.last_of callable }
{
    if callable { Last::Callable } else { Last::Shut }
}

/// Whether a statement with this at its end goes on with a mark.
fn goes_on_mark(last: Last, mark: Mark) -> bool
    ensures { result ≡ e.goes_on_mark (that_last last) mark }
{
    match mark {
        Mark::LeftParen | Mark::LeftBracket => last == Last::Callable,
        Mark::Plus | Mark::Minus => last != Last::Bare,
        Mark::LeftBrace | Mark::Increment | Mark::Decrement | Mark::Not | Mark::BitNot => false,
        _ => true,
    }
}

/// Whether a statement with this at its end goes on with a token of this kind.
fn goes_on(last: Last, kind: &TokenKind) -> bool
    ensures { result ≡ e.goes_on (that_last last) kind.now }
{
    match kind {
        TokenKind::Mark(mark) => goes_on_mark(last, *mark),
        TokenKind::Name(_)
        | TokenKind::Number(_)
        | TokenKind::Version
        | TokenKind::Text(_)
        | TokenKind::Word(_)
        | TokenKind::End => false,
    }
}

/// Whether a statement with this at its end ends at the line end before a token.
pub fn ends_line(last: Last, token: &Token) -> bool
    ensures { result ≡ m.ends_line (that_last last) token.now }
{
    token.after_line && !goes_on(last, &token.what)
}
