//! What a token is behind an expression.

ghost use Rattle.std.specs.Prelude.{◌≡◌};
ghost use Rattle.js_machine.specs.Machine as m;
ghost use Rattle.js_machine.specs.Roles.{that_role};

use qml_syntax::{Assignment, Mark, Operator, Postfix, TokenKind};

/// What a token is behind an expression.
#[derive(Clone, Copy, Debug, PartialEq, Eq)]
pub enum Role {
    /// An operator between two operands.
    Joins(Operator),
    /// An operator that assigns.
    Updates(Assignment),
    /// `++` or `--`.
    Bumps(Postfix),
    /// `?`
    Question,
    /// `.`
    Dot,
    /// `(`
    Calls,
    /// `[`
    Indexes,
    /// `:`
    Colon,
    /// `)`
    Closes,
    /// `]`
    Shuts,
    /// `,`
    Comma,
    /// `;`
    Semicolon,
    /// `}`
    Brace,
    /// No read prefix goes on with it, unless it begins the next statement.
    Other,
}

/// What a mark is behind an expression.
fn role_of_mark(mark: Mark) -> Role
    ensures { that_role result ≡ m.role_of_mark mark }
{
    match mark {
        Mark::Coalesce => Role::Joins(Operator::Coalesce),
        Mark::Or => Role::Joins(Operator::Or),
        Mark::And => Role::Joins(Operator::And),
        Mark::BitOr => Role::Joins(Operator::BitOr),
        Mark::BitXor => Role::Joins(Operator::BitXor),
        Mark::BitAnd => Role::Joins(Operator::BitAnd),
        Mark::Equal => Role::Joins(Operator::Equal),
        Mark::NotEqual => Role::Joins(Operator::NotEqual),
        Mark::StrictEqual => Role::Joins(Operator::StrictEqual),
        Mark::StrictNotEqual => Role::Joins(Operator::StrictNotEqual),
        Mark::Less => Role::Joins(Operator::Less),
        Mark::Greater => Role::Joins(Operator::Greater),
        Mark::LessEqual => Role::Joins(Operator::LessEqual),
        Mark::GreaterEqual => Role::Joins(Operator::GreaterEqual),
        Mark::ShiftLeft => Role::Joins(Operator::ShiftLeft),
        Mark::ShiftRight => Role::Joins(Operator::ShiftRight),
        Mark::ShiftRightUnsigned => Role::Joins(Operator::ShiftRightUnsigned),
        Mark::Plus => Role::Joins(Operator::Plus),
        Mark::Minus => Role::Joins(Operator::Minus),
        Mark::Star => Role::Joins(Operator::Times),
        Mark::Slash => Role::Joins(Operator::Divide),
        Mark::Percent => Role::Joins(Operator::Remainder),
        Mark::Assign => Role::Updates(Assignment::Plain),
        Mark::PlusAssign => Role::Updates(Assignment::Plus),
        Mark::MinusAssign => Role::Updates(Assignment::Minus),
        Mark::StarAssign => Role::Updates(Assignment::Times),
        Mark::SlashAssign => Role::Updates(Assignment::Divide),
        Mark::PercentAssign => Role::Updates(Assignment::Remainder),
        Mark::BitAndAssign => Role::Updates(Assignment::BitAnd),
        Mark::BitOrAssign => Role::Updates(Assignment::BitOr),
        Mark::BitXorAssign => Role::Updates(Assignment::BitXor),
        Mark::ShiftLeftAssign => Role::Updates(Assignment::ShiftLeft),
        Mark::ShiftRightAssign => Role::Updates(Assignment::ShiftRight),
        Mark::ShiftRightUnsignedAssign => Role::Updates(Assignment::ShiftRightUnsigned),
        Mark::Increment => Role::Bumps(Postfix::Increment),
        Mark::Decrement => Role::Bumps(Postfix::Decrement),
        Mark::Question => Role::Question,
        Mark::Dot => Role::Dot,
        Mark::LeftParen => Role::Calls,
        Mark::LeftBracket => Role::Indexes,
        Mark::Colon => Role::Colon,
        Mark::RightParen => Role::Closes,
        Mark::RightBracket => Role::Shuts,
        Mark::Comma => Role::Comma,
        Mark::Semicolon => Role::Semicolon,
        Mark::RightBrace => Role::Brace,
        Mark::LeftBrace | Mark::Not | Mark::BitNot | Mark::Arrow => Role::Other,
    }
}

/// What a token of this kind is behind an expression.
pub fn role_of(kind: &TokenKind) -> Role
    ensures { that_role result ≡ m.role_of kind.now }
{
    match kind {
        TokenKind::Mark(mark) => role_of_mark(*mark),
        TokenKind::Name(_)
        | TokenKind::Number(_)
        | TokenKind::Version
        | TokenKind::Text(_)
        | TokenKind::Word(_)
        | TokenKind::End => Role::Other,
    }
}
