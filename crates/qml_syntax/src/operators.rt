//! Operators of expressions, each with the token that it is written as.

ghost use Rattle.std.specs.Prelude.{◌≡◌};
ghost use Rattle.qml_syntax.specs.Levels.{level, operand};
ghost use Rattle.qml_syntax.specs.Spelling.{operator_mark, prefix_kind, postfix_mark, assignment_mark};

use crate::mark::Mark;
use crate::token::TokenKind;
use crate::word::Word;

/// An operator between two operands (ECMA-262, 13.6 to 13.13).
#[derive(Clone, Copy, Debug, PartialEq, Eq)]
pub enum Operator {
    /// `??`
    Coalesce,
    /// `||`
    Or,
    /// `&&`
    And,
    /// `|`
    BitOr,
    /// `^`
    BitXor,
    /// `&`
    BitAnd,
    /// `==`
    Equal,
    /// `!=`
    NotEqual,
    /// `===`
    StrictEqual,
    /// `!==`
    StrictNotEqual,
    /// `<`
    Less,
    /// `>`
    Greater,
    /// `<=`
    LessEqual,
    /// `>=`
    GreaterEqual,
    /// `<<`
    ShiftLeft,
    /// `>>`
    ShiftRight,
    /// `>>>`
    ShiftRightUnsigned,
    /// `+`
    Plus,
    /// `-`
    Minus,
    /// `*`
    Times,
    /// `/`
    Divide,
    /// `%`
    Remainder,
}

impl Operator {
    /// The mark that it is written as.
    pub fn mark(self) -> Mark
        ensures { result ≡ operator_mark self }
    {
        match self {
            Operator::Coalesce => Mark::Coalesce,
            Operator::Or => Mark::Or,
            Operator::And => Mark::And,
            Operator::BitOr => Mark::BitOr,
            Operator::BitXor => Mark::BitXor,
            Operator::BitAnd => Mark::BitAnd,
            Operator::Equal => Mark::Equal,
            Operator::NotEqual => Mark::NotEqual,
            Operator::StrictEqual => Mark::StrictEqual,
            Operator::StrictNotEqual => Mark::StrictNotEqual,
            Operator::Less => Mark::Less,
            Operator::Greater => Mark::Greater,
            Operator::LessEqual => Mark::LessEqual,
            Operator::GreaterEqual => Mark::GreaterEqual,
            Operator::ShiftLeft => Mark::ShiftLeft,
            Operator::ShiftRight => Mark::ShiftRight,
            Operator::ShiftRightUnsigned => Mark::ShiftRightUnsigned,
            Operator::Plus => Mark::Plus,
            Operator::Minus => Mark::Minus,
            Operator::Times => Mark::Star,
            Operator::Divide => Mark::Slash,
            Operator::Remainder => Mark::Percent,
        }
    }

    /// How tightly it binds, from the loosest: `??` is 2, `* / %` is 12.
    pub fn level(self) -> u8
        ensures { result ≡ level self }
    {
        match self {
            Operator::Coalesce => 2,
            Operator::Or => 3,
            Operator::And => 4,
            Operator::BitOr => 5,
            Operator::BitXor => 6,
            Operator::BitAnd => 7,
            Operator::Equal
            | Operator::NotEqual
            | Operator::StrictEqual
            | Operator::StrictNotEqual => 8,
            Operator::Less | Operator::Greater | Operator::LessEqual | Operator::GreaterEqual => 9,
            Operator::ShiftLeft | Operator::ShiftRight | Operator::ShiftRightUnsigned => 10,
            Operator::Plus | Operator::Minus => 11,
            Operator::Times | Operator::Divide | Operator::Remainder => 12,
        }
    }

    /// How tightly both its operands bind at least. `??` isn't mixed with `||` and `&&`.
    pub fn operand(self) -> u8
        ensures { result ≡ operand self }
    {
        match self {
            Operator::Coalesce => 5,
            _ => self.level() + 1,
        }
    }
}

/// An operator before its operand (ECMA-262, 13.4 Update Expressions and 13.5 Unary Operators).
#[derive(Clone, Copy, Debug, PartialEq, Eq)]
pub enum Prefix {
    /// `!`
    Not,
    /// `-`
    Minus,
    /// `+`
    Plus,
    /// `~`
    BitNot,
    /// `typeof`
    TypeOf,
    /// `++`
    Increment,
    /// `--`
    Decrement,
}

impl Prefix {
    /// The token that it is written as.
    pub fn kind(self) -> TokenKind
        ensures { result ≡ prefix_kind self }
    {
        match self {
            Prefix::Not => TokenKind::Mark(Mark::Not),
            Prefix::Minus => TokenKind::Mark(Mark::Minus),
            Prefix::Plus => TokenKind::Mark(Mark::Plus),
            Prefix::BitNot => TokenKind::Mark(Mark::BitNot),
            Prefix::TypeOf => TokenKind::Word(Word::TypeOf),
            Prefix::Increment => TokenKind::Mark(Mark::Increment),
            Prefix::Decrement => TokenKind::Mark(Mark::Decrement),
        }
    }
}

/// An operator behind its operand (ECMA-262, 13.4 Update Expressions).
#[derive(Clone, Copy, Debug, PartialEq, Eq)]
pub enum Postfix {
    /// `++`
    Increment,
    /// `--`
    Decrement,
}

impl Postfix {
    /// The mark that it is written as.
    pub fn mark(self) -> Mark
        ensures { result ≡ postfix_mark self }
    {
        match self {
            Postfix::Increment => Mark::Increment,
            Postfix::Decrement => Mark::Decrement,
        }
    }
}

/// An operator that assigns (ECMA-262, 13.15 Assignment Operators).
#[derive(Clone, Copy, Debug, PartialEq, Eq)]
pub enum Assignment {
    /// `=`
    Plain,
    /// `+=`
    Plus,
    /// `-=`
    Minus,
    /// `*=`
    Times,
    /// `/=`
    Divide,
    /// `%=`
    Remainder,
    /// `&=`
    BitAnd,
    /// `|=`
    BitOr,
    /// `^=`
    BitXor,
    /// `<<=`
    ShiftLeft,
    /// `>>=`
    ShiftRight,
    /// `>>>=`
    ShiftRightUnsigned,
}

impl Assignment {
    /// The mark that it is written as.
    pub fn mark(self) -> Mark
        ensures { result ≡ assignment_mark self }
    {
        match self {
            Assignment::Plain => Mark::Assign,
            Assignment::Plus => Mark::PlusAssign,
            Assignment::Minus => Mark::MinusAssign,
            Assignment::Times => Mark::StarAssign,
            Assignment::Divide => Mark::SlashAssign,
            Assignment::Remainder => Mark::PercentAssign,
            Assignment::BitAnd => Mark::BitAndAssign,
            Assignment::BitOr => Mark::BitOrAssign,
            Assignment::BitXor => Mark::BitXorAssign,
            Assignment::ShiftLeft => Mark::ShiftLeftAssign,
            Assignment::ShiftRight => Mark::ShiftRightAssign,
            Assignment::ShiftRightUnsigned => Mark::ShiftRightUnsignedAssign,
        }
    }
}
