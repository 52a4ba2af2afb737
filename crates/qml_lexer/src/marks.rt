//! Marks.

ghost use Rattle.std.specs.Prelude.{◌≡◌, ℕ, List, ◌∷◌, MatchOption, Some, None};
ghost use Rattle.std.specs.Str.{chars};
ghost use Rattle.qml_lexer.specs.Marks as s;
ghost use Rattle.qml_lexer.specs.Reading.{GivesPart};

use crate::characters::split_first_char;
use qml_syntax::Mark;

/// All marks, each before those that begin it.
pub const MARKS: [Mark; 50] = [
    Mark::Colon,
    Mark::Dot,
    Mark::LeftParen,
    Mark::RightParen,
    Mark::LeftBrace,
    Mark::RightBrace,
    Mark::Semicolon,
    Mark::Comma,
    Mark::LeftBracket,
    Mark::RightBracket,
    Mark::BitNot,
    Mark::Decrement,
    Mark::MinusAssign,
    Mark::Minus,
    Mark::Increment,
    Mark::PlusAssign,
    Mark::Plus,
    Mark::StarAssign,
    Mark::Star,
    Mark::SlashAssign,
    Mark::Slash,
    Mark::StrictEqual,
    Mark::Equal,
    Mark::Arrow,
    Mark::Assign,
    Mark::ShiftLeftAssign,
    Mark::LessEqual,
    Mark::ShiftLeft,
    Mark::Less,
    Mark::ShiftRightUnsignedAssign,
    Mark::ShiftRightUnsigned,
    Mark::ShiftRightAssign,
    Mark::GreaterEqual,
    Mark::ShiftRight,
    Mark::Greater,
    Mark::StrictNotEqual,
    Mark::NotEqual,
    Mark::Not,
    Mark::And,
    Mark::BitAndAssign,
    Mark::BitAnd,
    Mark::Or,
    Mark::BitOrAssign,
    Mark::BitOr,
    Mark::Coalesce,
    Mark::Question,
    Mark::PercentAssign,
    Mark::Percent,
    Mark::BitXorAssign,
    Mark::BitXor,
];

/// The marks that begin with `<`, each before those that begin it.
pub const MARKS_FROM_LESS: [Mark; 4] = [
    Mark::ShiftLeftAssign,
    Mark::LessEqual,
    Mark::ShiftLeft,
    Mark::Less,
];

/// The marks that begin with `>`, each before those that begin it.
pub const MARKS_FROM_GREATER: [Mark; 6] = [
    Mark::ShiftRightUnsignedAssign,
    Mark::ShiftRightUnsigned,
    Mark::ShiftRightAssign,
    Mark::GreaterEqual,
    Mark::ShiftRight,
    Mark::Greater,
];

/// How a mark is written.
fn spelling(mark: Mark) -> &'static [char]
    ensures { result.now ≡ s.mark_spelling mark }
{
    match mark {
        Mark::LeftBrace => &['{'],
        Mark::RightBrace => &['}'],
        Mark::LeftParen => &['('],
        Mark::RightParen => &[')'],
        Mark::LeftBracket => &['['],
        Mark::RightBracket => &[']'],
        Mark::Semicolon => &[';'],
        Mark::Comma => &[','],
        Mark::Dot => &['.'],
        Mark::Colon => &[':'],
        Mark::Question => &['?'],
        Mark::Coalesce => &['?', '?'],
        Mark::Plus => &['+'],
        Mark::Minus => &['-'],
        Mark::Star => &['*'],
        Mark::Slash => &['/'],
        Mark::Percent => &['%'],
        Mark::Increment => &['+', '+'],
        Mark::Decrement => &['-', '-'],
        Mark::Assign => &['='],
        Mark::PlusAssign => &['+', '='],
        Mark::MinusAssign => &['-', '='],
        Mark::StarAssign => &['*', '='],
        Mark::SlashAssign => &['/', '='],
        Mark::PercentAssign => &['%', '='],
        Mark::Equal => &['=', '='],
        Mark::NotEqual => &['!', '='],
        Mark::StrictEqual => &['=', '=', '='],
        Mark::StrictNotEqual => &['!', '=', '='],
        Mark::Less => &['<'],
        Mark::Greater => &['>'],
        Mark::LessEqual => &['<', '='],
        Mark::GreaterEqual => &['>', '='],
        Mark::And => &['&', '&'],
        Mark::Or => &['|', '|'],
        Mark::Not => &['!'],
        Mark::BitAnd => &['&'],
        Mark::BitOr => &['|'],
        Mark::BitXor => &['^'],
        Mark::BitNot => &['~'],
        Mark::ShiftLeft => &['<', '<'],
        Mark::ShiftRight => &['>', '>'],
        Mark::ShiftRightUnsigned => &['>', '>', '>'],
        Mark::BitAndAssign => &['&', '='],
        Mark::BitOrAssign => &['|', '='],
        Mark::BitXorAssign => &['^', '='],
        Mark::ShiftLeftAssign => &['<', '<', '='],
        Mark::ShiftRightAssign => &['>', '>', '='],
        Mark::ShiftRightUnsignedAssign => &['>', '>', '>', '='],
        Mark::Arrow => &['=', '>'],
    }
}

/// What stands behind these characters at the front.
fn behind_all<'a>(text: &'a str, characters: &[char]) -> Option<&'a str>
    ensures { MatchOption result (s.behind_all (chars text.now) characters.now ≡ None)
        (λ r. s.behind_all (chars text.now) characters.now ≡ Some (chars r.now)) }
{
    let mut rest = text;
    for character in characters {
        let (first, behind) = split_first_char(rest)?;
        if first != *character {
            return None;
        }
        rest = behind;
    }
    Some(rest)
}

/// The first of these marks that stands at the front, and what stands behind it.
fn first_of<'a>(marks: &[Mark], text: &'a str) -> Option<(Mark, &'a str)>
    ensures { GivesPart result (s.first_of marks.now (chars text.now)) }
{
    for mark in marks {
        if let Some(behind) = behind_all(text, spelling(*mark)) {
            return Some((*mark, behind));
        }
    }
    None
}

/// The marks among which one that begins with this character has to be looked for.
#[tactic(auto, using(crate::proofs::FirstLemmas::marks_by_first))]
fn marks_from(first: char) -> &'static [Mark]
    ensures { (xs : List ℕ) → s.first_of result.now (first ∷ xs) ≡ s.first_of MARKS (first ∷ xs) }
{
    match first {
        ':' => &[Mark::Colon],
        '.' => &[Mark::Dot],
        '(' => &[Mark::LeftParen],
        ')' => &[Mark::RightParen],
        '{' => &[Mark::LeftBrace],
        '}' => &[Mark::RightBrace],
        ';' => &[Mark::Semicolon],
        ',' => &[Mark::Comma],
        '[' => &[Mark::LeftBracket],
        ']' => &[Mark::RightBracket],
        '~' => &[Mark::BitNot],
        '-' => &[Mark::Decrement, Mark::MinusAssign, Mark::Minus],
        '+' => &[Mark::Increment, Mark::PlusAssign, Mark::Plus],
        '*' => &[Mark::StarAssign, Mark::Star],
        '/' => &[Mark::SlashAssign, Mark::Slash],
        '=' => &[Mark::StrictEqual, Mark::Equal, Mark::Arrow, Mark::Assign],
        '<' => &MARKS_FROM_LESS,
        '>' => &MARKS_FROM_GREATER,
        '!' => &[Mark::StrictNotEqual, Mark::NotEqual, Mark::Not],
        '&' => &[Mark::And, Mark::BitAndAssign, Mark::BitAnd],
        '|' => &[Mark::Or, Mark::BitOrAssign, Mark::BitOr],
        '?' => &[Mark::Coalesce, Mark::Question],
        '%' => &[Mark::PercentAssign, Mark::Percent],
        '^' => &[Mark::BitXorAssign, Mark::BitXor],
        _ => &MARKS,
    }
}

/// The longest mark that stands at the front, and what stands behind it.
#[tactic(auto, unfolding(crate::specs::Marks::mark))]
pub fn mark(text: &str) -> Option<(Mark, &str)>
    ensures { GivesPart result (s.mark (chars text.now)) }
{
    let (first, _) = split_first_char(text)?;
    first_of(marks_from(first), text)
}
