//! Numbers and versions.

ghost use Rattle.std.specs.Prelude.{◌≡◌, ◌<◌, ◌≤◌, ◌+◌, ◌*◌, ◌^◌, ℕ, length, MatchOption, IfSome};
ghost use Rattle.std.specs.Str.{chars};
ghost use Rattle.std.specs.Char.{is_digit};
ghost use Rattle.qml_lexer.specs.Characters as c;
ghost use Rattle.qml_lexer.specs.Numbers as s;
ghost use Rattle.qml_lexer.specs.Numbers.{IsCapped};
ghost use Rattle.qml_lexer.specs.Reading.{GivesPart, GivesKind};

use crate::characters::{Parts, begins, begins_with, split_first_char};
use crate::fault::LexCause;
use qml_base::NUMBER_LIMIT;
use qml_syntax::TokenKind;

/// The greatest number, 2^53.
const GREATEST: u64 = NUMBER_LIMIT;

/// The value of the digit in a radix at the front, and what stands behind it.
pub fn first_digit(text: &str, radix: u32) -> Option<(u32, &str)>
    requires least { 2 ≤ radix }
    requires most { radix ≤ 36 }
    ensures value { GivesPart result (s.first_digit radix (chars text.now)) }
    ensures digit { IfSome result (λ p. p.0 < radix) }
    ensures shorter { IfSome result (λ p. length p.1.now < length text.now) }
{
    let (first, behind) = split_first_char(text)?;
    let digit = first.to_digit(radix)?;
    Some((digit, behind))
}

/// Whether a digit in a radix stands at the front.
pub fn begins_digit(text: &str, radix: u32) -> bool
    requires least { 2 ≤ radix }
    requires most { radix ≤ 36 }
    ensures { result ≡ c.begins (λ x. is_digit x radix) (chars text.now) }
{
    first_digit(text, radix).is_some()
}

/// The number that goes on with a digit. Past the greatest it only stays past it.
fn with_digit(value: u64, radix: u32, digit: u32) -> u64
    requires radix { radix ≤ 16 }
    requires some { 1 ≤ radix }
    requires digit { digit < radix }
    requires bound { value < 2 ^ 60 }
    ensures { (exact : ℕ) → IsCapped value exact → IsCapped result (radix * exact + digit) }
{
    if value > GREATEST {
        return value;
    }
    value * u64::from(radix) + u64::from(digit)
}

/// The value of the digits in a radix at the front, or a number past the greatest where it is past it, and what stands
/// behind them.
fn digits(text: &str, radix: u32) -> (u64, &str)
    requires least { 2 ≤ radix }
    requires most { radix ≤ 16 }
    ensures value { IsCapped result.0 (s.value_from radix 0 (chars text.now)) }
    ensures behind { chars result.1.now ≡ c.behind (λ x. is_digit x radix) (chars text.now) }
{
    let mut value = 0;
    let mut rest = text;
    while let Some((digit, behind)) = first_digit(rest, radix) {
        value = with_digit(value, radix, digit);
        rest = behind;
    }
    (value, rest)
}

/// The number whose digits in a radix stand at the front, unless it is past the greatest or a name character follows.
#[tactic(auto, unfolding(crate::specs::Numbers::whole))]
fn whole(text: &str, radix: u32) -> Result<(TokenKind, &str), LexCause>
    requires least { 2 ≤ radix }
    requires most { radix ≤ 16 }
    ensures { GivesKind result (s.whole radix (chars text.now)) }
{
    let (value, behind) = digits(text, radix);
    if value > GREATEST || begins(behind, &Parts) {
        return Err(LexCause::Number);
    }
    Ok((TokenKind::Number(value), behind))
}

/// What stands behind `0x` or `0X`.
fn behind_hexadecimal_mark(text: &str) -> Option<&str>
    ensures { MatchOption result (s.behind_hexadecimal_mark (chars text.now) ≡ None)
        (λ r. s.behind_hexadecimal_mark (chars text.now) ≡ Some (chars r.now)) }
{
    let (zero, behind) = split_first_char(text)?;
    let (x, digits) = split_first_char(behind)?;
    if zero == '0' && (x == 'x' || x == 'X') {
        Some(digits)
    } else {
        None
    }
}

/// What stands behind a dot, where a digit follows it.
fn behind_dot(text: &str) -> Option<&str>
    ensures { MatchOption result
        (s.behind_dot (chars text.now) ≡ None) (λ r. s.behind_dot (chars text.now) ≡ Some (chars r.now)) }
{
    let (dot, behind) = split_first_char(text)?;
    if dot == '.' && begins_digit(behind, 10) {
        Some(behind)
    } else {
        None
    }
}

/// Whether a zero stands before other digits.
fn begins_with_zero(text: &str) -> bool
    ensures { result ≡ s.begins_with_zero (chars text.now) }
{
    match split_first_char(text) {
        Some((first, behind)) => first == '0' && begins_digit(behind, 10),
        None => false,
    }
}

/// The number at the front that is no version.
fn plain_number(text: &str) -> Result<(TokenKind, &str), LexCause>
    ensures { GivesKind result (s.plain_number (chars text.now)) }
{
    match behind_hexadecimal_mark(text) {
        Some(digits) => {
            if begins_digit(digits, 16) {
                whole(digits, 16)
            } else {
                Err(LexCause::Number)
            }
        }
        None => {
            if begins_with_zero(text) {
                Err(LexCause::Number)
            } else {
                whole(text, 10)
            }
        }
    }
}

/// The number or version at the front of a text that begins with a digit.
#[tactic(auto, unfolding(crate::specs::Numbers::number))]
pub fn number(text: &str) -> Result<(TokenKind, &str), LexCause>
    ensures { GivesKind result (s.number (chars text.now)) }
{
    let (_, behind) = digits(text, 10);
    match behind_dot(behind) {
        Some(fraction) => {
            let (_, after) = digits(fraction, 10);
            Ok((TokenKind::Version, after))
        }
        None => plain_number(text),
    }
}
