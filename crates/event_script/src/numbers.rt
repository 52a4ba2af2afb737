//! Numbers of milliseconds.

ghost use Rattle.std.specs.Prelude.{◌≡◌, ◌<◌, ◌≤◌, ◌+◌, ◌*◌, ◌^◌, ℕ, true, false, MatchOption, IfSome};
ghost use Rattle.std.specs.List.{list_all};
ghost use Rattle.std.specs.Str.{chars};
ghost use Rattle.std.specs.Char.{digit_value, is_digit};
ghost use Rattle.qml_lexer.specs.Spells.{value_of, has_leading_zero};
ghost use Rattle.event_script.specs.Numbers.{IsCapped};
ghost use Rattle.event_script.specs.Script.{IsTime};

use qml_lexer::split_first_char;

/// The most that a line advances.
const MOST: u64 = 1_000_000_000_000;

/// The number that goes on with a digit. Past the most it only stays past it.
fn with_digit(value: u64, digit: u32) -> u64
    requires digit { digit < 10 }
    requires bound { value < 2 ^ 60 }
    ensures { (exact : ℕ) → IsCapped value exact → IsCapped result (10 * exact + digit) }
{
    if value > MOST {
        return value;
    }
    value * 10 + u64::from(digit)
}

/// What the digit is worth, if it is one.
fn digit_of(character: char) -> Option<u32>
    ensures value { MatchOption result (is_digit character 10 ≡ false) (λ d. (is_digit character 10 ≡ true) × (d ≡ digit_value character)) }
    ensures digit { IfSome result (λ d. d < 10) }
{
    character.to_digit(10)
}

/// The value of a text of digits, or a number past the most where it is past it; None where not all are digits.
fn digits(text: &str) -> Option<u64>
    ensures { MatchOption result (list_all (λ x. is_digit x 10) (chars text.now) ≡ false) (λ n. (list_all (λ x. is_digit x 10) (chars text.now) ≡ true) × IsCapped n (value_of 10 (chars text.now))) }
{
    let mut value = 0;
    let mut rest = text;
    while let Some((first, behind)) = split_first_char(rest) {
        let digit = digit_of(first)?;
        value = with_digit(value, digit);
        rest = behind;
    }
    Some(value)
}

/// Whether a zero stands before other characters.
fn has_leading_zero(text: &str) -> bool
    ensures { result ≡ has_leading_zero (chars text.now) }
{
    match split_first_char(text) {
        Some((first, behind)) => match split_first_char(behind) {
            Some(_) => first == '0',
            None => false,
        },
        None => false,
    }
}

/// The number of milliseconds that is written so: decimal digits without leading zeros, at most 1,000,000,000,000.
#[tactic(auto, using(crate::proofs::NumberLemmas::is_time, crate::proofs::NumberLemmas::is_too_much, crate::proofs::NumberLemmas::no_digits, crate::proofs::NumberLemmas::begins_with_zero, crate::proofs::NumberLemmas::is_empty, crate::proofs::WordLemmas::no_chars, crate::proofs::WordLemmas::some_chars))]
pub fn time(text: &str) -> Option<u64>
    ensures { MatchOption result ((n : ℕ) → IsTime n (chars text.now) → ⊥) (λ n. IsTime n (chars text.now)) }
{
    if text.is_empty() {
        return None;
    }
    if has_leading_zero(text) {
        return None;
    }
    match digits(text) {
        Some(value) => { if value <= MOST { Some(value) } else { None } }
        None => None,
    }
}
