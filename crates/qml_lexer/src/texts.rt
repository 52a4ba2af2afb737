//! Texts between quotes.

ghost use Rattle.std.specs.Prelude.{◌≡◌, ◌≢◌, ◌<◌, length, MatchOption, IfSome};
ghost use Rattle.std.specs.Str.{chars};
ghost use Rattle.qml_lexer.specs.Texts as s;
ghost use Rattle.qml_lexer.specs.Reading.{GivesPart, Gives};

use crate::characters::{is_line_end, split_first_char};
use crate::fault::{Fault, LexCause};
use crate::numbers::first_digit;
use qml_text::{Text, TextBuilder};
use std::alloc::Global;

/// The unit that a single character stands for behind a backslash.
fn simple_escape(character: char) -> Option<u16>
    ensures { result ≡ s.simple_escape character }
{
    match character {
        'n' => Some(0x0a),
        'r' => Some(0x0d),
        't' => Some(0x09),
        'b' => Some(0x08),
        'f' => Some(0x0c),
        'v' => Some(0x0b),
        '0' => Some(0x00),
        '\\' => Some(0x5c),
        '\'' => Some(0x27),
        '"' => Some(0x22),
        _ => None,
    }
}

/// The unit of two hexadecimal digits.
fn two_digits(text: &str) -> Option<(u32, &str)>
    ensures value { GivesPart result (s.two_digits (chars text.now)) }
    ensures bound { IfSome result (λ p. p.0 < 256) }
    ensures shorter { IfSome result (λ p. length p.1.now < length text.now) }
{
    let (high, behind) = first_digit(text, 16)?;
    let (low, rest) = first_digit(behind, 16)?;
    Some((16 * high + low, rest))
}

/// The unit of four hexadecimal digits.
fn four_digits(text: &str) -> Option<(u32, &str)>
    ensures value { GivesPart result (s.four_digits (chars text.now)) }
    ensures bound { IfSome result (λ p. p.0 < 65536) }
    ensures shorter { IfSome result (λ p. length p.1.now < length text.now) }
{
    let (high, behind) = two_digits(text)?;
    let (low, rest) = two_digits(behind)?;
    Some((256 * high + low, rest))
}

/// The unit of the escape behind a backslash, and what stands behind it.
#[tactic(auto, unfolding(crate::specs::Texts::escape))]
fn escape(text: &str) -> Option<(u32, &str)>
    ensures value { GivesPart result (s.escape (chars text.now)) }
    ensures bound { IfSome result (λ p. p.0 < 65536) }
    ensures shorter { IfSome result (λ p. length p.1.now < length text.now) }
{
    let (first, behind) = split_first_char(text)?;
    if first == 'x' {
        return two_digits(behind);
    }
    if first == 'u' {
        return four_digits(behind);
    }
    let unit = simple_escape(first)?;
    Some((u32::from(unit), behind))
}

/// The text behind its opening quote, up to its closing one, and what stands behind that.
pub fn body(alloc: Global, quote: char, text: &str) -> Result<(Text, &str), Fault>
    requires { quote ≢ 92 }
    ensures { Gives result (s.body quote (chars text.now)) }
{
    let mut units = TextBuilder::new(alloc);
    let mut rest = text;
    while let Some((first, behind)) = split_first_char(rest) {
        if first == quote {
            return Ok((units.finish(alloc)?, behind));
        }
        if is_line_end(first) {
            return Err(Fault::Bad(LexCause::OpenText));
        }
        if first == '\\' {
            let Some((unit, after)) = escape(behind) else {
                return Err(Fault::Bad(LexCause::Escape));
            };
            units.push_unit(unit as u16)?;
            rest = after;
        } else {
            units.push_char(first)?;
            rest = behind;
        }
    }
    Err(Fault::Bad(LexCause::OpenText))
}
