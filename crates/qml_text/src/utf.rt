//! Texts read from UTF-8 and written as UTF-8.

ghost use Rattle.std.specs.Prelude.{◌≡◌, ◌<◌, ◌&&◌, true, [], ◌∷◌, ◌++◌, length, IfOk, IfSome, MatchOption, OnOk, Some};
ghost use Rattle.std.specs.Option.{unwrap_or};
ghost use Rattle.std.specs.Char.{encode_utf8};
ghost use Rattle.std.specs.Char.Utf16.{utf16_chars, utf16_lossy_chars, lone_unit_char, surrogate_pair_char, is_high_surrogate, is_low_surrogate};
ghost use Rattle.std.specs.Str.{encode_utf8_all};
ghost use Rattle.qml_text.specs.Utf.{encode_utf16_all, IsReadFromUtf8};
ghost use Rattle.std.specs.Str.{chars};

use crate::building::TextBuilder;
use crate::fault::{NoMemory, TextFault};
use crate::text::Text;
use std::alloc::Global;

/// U+FFFD, the character that stands for one that can't be written.
const REPLACEMENT: [u8; 3] = [0xef, 0xbf, 0xbd];

/// The units of these characters.
fn builder_of(alloc: Global, characters: &str) -> Result<TextBuilder, NoMemory>
    ensures { IfOk result (λ b. b ≡ encode_utf16_all (chars characters.now)) }
{
    let mut spelt = TextBuilder::with_capacity(alloc, characters.len())?;
    for character in characters.chars() {
        spelt.push_char(character)?;
    }
    Ok(spelt)
}

/// Whether two units are the two of one character: a high and a low surrogate (The Unicode Standard, 3.9, table 3-5).
fn is_pair(first: u16, second: u16) -> bool
    ensures { result ≡ (is_high_surrogate first && is_low_surrogate second) }
{
    0xd800 <= first && first < 0xdc00 && 0xdc00 <= second && second < 0xe000
}

/// The character of a pair.
fn pair_character(high: u16, low: u16) -> Option<char>
    requires { is_high_surrogate high && is_low_surrogate low ≡ true }
    ensures { result ≡ Some (surrogate_pair_char high low) }
{
    let above = (u32::from(high) - 0xd800) * 0x400 + (u32::from(low) - 0xdc00);
    char::from_u32(0x10000 + above)
}

/// The character of a unit that is in no pair, and None for a surrogate.
fn lone_character(unit: u16) -> Option<char>
    ensures { result ≡ lone_unit_char unit }
{
    char::from_u32(u32::from(unit))
}

/// The first character that the units spell, None where a surrogate without a partner stands, and the units behind it.
fn split_first_character(units: &[u16]) -> Option<(Option<char>, &[u16])>
    ensures value { MatchOption result (units.now ≡ []) (λ p. utf16_chars units.now ≡ p.0 ∷ utf16_chars p.1.now) }
    ensures shorter { IfSome result (λ p. length p.1.now < length units.now) }
{
    let (first, behind) = units.split_first()?;
    match behind.split_first() {
        Some((second, rest)) => {
            if is_pair(*first, *second) {
                Some((pair_character(*first, *second), rest))
            } else {
                Some((lone_character(*first), behind))
            }
        }
        None => Some((lone_character(*first), behind)),
    }
}

/// Writes a character, and U+FFFD for a surrogate that has no partner.
fn write_character(bytes: &mut Vec<u8>, character: Option<char>) -> Result<(), NoMemory>
    ensures { OnOk result (bytes.new.items ≡ bytes.old.items ++ encode_utf8 (unwrap_or character 0xFFFD)) }
{
    match character {
        Some(character) => {
            let mut room = [0; 4];
            bytes.extend_from_slice(character.encode_utf8(&mut room).as_bytes())?;
        }
        None => bytes.extend_from_slice(&REPLACEMENT)?,
    }
    Ok(())
}

impl Text {
    /// The text of these characters (ECMA-262, 11.1.2 CodePointsToString).
    #[tactic(auto, using(crate::proofs::UtfLemmas::ascii_spells_itself))]
    pub fn from_str(alloc: Global, characters: &str) -> Result<Text, NoMemory>
        ensures { IfOk result (λ t. t ≡ encode_utf16_all (chars characters.now)) }
    {
        if characters.is_ascii() {
            return Text::from_latin1(alloc, characters.as_bytes());
        }
        let spelt = builder_of(alloc, characters)?;
        spelt.finish(alloc)
    }

    /// The text of the characters that the bytes spell in UTF-8 (The Unicode Standard, 3.9, table 3-7), or `BadByte`
    /// exactly where the bytes aren't UTF-8.
    pub fn from_utf8(alloc: Global, bytes: &[u8]) -> Result<Text, TextFault>
        ensures { IsReadFromUtf8 bytes.now result }
    {
        match std::str::from_utf8(bytes) {
            Ok(characters) => Ok(Text::from_str(alloc, characters)?),
            Err(error) => Err(TextFault::BadByte {
                at: error.valid_up_to(),
            }),
        }
    }

    /// The UTF-8 bytes of the characters that the units spell. A surrogate that has no partner is written as U+FFFD,
    /// the bytes efbfbd.
    pub fn to_utf8(&self, alloc: Global) -> Result<Vec<u8>, NoMemory>
        ensures { IfOk result (λ bytes. bytes.items ≡ encode_utf8_all (utf16_lossy_chars self.now)) }
    {
        let mut bytes = Vec::with_capacity(alloc, self.len())?;
        let mut rest = self.units();
        while let Some((character, behind)) = split_first_character(rest) {
            write_character(&mut bytes, character)?;
            rest = behind;
        }
        Ok(bytes)
    }
}
