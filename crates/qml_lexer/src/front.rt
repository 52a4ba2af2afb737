//! What stands at the front of a text.

ghost use Rattle.std.specs.Prelude.{◌≡◌, ◌≢◌, ◌∷◌, MatchOption, true, false};
ghost use Rattle.std.specs.Str.{chars};
ghost use Rattle.qml_lexer.specs.Characters as c;
ghost use Rattle.qml_lexer.specs.Front as s;
ghost use Rattle.qml_lexer.specs.Reading.{Puts};

use crate::characters::{
    Blanks, InLine, Parts, Plain, begins_with, behind_run, is_blank, is_quote, is_start,
    split_first_char, split_run,
};
use crate::fault::{Fault, LexCause};
use crate::found::{Piece, Spot, put};
use crate::marks::mark;
use crate::names::put_name;
use crate::numbers::number;
use crate::texts::body;
use qml_syntax::{Token, TokenKind};
use qml_text::Text;
use std::alloc::Global;

/// What stands behind the end of a comment that was opened before the text.
fn behind_comment(text: &str) -> Option<&str>
    ensures { MatchOption result (s.behind_comment false (chars text.now) ≡ None)
        (λ r. s.behind_comment false (chars text.now) ≡ Some (chars r.now)) }
{
    let mut after_star = false;
    let mut rest = text;
    while let Some((first, behind)) = split_first_char(rest) {
        if after_star && first == '/' {
            return Some(behind);
        }
        after_star = first == '*';
        rest = behind;
    }
    None
}

/// Puts the mark at the front.
#[tactic(auto, unfolding(crate::specs::Front::marked))]
fn marked<'a>(text: &'a str, spot: Spot, found: &mut Vec<Token>) -> Result<(Piece, &'a str), Fault>
    ensures { Puts spot found.old.items found.new.items result (s.marked (chars text.now)) }
{
    match mark(text) {
        Some((what, behind)) => {
            put(found, spot, TokenKind::Mark(what))?;
            Ok((Piece::Token, behind))
        }
        None => Err(Fault::Bad(LexCause::Character)),
    }
}

/// Reads the comment, or puts the mark, that begins with the slash at the front of `text`, behind which `behind` stands.
#[tactic(auto, unfolding(crate::specs::Front::slash))]
fn slash<'a>(
    text: &'a str,
    behind: &'a str,
    spot: Spot,
    found: &mut Vec<Token>,
) -> Result<(Piece, &'a str), Fault>
    requires { chars text.now ≡ 47 ∷ chars behind.now }
    ensures { Puts spot found.old.items found.new.items result (s.slash (chars behind.now)) }
{
    if begins_with(behind, '/') {
        return Ok((Piece::Gap, behind_run(behind, &InLine)));
    }
    match split_first_char(behind) {
        Some(('*', opened)) => match behind_comment(opened) {
            Some(rest) => Ok((Piece::Gap, rest)),
            None => Err(Fault::Bad(LexCause::OpenComment)),
        },
        _ => marked(text, spot, found),
    }
}

/// Puts the text that begins with a quote in front of `behind`, and that may have escapes.
#[tactic(auto, unfolding(crate::specs::Front::quoted))]
fn quoted_with_escapes<'a>(
    alloc: Global,
    quote: char,
    behind: &'a str,
    spot: Spot,
    found: &mut Vec<Token>,
) -> Result<(Piece, &'a str), Fault>
    requires { quote ≢ 92 }
    ensures { Puts spot found.old.items found.new.items result (s.quoted quote (chars behind.now)) }
{
    match body(alloc, quote, behind) {
        Ok((units, rest)) => {
            put(found, spot, TokenKind::Text(units))?;
            Ok((Piece::Token, rest))
        }
        Err(fault) => Err(fault),
    }
}

/// Puts the text that begins with a quote in front of `behind`.
fn quoted<'a>(
    alloc: Global,
    quote: char,
    behind: &'a str,
    spot: Spot,
    found: &mut Vec<Token>,
) -> Result<(Piece, &'a str), Fault>
    requires { c.is_quote quote ≡ true }
    ensures { Puts spot found.old.items found.new.items result (s.quoted quote (chars behind.now)) }
{
    let (plain, rest) = split_run(behind, &Plain);
    match split_first_char(rest) {
        Some((first, after)) if first == quote => {
            let units = Text::from_str(alloc, plain)?;
            put(found, spot, TokenKind::Text(units))?;
            Ok((Piece::Token, after))
        }
        _ => quoted_with_escapes(alloc, quote, behind, spot, found),
    }
}

/// Puts the name or reserved word at the front.
fn named<'a>(
    alloc: Global,
    text: &'a str,
    spot: Spot,
    found: &mut Vec<Token>,
) -> Result<(Piece, &'a str), Fault>
    ensures { Puts spot found.old.items found.new.items result (s.named (chars text.now)) }
{
    let (spelt, rest) = split_run(text, &Parts);
    put_name(alloc, spelt, spot, found)?;
    Ok((Piece::Token, rest))
}

/// Puts the number or version at the front.
#[tactic(auto, unfolding(crate::specs::Front::numbered))]
fn numbered<'a>(
    text: &'a str,
    spot: Spot,
    found: &mut Vec<Token>,
) -> Result<(Piece, &'a str), Fault>
    ensures { Puts spot found.old.items found.new.items result (s.numbered (chars text.now)) }
{
    match number(text) {
        Ok((what, rest)) => {
            put(found, spot, what)?;
            Ok((Piece::Token, rest))
        }
        Err(cause) => Err(Fault::Bad(cause)),
    }
}

/// Reads what stands at the front of a text that isn't at its end. Where it is a token, it is put behind those found
/// before. Answers what stands behind it.
#[tactic(auto, unfolding(crate::specs::Front::front))]
pub fn front<'a>(
    alloc: Global,
    text: &'a str,
    spot: Spot,
    found: &mut Vec<Token>,
) -> Result<(Piece, &'a str), Fault>
    ensures { Puts spot found.old.items found.new.items result (s.front (chars text.now)) }
{
    let Some((first, behind)) = split_first_char(text) else {
        return Err(Fault::Bad(LexCause::Character));
    };
    if is_blank(first) {
        return Ok((Piece::Gap, behind_run(behind, &Blanks)));
    }
    if first == '/' {
        return slash(text, behind, spot, found);
    }
    if is_quote(first) {
        return quoted(alloc, first, behind, spot, found);
    }
    if first.is_digit(10) {
        return numbered(text, spot, found);
    }
    if is_start(first) {
        return named(alloc, text, spot, found);
    }
    marked(text, spot, found)
}
