//! The tokens of bytes.

ghost use Rattle.std.specs.Prelude.{◌≡◌, ◌≤◌, ◌<◌, ◌+◌, length, MatchResult};
ghost use Rattle.std.specs.Str.{chars};
ghost use Rattle.qml_lexer.specs.Lex as s;
ghost use Rattle.qml_lexer.specs.Lex.{IsAnswer, IsUnread};
ghost use Rattle.qml_lexer.specs.Turns.{Turns, IsBodyAnswer};
ghost use Rattle.qml_lexer.specs.Places.{body_of};

use crate::characters::split_first_char;
use crate::fault::{Fault, LexCause, LexFault};
use crate::found::{Piece, Spot, put};
use crate::front::front;
use crate::lines::{Line, MOST_BYTES, line_of};
use qml_syntax::{Token, TokenKind};
use std::alloc::Global;

/// The mark that may stand at the start of UTF-8, U+FEFF.
const BYTE_ORDER_MARK: [u8; 3] = [0xef, 0xbb, 0xbf];

/// How far a text is read: how many of its bytes, how many of them up to the end of the last token, and the line there.
#[derive(Clone, Copy, Debug, PartialEq, Eq)]
pub struct Cursor {
    pub at: usize,
    pub token_end: usize,
    pub line: Line,
}

/// The text behind a byte order mark.
fn without_mark(text: &str) -> &str
    ensures { result.now ≡ body_of text.now }
{
    match split_first_char(text) {
        Some((first, behind)) => { if first == '\u{feff}' { behind } else { text } }
        None => text,
    }
}

/// Where a token at a cursor begins.
fn spot(cursor: Cursor) -> Spot
    requires start { cursor.line.start ≤ cursor.at }
    requires bound { cursor.at ≤ MOST_BYTES }
    ensures { result ≡ s.spot cursor }
{
    Spot {
        place: cursor.line.place(cursor.at),
        after_line: cursor.token_end < cursor.line.start,
    }
}

/// Reads what stands at the cursor, where `rest` is what stands there, and answers the cursor behind it and what stands
/// there.
fn turn<'a>(
    alloc: Global,
    body: &str,
    rest: &'a str,
    cursor: Cursor,
    found: &mut Vec<Token>,
) -> Result<(Cursor, &'a str), LexFault>
    requires bound { length body.now ≤ MOST_BYTES }
    requires some { 0 < length rest.now }
    requires here { cursor.at + length rest.now ≡ length body.now }
    requires line { s.IsAt body.now cursor }
    ensures { Turns body.now rest.now cursor found.old.items found.new.items result }
{
    match front(alloc, rest, spot(cursor), found) {
        Ok((piece, behind)) => {
            let at = body.len() - behind.len();
            let line = line_of(body.as_bytes(), cursor.line, cursor.at, at);
            let token_end = match piece {
                Piece::Gap => cursor.token_end,
                Piece::Token => at,
            };
            Ok((
                Cursor {
                    at,
                    token_end,
                    line,
                },
                behind,
            ))
        }
        Err(Fault::NoMemory) => Err(LexFault::NoMemory),
        Err(Fault::Bad(cause)) => Err(LexFault::Bad {
            place: cursor.line.place(cursor.at),
            cause,
        }),
    }
}

/// The tokens of a text without a byte order mark.
fn lex_body(alloc: Global, body: &str) -> Result<Vec<Token>, LexFault>
    requires { length body.now ≤ MOST_BYTES }
    ensures { IsBodyAnswer body.now result }
{
    let mut found = Vec::new(alloc);
    let mut rest = body;
    let mut cursor = Cursor {
        at: 0,
        token_end: 0,
        line: Line {
            number: 1,
            start: 0,
        },
    };
    while !rest.is_empty() {
        let (next, behind) = match turn(alloc, body, rest, cursor, &mut found) {
            Ok(after) => after,
            Err(fault) => return Err(fault),
        };
        cursor = next;
        rest = behind;
    }
    put(&mut found, spot(cursor), TokenKind::End)?;
    found.shrink_to_fit();
    Ok(found)
}

/// The fault of bytes that are UTF-8 up to the byte `at` and no further.
fn not_utf8(bytes: &[u8], at: usize) -> LexFault
    requires within { at ≤ length bytes.now }
    requires bound { length bytes.now ≤ MOST_BYTES }
    ensures { result ≡ s.not_utf8 bytes.now at }
{
    let (body, at) = if bytes.starts_with(&BYTE_ORDER_MARK) {
        (&bytes[3..], at.saturating_sub(3))
    } else {
        (bytes, at)
    };
    let first = Line {
        number: 1,
        start: 0,
    };
    let line = line_of(body, first, 0, at);
    LexFault::Bad {
        place: line.place(at),
        cause: LexCause::NotUtf8,
    }
}

/// The tokens of the bytes of a document, a script file or a body; at most 4 MiB. The last one is `End`.
///
/// `Bad` comes exactly where no token list reads the bytes, with the place of the first byte of the token or comment
/// that can't be read. Its cause is `NotUtf8` where the bytes aren't UTF-8, before all others and at the first byte
/// behind their longest prefix that is UTF-8. Else it goes by what begins there: a digit gives `Number`, `/*` gives
/// `OpenComment`, a quote gives `Escape` where a backslash that begins no escape comes before the end of the line, and
/// `OpenText` where none does, and anything else gives `Character`.
pub fn lex(alloc: Global, bytes: &[u8]) -> Result<Vec<Token>, LexFault>
    requires { length bytes.now ≤ MOST_BYTES }
    ensures answer { IsAnswer bytes.now result }
    ensures unread { IsUnread bytes.now result }
{
    match std::str::from_utf8(bytes) {
        Ok(text) => lex_body(alloc, without_mark(text)),
        Err(error) => Err(not_utf8(bytes, error.valid_up_to())),
    }
}
