//! The lines of a script.

ghost use Rattle.std.specs.Prelude.{◌≡◌, ◌≤◌, ◌<◌, ◌^◌, ◌+◌, length, IfOk, List, ℕ};
ghost use Rattle.event_script.specs.Script.{IsAnswer};
ghost use Rattle.event_script.specs.Adding.{Adds, AddsText, Reads};
ghost use Rattle.std.specs.Str.{chars};
ghost use Rattle.qml_text.specs.Utf.{encode_utf16_all};
ghost use Rattle.event_script.specs.Lines.{lines_of};
ghost use Rattle.qml_lexer.specs.Places.{body_of};

use crate::kinds::asked;
use crate::lines::split_line;
use crate::words::{split_word, trimmed};
use qml_base::{FILE_LIMIT, NoMemory};
use qml_lexer::begins_with;
use qml_text::Text;
use std::alloc::Global;
use thiserror::Error;

/// What a line asks for.
#[derive(Clone, Copy, Debug, PartialEq, Eq)]
pub enum LineKind {
    /// `do STATEMENTS`: the statements are run in the root's scope.
    Do,
    /// `advance N`: engine time goes on by so many milliseconds, at most 1,000,000,000,000.
    Advance(u64),
    /// `tick`: engine time comes up to one reading of the clock.
    Tick,
    /// `print`: every named cell of every live object.
    Print,
    /// `print PATH`: the value of names joined by dots, read in the root's scope.
    PrintPath,
}

/// A line that asks for something.
#[derive(Drop)]
pub struct Line {
    /// The line's number in the script, from 1 on.
    pub number: u32,
    pub what: LineKind,
    /// The whole line without its outer blanks.
    pub text: Text,
}

/// Why a script isn't read.
#[derive(Clone, Copy, Debug, PartialEq, Eq, Error)]
pub enum ScriptFault {
    /// It has more than 4 MiB.
    #[error("the script has more than 4 MiB")]
    TooLarge,
    /// The first line that is no comment, isn't blank, and asks for nothing; a line that isn't UTF-8 is one.
    #[error("line {line} asks for nothing that a script may ask for")]
    BadLine { line: u32 },
    /// There was no memory.
    #[error("there was no memory")]
    NoMemory,
}

/// The text in units.
fn copied(alloc: Global, text: &str) -> Result<Text, NoMemory>
    ensures { IfOk result (λ copy. copy ≡ encode_utf16_all (chars text.now)) }
{
    match Text::from_str(alloc, text) {
        Ok(copy) => Ok(copy),
        Err(_) => Err(NoMemory),
    }
}

/// Adds what a line without its outer blanks asks for, if it isn't blank. False says that it asks for nothing.
#[tactic(auto, using(crate::proofs::AddingLemmas::blank_text, crate::proofs::AddingLemmas::asking_text, crate::proofs::AddingLemmas::idle_text))]
fn add_text(alloc: Global, number: u32, text: &str, lines: &mut Vec<Line>) -> Result<bool, NoMemory>
    requires { length text.now ≤ 4194304 }
    ensures { IfOk result (λ good. AddsText number (chars text.now) lines.old.items lines.new.items good) }
{
    if text.is_empty() {
        return Ok(true);
    }
    let (word, rest) = split_word(text);
    match asked(alloc, word, rest)? {
        Some(what) => {
            let text = copied(alloc, text)?;
            lines.push(Line { number, what, text })?;
            Ok(true)
        }
        None => Ok(false),
    }
}

/// Adds what a line asks for, unless it is left out. False says that it is neither.
#[tactic(auto, using(crate::proofs::AddingLemmas::comment, crate::proofs::AddingLemmas::no_text, crate::proofs::AddingLemmas::line_by_text))]
fn add_line(
    alloc: Global,
    number: u32,
    line: &[u8],
    lines: &mut Vec<Line>,
) -> Result<bool, NoMemory>
    requires { length line.now ≤ 4194304 }
    ensures { IfOk result (λ good. Adds number line.now lines.old.items lines.new.items good) }
{
    match std::str::from_utf8(line) {
        Ok(text) => {
            if begins_with(text, '#') {
                return Ok(true);
            }
            add_text(alloc, number, trimmed(text), lines)
        }
        Err(_) => Ok(false),
    }
}

/// The lines of bytes without a byte order mark, or the number of the first bad one.
#[tactic(auto, using(crate::proofs::LineLemmas::starts, crate::proofs::LineLemmas::goes_on_at, crate::proofs::LineLemmas::fails_at, crate::proofs::LineLemmas::says_all_at, crate::proofs::LineLemmas::fails_last))]
fn read_lines(alloc: Global, bytes: &[u8]) -> Result<Result<Vec<Line>, u32>, NoMemory>
    requires { length bytes.now ≤ 4194304 }
    ensures { IfOk result (λ read. Reads (lines_of bytes.now) read) }
{
    let mut lines = Vec::new(alloc);
    let mut number = 1;
    let mut rest = bytes;
    'lines: while let Some((line, behind)) = split_line(rest) {
        if !add_line(alloc, number, line, &mut lines)? {
            return Ok(Err(number));
        }
        number += 1;
        rest = behind;
    }
    if add_line(alloc, number, rest, &mut lines)? {
        Ok(Ok(lines))
    } else {
        Ok(Err(number))
    }
}

/// U+FEFF in UTF-8.
const BYTE_ORDER_MARK: [u8; 3] = [0xef, 0xbb, 0xbf];

/// Bytes without the byte order mark at their start.
fn without_mark(bytes: &[u8]) -> &[u8]
    ensures body { result.now ≡ body_of bytes.now }
    ensures short { length result.now ≤ length bytes.now }
{
    if bytes.starts_with(&BYTE_ORDER_MARK) {
        &bytes[3..]
    } else {
        bytes
    }
}

/// The lines of a script that ask for something, in order. A script is UTF-8; a byte order mark at its start is skipped;
/// its lines end at LF, CR LF or CR. Blank lines and lines that begin with `#` are left out; of the others the outer
/// blanks are dropped.
///
/// `BadLine` comes exactly where some line is neither left out nor asks for something, with the first such line;
/// `TooLarge` exactly past 4 MiB.
pub fn read_script(alloc: Global, bytes: &[u8]) -> Result<Vec<Line>, ScriptFault>
    ensures { IsAnswer bytes.now result }
{
    if bytes.len() > FILE_LIMIT {
        return Err(ScriptFault::TooLarge);
    }
    match read_lines(alloc, without_mark(bytes)) {
        Ok(Ok(lines)) => Ok(lines),
        Ok(Err(line)) => Err(ScriptFault::BadLine { line }),
        Err(_) => Err(ScriptFault::NoMemory),
    }
}
