//! Scripts.
ghost use Rattle.std.specs.Prelude.{◌≡◌, ◌^◌, ◌<◌, [], ◌∷◌, length, IfOk};
ghost use Rattle.std.specs.List.{list_all};
ghost use Rattle.std.specs.Option.{option_map};
ghost use Rattle.first_form.specs.Bounds.{AreLinesBelow};
ghost use Rattle.first_form.specs.Document.{names_of};
ghost use Rattle.first_form.specs.Pieces.{pieces_of};
ghost use Rattle.first_form.specs.Script.{signed_of, assigned_in, done_by, printed_by, deed_of, is_comment, is_blank, is_skipped, script_from, script_of};
ghost use Rattle.first_form.specs.Steps.{AddsLine, GivesLines};

use crate::blanks::{behind_front, line_alone};
use crate::document::LARGEST;
use crate::members::Program;
use crate::numbers::number;
use crate::pieces::cut_at;
use qml_model::{Deed, ScriptLine};
use sqlite_items::Items;
use std::alloc::{AllocError, Global};

/// A number, which may have a minus.
fn signed(text: &[u8]) -> Option<i64>
    ensures { result ≡ signed_of text.now }
{
    match text.split_first() {
        None => None,
        Some((b'-', digits)) => number(digits).map(|n| -(n as i64)),
        Some(_) => number(text).map(|n| n as i64),
    }
}

/// What `NAME = NUMBER` asks for.
fn assignment(program: &Program, bytes: &[u8]) -> Option<Deed>
    ensures { result ≡ assigned_in (names_of program.now) bytes.now }
{
    let halves = match cut_at(bytes, b" ") {
        Some(halves) => halves,
        None => return None,
    };
    let cell = match program.cell(halves.before) {
        Some(cell) => cell,
        None => return None,
    };
    let text = match behind_front(halves.after, b"= ") {
        Some(text) => text,
        None => return None,
    };
    signed(text).map(|value| Deed::Do { cell, value })
}

fn done(program: &Program, line: &[u8]) -> Option<Deed>
    ensures { result ≡ done_by (names_of program.now) line.now }
{
    match behind_front(line, b"do ") {
        Some(rest) => assignment(program, rest),
        None => None,
    }
}

fn printed(program: &Program, line: &[u8]) -> Option<Deed>
    ensures { result ≡ printed_by (names_of program.now) line.now }
{
    match behind_front(line, b"print ") {
        Some(name) => program.cell(name).map(|cell| Deed::Print { cell }),
        None => None,
    }
}

/// What a line asks for.
#[tactic(auto, unfolding(crate::specs::Script::deed_of))]
fn deed(program: &Program, line: &[u8]) -> Option<Deed>
    ensures { result ≡ deed_of (names_of program.now) line.now }
{
    match printed(program, line) {
        Some(deed) => Some(deed),
        None => done(program, line),
    }
}

fn comments(line: &[u8]) -> bool
    ensures { result ≡ is_comment line.now }
{
    match line.first() {
        Some(b) => *b == b'#',
        None => false,
    }
}

fn blank(b: u8) -> bool
    ensures { result ≡ is_blank b }
{
    b == b' ' || b == b'\t' || b == 11 || b == 12
}

fn only_blanks(line: &[u8]) -> bool
    ensures { result ≡ list_all is_blank line.now }
{
    line.iter().all(|b| blank(*b))
}

fn left_out(line: &[u8]) -> bool
    ensures { result ≡ is_skipped line.now }
{
    comments(line) || only_blanks(line)
}

/// Adds what a line asks for. False says that it is outside the form.
fn add_line(
    alloc: Global,
    program: &Program,
    line: &[u8],
    lines: &mut Vec<ScriptLine>,
) -> Result<bool, AllocError>
    ensures { IfOk result (λ good. AddsLine good (names_of program.now) lines.old.items lines.new.items line.now) }
{
    if left_out(line) {
        return Ok(true);
    }
    match deed(program, line) {
        Some(deed) => {
            lines.push(ScriptLine {
                shown: Items::from_slice(alloc, line)?,
                deed,
            })?;
            Ok(true)
        }
        None => Ok(false),
    }
}

fn script_lines(
    alloc: Global,
    program: &Program,
    bytes: &[u8],
) -> Result<Result<Vec<ScriptLine>, u32>, AllocError>
    requires { length bytes.now < 2 ^ 31 }
    ensures { IfOk result (λ read. GivesLines read (script_from (names_of program.now) 1 (pieces_of (10 ∷ []) bytes.now))) }
{
    let mut lines = Vec::new(alloc);
    let mut n = 1;
    let mut rest = bytes;
    'lines: while let Some(found) = cut_at(rest, b"\n") {
        if !add_line(alloc, program, line_alone(found.before), &mut lines)? {
            return Ok(Err(n));
        }
        n += 1;
        rest = found.after;
    }
    if add_line(alloc, program, rest, &mut lines)? {
        Ok(Ok(lines))
    } else {
        Ok(Err(n))
    }
}

/// The lines of a script with what each asks for (specs/ScriptForm), or the number, from 1 on, of the first that is neither left out
/// nor of the form. Want of memory is the only error.
/// Each cell is one of a member, and each number at most 2^53.
/// A script of more than `LARGEST` bytes is refused as line 0.
#[tactic(auto, unfolding(crate::specs::Script::script_of))]
pub fn read_script(
    alloc: Global,
    program: &Program,
    bytes: &[u8],
) -> Result<Result<Vec<ScriptLine>, u32>, AllocError>
    ensures exact { IfOk result (λ read. GivesLines read (script_of (names_of program.now) bytes.now)) }
    ensures below { IfOk result (λ read. IfOk read (λ lines. AreLinesBelow (length program.now) lines.items)) }
{
    if bytes.len() > LARGEST {
        return Ok(Err(0));
    }
    script_lines(alloc, program, bytes)
}
