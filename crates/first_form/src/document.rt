//! Documents of one object with whole numbers.
ghost use Rattle.std.specs.Prelude.{◌≡◌, ◌^◌, ◌<◌, ◌≤◌, ◌+◌, [], ◌∷◌, length, IfOk, IfSome, OnOk};
ghost use Rattle.std.specs.Option.{option_map};
ghost use Rattle.first_form.specs.Bounds.{AreInOrder};
ghost use Rattle.first_form.specs.Document.{after_word, declared_name, with_value, member_of, names_of, members_in, members_at, members_of, in_braces, object_below, program_of};
ghost use Rattle.first_form.specs.Names.{is_new_name};
ghost use Rattle.first_form.specs.Pieces.{pieces_of};
ghost use Rattle.first_form.specs.Steps.{AddsMembers};

use crate::blanks::{
    alone, behind_front, behind_gap, behind_spaces, line_alone, only_spaces, split_word,
    starts_with_line_end,
};
use crate::members::Program;
use crate::names::may_be_name;
use crate::pieces::cut_at;
use crate::values::content;
use qml_base::FILE_LIMIT;
use std::alloc::{AllocError, Global};

/// How many bytes a document or a script may have.
pub const LARGEST: usize = FILE_LIMIT;

/// What follows this word, which stands behind spaces.
fn behind_word<'a>(bytes: &'a [u8], word: &[u8]) -> Option<&'a [u8]>
    ensures { option_map (λ rest. rest.now) result ≡ after_word word.now bytes.now }
{
    let (found, rest) = split_word(behind_spaces(bytes));
    if found == word { Some(rest) } else { None }
}

/// The name in `property int NAME`.
fn name_in(bytes: &[u8]) -> Option<&[u8]>
    ensures { option_map (λ name. name.now) result ≡ declared_name bytes.now }
{
    let kind = match behind_word(bytes, b"property") {
        Some(rest) => rest,
        None => return None,
    };
    match behind_word(kind, b"int") {
        Some(rest) => alone(rest),
        None => None,
    }
}

fn may_declare(program: &Program, name: &[u8]) -> bool
    ensures { result ≡ is_new_name (names_of program.now) name.now }
{
    may_be_name(name) && program.cell(name).is_none()
}

/// Declares a member of this name and value. False says that it is none.
fn declare(
    alloc: Global,
    program: &mut Program,
    name: &[u8],
    value: &[u8],
) -> Result<bool, AllocError>
    requires { length program.old < 2 ^ 32 }
    ensures exact { IfOk result (λ found. AddsMembers found program.old program.new (option_map (λ m. m ∷ []) (with_value (names_of program.old) name.now value.now))) }
    ensures few { OnOk result (length program.new ≤ length program.old + 1) }
{
    if !may_declare(program, name) {
        return Ok(false);
    }
    match content(alloc, program, value)? {
        Some(content) => {
            program.declare(Vec::from_slice(alloc, name)?, content)?;
            Ok(true)
        }
        None => Ok(false),
    }
}

/// Declares the member that this line is. False says that it is none.
#[tactic(auto, unfolding(crate::specs::Document::member_of))]
fn member(alloc: Global, program: &mut Program, line: &[u8]) -> Result<bool, AllocError>
    requires { length program.old < 2 ^ 32 }
    ensures exact { IfOk result (λ found. AddsMembers found program.old program.new (option_map (λ m. m ∷ []) (member_of (names_of program.old) line.now))) }
    ensures few { OnOk result (length program.new ≤ length program.old + 1) }
{
    let halves = match cut_at(line, b":") {
        Some(halves) => halves,
        None => return Ok(false),
    };
    match name_in(halves.before) {
        Some(name) => declare(alloc, program, name, halves.after),
        None => Ok(false),
    }
}

/// Declares the member in a line that the object's end or a line end ends, if there is one.
fn line_in(alloc: Global, program: &mut Program, line: &[u8]) -> Result<bool, AllocError>
    requires { length program.old < 2 ^ 32 }
    ensures exact { IfOk result (λ found. AddsMembers found program.old program.new (members_in (names_of program.old) line.now)) }
    ensures few { OnOk result (length program.new ≤ length program.old + 1) }
{
    if only_spaces(line) {
        Ok(true)
    } else {
        member(alloc, program, line)
    }
}

/// Declares the member in the line that this mark ends, if there is one.
fn line_at(alloc: Global, program: &mut Program, mark: u8, line: &[u8]) -> Result<bool, AllocError>
    requires { length program.old < 2 ^ 32 }
    ensures exact { IfOk result (λ found. AddsMembers found program.old program.new (members_at (names_of program.old) mark line.now)) }
    ensures few { OnOk result (length program.new ≤ length program.old + 1) }
{
    if mark == b'\n' {
        line_in(alloc, program, line_alone(line))
    } else {
        member(alloc, program, line)
    }
}

/// The members in lines that `;` and line ends end.
fn members(alloc: Global, bytes: &[u8]) -> Result<Option<Program>, AllocError>
    requires { length bytes.now < 2 ^ 32 }
    ensures { IfOk result (λ found. found ≡ members_of [] (pieces_of (59 ∷ 10 ∷ []) bytes.now)) }
{
    let mut program = Program::new(alloc);
    let mut rest = bytes;
    'lines: while let Some(found) = cut_at(rest, b";\n") {
        if !line_at(alloc, &mut program, found.mark, found.before)? {
            return Ok(None);
        }
        rest = found.after;
    }
    if line_in(alloc, &mut program, rest)? {
        Ok(Some(program))
    } else {
        Ok(None)
    }
}

/// The members, from behind the opening brace.
fn object_in(alloc: Global, bytes: &[u8]) -> Result<Option<Program>, AllocError>
    requires { length bytes.now < 2 ^ 32 }
    ensures { IfOk result (λ found. found ≡ in_braces bytes.now) }
{
    match cut_at(bytes, b"}") {
        Some(halves) => {
            if behind_gap(halves.after).is_empty() {
                members(alloc, halves.before)
            } else {
                Ok(None)
            }
        }
        None => Ok(None),
    }
}

/// The object, where a line end stands before it.
fn object_under(alloc: Global, bytes: &[u8]) -> Result<Option<Program>, AllocError>
    requires { length bytes.now < 2 ^ 32 }
    ensures { IfOk result (λ found. found ≡ object_below bytes.now) }
{
    if !starts_with_line_end(behind_spaces(bytes)) {
        return Ok(None);
    }
    let named = match behind_front(behind_gap(bytes), b"QtObject") {
        Some(rest) => rest,
        None => return Ok(None),
    };
    match behind_front(behind_gap(named), b"{") {
        Some(rest) => object_in(alloc, rest),
        None => Ok(None),
    }
}

/// The members of the root, where the bytes are a document of this form (specs/DocumentForm); None says that they are not.
/// Numbers are at most 2^53, and each member reads only members before it. Want of memory is the only error.
/// Qt 5.15, "QML Documents", and "QML Object Attributes", Defining Property Attributes.
#[tactic(auto, unfolding(crate::specs::Document::program_of))]
pub fn read_document(alloc: Global, bytes: &[u8]) -> Result<Option<Program>, AllocError>
    ensures exact { IfOk result (λ found. found ≡ program_of bytes.now) }
    ensures in_order { IfOk result (λ found. IfSome found (AreInOrder 0)) }
{
    if bytes.len() > LARGEST {
        return Ok(None);
    }
    match behind_front(bytes, b"import QtQml 2.15") {
        Some(rest) => object_under(alloc, rest),
        None => Ok(None),
    }
}
