//! Objects, cells, places and sites, as the trace shows them.

ghost use Rattle.std.specs.Prelude.{◌≡◌, ◌++◌, OnOk, codes, if◌then◌else◌};
ghost use Rattle.std.specs.Fmt.{decimal};
ghost use Rattle.trace_print.specs.Shown.{shown_object, shown_cell, shown_site, shown_place};

use crate::entry::{Named, Site};
use itoa::Buffer;
use qml_base::{ObjNo, Place};
use qml_text::{NoMemory, TextBuilder};

/// Adds the characters of these bytes, which are ASCII.
pub fn show_ascii(out: &mut TextBuilder, bytes: &[u8]) -> Result<(), NoMemory>
    ensures { OnOk result (out.new ≡ out.old ++ bytes.now) }
{
    'bytes: for byte in bytes {
        out.push_unit(u16::from(*byte))?;
    }
    Ok(())
}

/// Adds a number in decimal digits.
pub fn show_number(out: &mut TextBuilder, number: u64) -> Result<(), NoMemory>
    ensures { OnOk result (out.new ≡ out.old ++ decimal number) }
{
    let mut digits = Buffer::new();
    show_ascii(out, digits.format(number).as_bytes())
}

/// Adds an object.
pub fn show_object(out: &mut TextBuilder, object: ObjNo) -> Result<(), NoMemory>
    ensures { OnOk result (out.new ≡ out.old ++ shown_object object) }
{
    show_ascii(out, b"#")?;
    show_number(out, u64::from(object.0))
}

/// Adds a word and an object.
pub fn show_word(out: &mut TextBuilder, word: &[u8], object: ObjNo) -> Result<(), NoMemory>
    ensures { OnOk result (out.new ≡ out.old ++ word.now ++ shown_object object) }
{
    show_ascii(out, word)?;
    show_object(out, object)
}

/// The mark between an object and a name of one of its cells.
fn mark_of(delegate: bool) -> &'static [u8]
    ensures { result.now ≡ (if delegate then codes "@" else codes ".") }
{
    if delegate { b"@" } else { b"." }
}

/// Adds a cell.
pub fn show_cell(out: &mut TextBuilder, cell: &Named) -> Result<(), NoMemory>
    ensures { OnOk result (out.new ≡ out.old ++ shown_cell cell.now) }
{
    show_object(out, cell.object)?;
    show_ascii(out, mark_of(cell.delegate))?;
    out.append(&cell.name)
}

/// Adds where something threw or came past the limit.
pub fn show_site(out: &mut TextBuilder, site: &Site) -> Result<(), NoMemory>
    ensures { OnOk result (out.new ≡ out.old ++ shown_site site.now) }
{
    match site {
        Site::Cell(cell) => show_cell(out, cell),
        Site::Handler(object, handler) => {
            show_object(out, *object)?;
            show_ascii(out, b".")?;
            out.append(handler)
        }
        Site::Do => show_ascii(out, b"do"),
        Site::Print => show_ascii(out, b"print"),
    }
}

/// Adds a place in a file.
pub fn show_place(out: &mut TextBuilder, place: Place) -> Result<(), NoMemory>
    ensures { OnOk result (out.new ≡ out.old ++ shown_place place) }
{
    show_number(out, u64::from(place.line))?;
    show_ascii(out, b":")?;
    show_number(out, u64::from(place.column))
}
