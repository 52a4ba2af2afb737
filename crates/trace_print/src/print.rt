//! The bytes of an entry.

ghost use Rattle.std.specs.Prelude.{◌≡◌, ◌++◌, IfOk, OnOk, codes, [], if◌then◌else◌};
ghost use Rattle.qml_text.specs.Parts.{join_of};
ghost use Rattle.std.specs.Fmt.{decimal};
ghost use Rattle.trace_print.specs.Shown.{shown, shown_object, shown_cell, shown_site, shown_cause};
ghost use Rattle.trace_print.specs.Entries.{shown_entry, shown_counts, shown_stats, shown_fault, shown_delivery, entry_bytes};

use crate::causes::{load_word_of, word_of};
use crate::entry::{Entry, Named, Site};
use crate::shown::{show_ascii, show_cell, show_number, show_place, show_site, show_word};
use crate::values::show_value;
use qml_base::{Cause, LoadCause, NoMemory, ObjNo, Place};
use qml_text::{Text, TextBuilder};
use qml_value::Value;
use std::alloc::Global;

/// The bytes of an entry: its line in UTF-8, with a line end. A surrogate that has no partner is written as U+FFFD.
pub fn print_entry(alloc: Global, entry: &Entry) -> Result<Vec<u8>, NoMemory>
    ensures { IfOk result (λ bytes. bytes.items ≡ entry_bytes entry.now) }
{
    match bytes_of(alloc, entry) {
        Ok(bytes) => Ok(bytes),
        Err(qml_text::NoMemory) => Err(NoMemory),
    }
}

fn bytes_of(alloc: Global, entry: &Entry) -> Result<Vec<u8>, qml_text::NoMemory>
    ensures { IfOk result (λ bytes. bytes.items ≡ entry_bytes entry.now) }
{
    let mut out = TextBuilder::new(alloc);
    show_entry(&mut out, entry)?;
    out.push_unit(10)?;
    let line = out.finish(alloc)?;
    line.to_utf8(alloc)
}

/// Adds a word, an object, a blank and a text.
fn show_act(
    out: &mut TextBuilder,
    word: &[u8],
    object: ObjNo,
    what: &Text,
) -> Result<(), qml_text::NoMemory>
    ensures { OnOk result (out.new ≡ out.old ++ word.now ++ shown_object object ++ codes " " ++ what.now) }
{
    show_word(out, word, object)?;
    show_ascii(out, b" ")?;
    out.append(what)
}

/// Adds a word and a text.
fn show_text(out: &mut TextBuilder, word: &[u8], text: &Text) -> Result<(), qml_text::NoMemory>
    ensures { OnOk result (out.new ≡ out.old ++ word.now ++ text.now) }
{
    show_ascii(out, word)?;
    out.append(text)
}

/// Adds a word and a number.
fn show_count(out: &mut TextBuilder, word: &[u8], number: u64) -> Result<(), qml_text::NoMemory>
    ensures { OnOk result (out.new ≡ out.old ++ word.now ++ decimal number) }
{
    show_ascii(out, word)?;
    show_number(out, number)
}

/// Adds a blank and a value.
fn show_blank_value(out: &mut TextBuilder, value: &Value) -> Result<(), qml_text::NoMemory>
    ensures { OnOk result (out.new ≡ out.old ++ codes " " ++ shown value.now) }
{
    show_ascii(out, b" ")?;
    show_value(out, value)
}

/// Adds a word, a cell, a blank and a value.
fn show_cell_value(
    out: &mut TextBuilder,
    word: &[u8],
    cell: &Named,
    value: &Value,
) -> Result<(), qml_text::NoMemory>
    ensures { OnOk result (out.new ≡ out.old ++ word.now ++ shown_cell cell.now ++ codes " " ++ shown value.now) }
{
    show_ascii(out, word)?;
    show_cell(out, cell)?;
    show_blank_value(out, value)
}

/// Adds why a file isn't loaded.
fn show_fault(
    out: &mut TextBuilder,
    file: &Text,
    place: Place,
    cause: LoadCause,
) -> Result<(), qml_text::NoMemory>
    ensures { OnOk result (out.new ≡ out.old ++ shown_fault file.now place cause) }
{
    out.append(file)?;
    show_ascii(out, b" ")?;
    show_place(out, place)?;
    show_ascii(out, b" ")?;
    show_ascii(out, load_word_of(cause))
}

/// Adds texts, with a blank between two.
fn show_texts(out: &mut TextBuilder, texts: &[Text]) -> Result<(), qml_text::NoMemory>
    ensures { OnOk result (out.new ≡ out.old ++ join_of (codes " ") texts.now) }
{
    let Some((first, rest)) = texts.split_first() else {
        return Ok(());
    };
    out.append(first)?;
    'rest: for text in rest {
        show_text(out, b" ", text)?;
    }
    Ok(())
}

/// What a host is refused for.
fn host_word_of(taken: bool) -> &'static [u8]
    ensures { result.now ≡ (if taken then codes "taken" else codes "missing") }
{
    if taken { b"taken" } else { b"missing" }
}

fn show_delivery(out: &mut TextBuilder, handler: &Option<Text>) -> Result<(), qml_text::NoMemory>
    ensures { OnOk result (out.new ≡ out.old ++ shown_delivery handler.now) }
{
    match handler {
        Some(handler) => out.append(handler),
        None => show_ascii(out, b"react"),
    }
}

/// What stands behind the line of a refused script.
fn not_yet_of(not_yet: bool) -> &'static [u8]
    ensures { result.now ≡ (if not_yet then codes " NotYet" else []) }
{
    if not_yet { b" NotYet" } else { b"" }
}

/// Adds at which line a script is refused.
fn show_refused_script(
    out: &mut TextBuilder,
    file: &Text,
    line: u32,
    not_yet: bool,
) -> Result<(), qml_text::NoMemory>
    ensures { OnOk result (out.new ≡ out.old ++ codes "refused " ++ file.now ++ codes " " ++ decimal line ++ (if not_yet then codes " NotYet" else [])) }
{
    show_text(out, b"refused ", file)?;
    show_count(out, b" ", u64::from(line))?;
    show_ascii(out, not_yet_of(not_yet))
}

/// Adds two words with their numbers.
#[tactic(auto, unfolding(crate::specs::Entries::shown_counts))]
fn show_counts(
    out: &mut TextBuilder,
    word: &[u8],
    number: u64,
    next: &[u8],
    count: u64,
) -> Result<(), qml_text::NoMemory>
    ensures { OnOk result (out.new ≡ out.old ++ shown_counts word.now number next.now count) }
{
    show_count(out, word, number)?;
    show_count(out, next, count)
}

/// Adds the statistics.
fn show_stats(
    out: &mut TextBuilder,
    objects: u64,
    events: u64,
    turns: u64,
    reports: u64,
) -> Result<(), qml_text::NoMemory>
    ensures { OnOk result (out.new ≡ out.old ++ shown_stats objects events turns reports) }
{
    show_counts(out, b"stats objects ", objects, b" events ", events)?;
    show_counts(out, b" turns ", turns, b" reports ", reports)
}

/// Adds when a timer fires.
fn show_firing(out: &mut TextBuilder, object: ObjNo, due: u64) -> Result<(), qml_text::NoMemory>
    ensures { OnOk result (out.new ≡ out.old ++ codes "fire " ++ shown_object object ++ codes " at " ++ decimal due) }
{
    show_word(out, b"fire ", object)?;
    show_count(out, b" at ", due)
}

/// Adds what is logged.
fn show_log(out: &mut TextBuilder, texts: &[Text]) -> Result<(), qml_text::NoMemory>
    ensures { OnOk result (out.new ≡ out.old ++ codes "log " ++ join_of (codes " ") texts.now) }
{
    show_ascii(out, b"log ")?;
    show_texts(out, texts)
}

/// Adds that something loops.
fn show_loop(out: &mut TextBuilder, cell: &Named) -> Result<(), qml_text::NoMemory>
    ensures { OnOk result (out.new ≡ out.old ++ codes "report loop " ++ shown_cell cell.now) }
{
    show_ascii(out, b"report loop ")?;
    show_cell(out, cell)
}

/// Adds what threw.
fn show_thrown(out: &mut TextBuilder, site: &Site, cause: Cause) -> Result<(), qml_text::NoMemory>
    ensures { OnOk result (out.new ≡ out.old ++ codes "report threw " ++ shown_site site.now ++ codes " " ++ shown_cause cause) }
{
    show_ascii(out, b"report threw ")?;
    show_site(out, site)?;
    show_ascii(out, b" ")?;
    show_ascii(out, word_of(cause))
}

/// Adds that a host isn't had.
fn show_host(out: &mut TextBuilder, object: ObjNo, taken: bool) -> Result<(), qml_text::NoMemory>
    ensures { OnOk result (out.new ≡ out.old ++ codes "report host " ++ shown_object object ++ codes " " ++ (if taken then codes "taken" else codes "missing")) }
{
    show_word(out, b"report host ", object)?;
    show_ascii(out, b" ")?;
    show_ascii(out, host_word_of(taken))
}

/// Adds that the file of a Loader isn't loaded.
fn show_unloaded(
    out: &mut TextBuilder,
    object: ObjNo,
    file: &Text,
    place: Place,
    cause: LoadCause,
) -> Result<(), qml_text::NoMemory>
    ensures { OnOk result (out.new ≡ out.old ++ codes "report load " ++ shown_object object ++ codes " " ++ shown_fault file.now place cause) }
{
    show_word(out, b"report load ", object)?;
    show_ascii(out, b" ")?;
    show_fault(out, file, place, cause)
}

/// Adds the value of a path.
fn show_path(out: &mut TextBuilder, path: &Text, value: &Value) -> Result<(), qml_text::NoMemory>
    ensures { OnOk result (out.new ≡ out.old ++ codes "print " ++ path.now ++ codes " " ++ shown value.now) }
{
    show_text(out, b"print ", path)?;
    show_blank_value(out, value)
}

/// Adds where the run stops past the limit.
fn show_past(out: &mut TextBuilder, site: &Site) -> Result<(), qml_text::NoMemory>
    ensures { OnOk result (out.new ≡ out.old ++ codes "stop past " ++ shown_site site.now) }
{
    show_ascii(out, b"stop past ")?;
    show_site(out, site)
}

/// Adds at which delivery the run stops.
fn show_nesting(
    out: &mut TextBuilder,
    object: ObjNo,
    handler: &Option<Text>,
) -> Result<(), qml_text::NoMemory>
    ensures { OnOk result (out.new ≡ out.old ++ codes "stop nesting " ++ shown_object object ++ codes " " ++ shown_delivery handler.now) }
{
    show_word(out, b"stop nesting ", object)?;
    show_ascii(out, b" ")?;
    show_delivery(out, handler)
}

/// Adds why a document is refused.
fn show_refused(
    out: &mut TextBuilder,
    file: &Text,
    place: Place,
    cause: LoadCause,
) -> Result<(), qml_text::NoMemory>
    ensures { OnOk result (out.new ≡ out.old ++ codes "refused " ++ shown_fault file.now place cause) }
{
    show_ascii(out, b"refused ")?;
    show_fault(out, file, place, cause)
}

/// Adds the line of an entry, without its line end.
fn show_entry(out: &mut TextBuilder, entry: &Entry) -> Result<(), qml_text::NoMemory>
    ensures { OnOk result (out.new ≡ out.old ++ shown_entry entry.now) }
{
    match entry {
        Entry::Line { shown } => show_text(out, b"> ", shown),
        Entry::Make { object, shown } => show_act(out, b"make ", *object, shown),
        Entry::Condemn(object) => show_word(out, b"condemn ", *object),
        Entry::Gone(object) => show_word(out, b"gone ", *object),
        Entry::Change { cell, value } => show_cell_value(out, b"change ", cell, value),
        Entry::React { object, what } => show_act(out, b"react ", *object, what),
        Entry::Call { object, handler } => show_act(out, b"call ", *object, handler),
        Entry::Fire { object, due } => show_firing(out, *object, *due),
        Entry::Log { texts } => show_log(out, texts.texts()),
        Entry::LoopReport(cell) => show_loop(out, cell),
        Entry::ThrewReport { site, cause } => show_thrown(out, site, *cause),
        Entry::HostReport { object, taken } => show_host(out, *object, *taken),
        Entry::LoadReport {
            object,
            file,
            place,
            cause,
        } => show_unloaded(out, *object, file, *place, *cause),
        Entry::PrintPath { path, value } => show_path(out, path, value),
        Entry::PrintCell { cell, value } => show_cell_value(out, b"", cell, value),
        Entry::StopPast(site) => show_past(out, site),
        Entry::StopNesting { object, handler } => show_nesting(out, *object, handler),
        Entry::StopTurns(turns) => show_count(out, b"stop turns ", u64::from(*turns)),
        Entry::StopObjects(limit) => show_count(out, b"stop objects ", u64::from(*limit)),
        Entry::RefusedDocument { file, place, cause } => show_refused(out, file, *place, *cause),
        Entry::RefusedScript {
            file,
            line,
            not_yet,
        } => show_refused_script(out, file, *line, *not_yet),
        Entry::ReadFailed { file } => show_text(out, b"read failed ", file),
        Entry::Stats {
            objects,
            events,
            turns,
            reports,
        } => show_stats(out, *objects, *events, *turns, *reports),
        Entry::End(status) => show_count(out, b"end ", u64::from(*status)),
    }
}
