//! A signal of an object by its number.

ghost use Rattle.std.specs.Prelude.{◌≡◌, IfOk, option_copied};
ghost use Rattle.std.specs.List.{find, flat_map};
ghost use Rattle.unit_rows.specs.Seen.{all_seen};
ghost use Rattle.machine_model.specs.Dispatch.{names_written};
ghost use Rattle.written_names.specs.Written.{names_of_root, is_signal_no, has_number};

use crate::names::{declared, documents_below};
use instance_contents::builtin_of;
use instance_plans::Planned;
use instancing::type_at;
use qml_base::NoMemory;
use qml_types::TypeNo;
use std::alloc::Global;
use type_rows::TypeRows;
use unit_rows::{NameFinds, NameRow, SignalRef, Unit};

/// Whether a signal has the number: the change of the cell of a place has twice the place, an own one twice its number and one.
pub fn is_signal(signal: &SignalRef, number: u32) -> bool
    ensures { result ≡ has_number number signal.now }
{
    match signal {
        SignalRef::Change(place) => 2 * *place as u64 == number as u64,
        SignalRef::Own(n) => 2 * *n as u64 + 1 == number as u64,
        _ => number == 0,
    }
}

/// Whether a name finds the signal of a number.
fn is_signal_row(row: &NameRow, number: u32) -> bool
    ensures { result ≡ is_signal_no number row.now }
{
    match &row.finds {
        NameFinds::Signal(signal, _) => is_signal(signal, number),
        _ => false,
    }
}

/// The first of these rows that finds the signal.
fn signal_in(rows: &[NameRow], number: u32) -> Option<&NameRow>
    ensures { option_copied result ≡ find (is_signal_no number) rows.now }
{
    'rows: for row in rows {
        if is_signal_row(row, number) {
            return Some(row);
        }
    }
    None
}

/// The first row so of the roots of these documents.
fn signal_of_documents<'a>(units: &'a [Unit], documents: &[u32], number: u32) -> Option<&'a NameRow>
    ensures { option_copied result ≡ find (is_signal_no number) (flat_map (names_of_root (all_seen units.now)) documents.now) }
{
    'documents: for document in documents {
        let found = signal_in(declared(units, *document, 0), number);
        if found.is_some() {
            return found;
        }
    }
    None
}

/// The row of the signal of a number that an object has as it is written; a Component that is made around one has those of its type.
#[tactic(auto, using(crate::proofs::FindLemmas::find_three))]
pub fn find_signal<'a>(
    alloc: Global,
    types: &'a TypeRows,
    units: &'a [Unit],
    x: Planned,
    number: u32,
) -> Result<Option<&'a NameRow>, NoMemory>
    ensures { IfOk result (λ row. option_copied row ≡ find (is_signal_no number) (names_written (all_seen units.now) x)) }
{
    if x.is_around {
        return Ok(signal_in(types.of(TypeNo::Component), number));
    }
    let of_type = type_at(units, x.unit, x.object);
    let in_type = signal_in(types.of(builtin_of(units, of_type)), number);
    if in_type.is_some() {
        return Ok(in_type);
    }
    let documents = documents_below(alloc, units, of_type)?;
    let in_documents = signal_of_documents(units, documents.as_slice(), number);
    if in_documents.is_some() {
        return Ok(in_documents);
    }
    Ok(signal_in(declared(units, x.unit, x.object), number))
}
