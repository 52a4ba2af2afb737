//! Whether an object has a signal for which a handler is, by the handler's name.

ghost use Rattle.std.specs.Prelude.{◌≡◌, IfOk};
ghost use Rattle.std.specs.Str.{bytes_eq};
ghost use Rattle.std.specs.List.{list_any, flat_map};
ghost use Rattle.program_names.specs.Names.{handler_of as handler_for};
ghost use Rattle.unit_rows.specs.Seen.{all_seen};
ghost use Rattle.instance_plans.specs.Numbers.{row_at, documents_of};
ghost use Rattle.machine_model.specs.Dispatch.{names_written};
ghost use Rattle.written_names.specs.Written.{names_of_root};
ghost use Rattle.machine_reactions.specs.Unheard as s;

use instance_contents::{builtin_of, documents_from};
use instance_plans::Planned;
use instancing::{object, type_at};
use own_handlers::handler_of;
use qml_base::NoMemory;
use qml_text::Text;
use qml_types::{TypeNo, TypeRef};
use std::alloc::Global;
use type_rows::TypeRows;
use unit_rows::{NameFinds, NameRow, Unit};

/// Whether they are the same text.
#[tactic(auto, using(instance_contents::proofs::PlaceLemmas::same_bytes))]
fn is_same(a: &Text, b: &Text) -> bool
    ensures { result ≡ bytes_eq a.now b.now }
{
    a.same(b)
}

/// Whether the handler of a signal of this name has the other name.
fn is_handler_of(alloc: Global, name: &[u16], handler: &Text) -> Result<bool, NoMemory>
    ensures { IfOk result (λ b. b ≡ bytes_eq (handler_for name.now) handler.now) }
{
    let own = handler_of(alloc, name)?;
    Ok(is_same(&own, handler))
}

/// Whether a name finds a signal for which the handler is.
fn is_signal_of(alloc: Global, row: &NameRow, handler: &Text) -> Result<bool, NoMemory>
    ensures { IfOk result (λ b. b ≡ s.is_signal_of handler.now row.now) }
{
    match &row.finds {
        NameFinds::Signal(_, _) => is_handler_of(alloc, row.name.units(), handler),
        _ => Ok(false),
    }
}

/// Whether one of these names does.
fn is_among(alloc: Global, rows: &[NameRow], handler: &Text) -> Result<bool, NoMemory>
    ensures { IfOk result (λ b. b ≡ list_any (s.is_signal_of handler.now) rows.now) }
{
    'rows: for row in rows {
        let found = is_signal_of(alloc, row, handler)?;
        if found {
            return Ok(true);
        }
    }
    Ok(false)
}

/// The rows of the names that an object of a document declares.
fn declared(units: &[Unit], u: u32, o: u32) -> &[NameRow]
    ensures { result.now ≡ (row_at (all_seen units.now) u o).names }
{
    match object(units, u, o) {
        Some(row) => row.names.as_slice(),
        None => &[],
    }
}

/// Whether one of the names of the roots of these documents does.
fn is_among_roots(
    alloc: Global,
    units: &[Unit],
    documents: &[u32],
    handler: &Text,
) -> Result<bool, NoMemory>
    ensures { IfOk result (λ b. b ≡ list_any (s.is_signal_of handler.now) (flat_map (names_of_root (all_seen units.now)) documents.now)) }
{
    'documents: for document in documents {
        let found = is_among(alloc, declared(units, *document, 0), handler)?;
        if found {
            return Ok(true);
        }
    }
    Ok(false)
}

/// The documents that a type stands on, the lowest first.
fn documents_below(alloc: Global, units: &[Unit], of_type: TypeRef) -> Result<Vec<u32>, NoMemory>
    ensures { IfOk result (λ documents. documents.items ≡ documents_of (all_seen units.now) of_type) }
{
    let mut documents = documents_from(alloc, units, of_type)?;
    documents.reverse();
    Ok(documents)
}

/// Whether an object that is written so has a signal for which the handler is.
#[tactic(auto, using(crate::proofs::AnyLemmas::any_three))]
pub fn has_signal_of(
    alloc: Global,
    types: &TypeRows,
    units: &[Unit],
    x: Planned,
    handler: &Text,
) -> Result<bool, NoMemory>
    ensures { IfOk result (λ b. b ≡ list_any (s.is_signal_of handler.now) (names_written (all_seen units.now) x)) }
{
    if x.is_around {
        return is_among(alloc, types.of(TypeNo::Component), handler);
    }
    let of_type = type_at(units, x.unit, x.object);
    let in_type = is_among(alloc, types.of(builtin_of(units, of_type)), handler)?;
    if in_type {
        return Ok(true);
    }
    let documents = documents_below(alloc, units, of_type)?;
    let in_documents = is_among_roots(alloc, units, documents.as_slice(), handler)?;
    if in_documents {
        return Ok(true);
    }
    is_among(alloc, declared(units, x.unit, x.object), handler)
}
