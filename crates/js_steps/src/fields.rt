//! Literals of fields.

ghost use Rattle.std.specs.Prelude.{◌≡◌, [], ◌∷◌, ◌++◌, IfOk};
ghost use Rattle.js_meaning.specs.Operate.{weighed};
ghost use Rattle.js_meaning.specs.Rows.{fields_value};
ghost use Rattle.js_locals.specs.Laid.{laid};
ghost use Rattle.js_fields.specs.Entries.{fields_from};
ghost use Rattle.js_frames.specs.Standing.{standing};
ghost use Rattle.js_frames.specs.Moves.{FieldBegins, FieldsFrom, BeginsFields};

use evaluation::Ended;
use js_fields::{Entries, Entry, fields_of};
use js_frames::{Frame, Machine, Next};
use js_locals::{first_part, is_key, next_part, node_at};
use js_looking::{next_of, pushed};
use js_operators::weighed;
use qml_base::Cause;
use qml_syntax::Tree;
use qml_text::NoMemory;
use qml_value::Value;
use std::alloc::Global;

/// The fields of these entries, or a throw of `size` where they are too heavy.
#[tactic(auto, using(js_fields::proofs::EntryLemmas::deep_throws, js_fields::proofs::EntryLemmas::held_weighed))]
fn weighed_fields(alloc: Global, tree: &Tree, entries: Entries) -> Result<Ended, NoMemory>
    ensures { IfOk result (λ ended. ended ≡ weighed (fields_value (fields_from (laid tree.now) entries))) }
{
    let built = fields_of(alloc, tree, entries)?;
    match built {
        Some(fields) => Ok(weighed(Value::Fields(fields))),
        None => Ok(Ended::Threw(Cause::Size)),
    }
}

/// Begins the value of the field whose key stands at a place.
fn field_begun(
    machine: &mut Machine,
    tree: &Tree,
    entries: Entries,
    key: usize,
) -> Result<Next, NoMemory>
    ensures { IfOk result (λ y. FieldBegins (laid tree.now) entries key (standing machine.old) (standing machine.new) y) }
{
    let Some(node) = node_at(tree, key) else {
        return Err(NoMemory);
    };
    if !is_key(node) {
        return Err(NoMemory);
    }
    match next_part(tree, key) {
        Some(value) => pushed(machine, Frame::Field(entries, key, value), value),
        None => Err(NoMemory),
    }
}

/// Begins the next field behind a part, or goes on behind the last.
fn fields_from(
    machine: &mut Machine,
    alloc: Global,
    tree: &Tree,
    entries: Entries,
    part: usize,
) -> Result<Next, NoMemory>
    ensures { IfOk result (λ y. FieldsFrom (laid tree.now) entries part (standing machine.old) (standing machine.new) y) }
{
    match next_part(tree, part) {
        None => {
            let ended = weighed_fields(alloc, tree, entries)?;
            Ok(next_of(ended))
        }
        Some(key) => {
            let next = field_begun(machine, tree, entries, key)?;
            Ok(next)
        }
    }
}

/// Begins a literal of fields.
pub(crate) fn fields_begun(
    machine: &mut Machine,
    alloc: Global,
    tree: &Tree,
    at: usize,
) -> Result<Next, NoMemory>
    ensures { IfOk result (λ y. BeginsFields (laid tree.now) at (standing machine.old) (standing machine.new) y) }
{
    let Some(mark) = first_part(tree, at) else {
        return Err(NoMemory);
    };
    let none = Entries::new(alloc);
    let next = fields_from(machine, alloc, tree, none, mark)?;
    Ok(next)
}

/// Goes on behind the value of the field whose key stands at a place.
pub(crate) fn field_on(
    machine: &mut Machine,
    alloc: Global,
    tree: &Tree,
    entries: Entries,
    key: usize,
    part: usize,
    value: Value,
) -> Result<Next, NoMemory>
    ensures { IfOk result (λ y. FieldsFrom (laid tree.now) (entries ++ record { name = key; value = value } ∷ []) part (standing machine.old) (standing machine.new) y) }
{
    let entries = entries.with(Entry { name: key, value })?;
    let next = fields_from(machine, alloc, tree, entries, part)?;
    Ok(next)
}
