//! Fields from entries. A value that fields can't hold, since it is nested too deep, may still be replaced by a later one of its
//! name; so whether one stays is found out first, by building a test for each name.

ghost use Rattle.std.specs.Prelude.{◌≡◌, [], IfOk};
ghost use Rattle.js_meaning.specs.Rows.{put_field};
ghost use Rattle.js_locals.specs.Laid.{laid, name_of};
ghost use Rattle.js_fields.specs.Entries.{put_by, fields_from, too_deep, test_of, shallow, is_true, any_true, any_deep, has_deep, held};

use crate::entries::{Entries, Entry};
use js_locals::name_of;
use qml_base::DEPTH_LIMIT;
use qml_syntax::Tree;
use qml_text::NoMemory;
use qml_value::{Field, Fields, FieldsBuilder, Value};
use std::alloc::Global;

/// Whether fields that hold a value are nested more than 100 deep.
#[tactic(auto, using(crate::proofs::EntryLemmas::deep_told))]
fn is_too_deep(value: &Value) -> bool
    ensures { result ≡ too_deep value.now }
{
    value.nesting() >= DEPTH_LIMIT as usize
}

/// Whether a value of these is too deep.
fn has_deep(entries: &[Entry]) -> bool
    ensures { result ≡ has_deep entries.now }
{
    'entries: for entry in entries {
        if is_too_deep(&entry.value) {
            return true;
        }
    }
    false
}

/// Puts a value under the name at a place.
#[tactic(auto, using(crate::proofs::EntryLemmas::puts_one))]
fn put(
    builder: &mut FieldsBuilder,
    alloc: Global,
    tree: &Tree,
    name: usize,
    value: Value,
) -> Result<(), NoMemory>
    ensures { IfOk result (λ _. builder.new ≡ put_field (name_of (laid tree.now) name) value builder.old) }
{
    let name = name_of(tree, name)?;
    match builder.put(alloc, name, value) {
        Ok(()) => Ok(()),
        Err(_) => Err(NoMemory),
    }
}

/// The fields that were built.
fn finished(builder: FieldsBuilder, alloc: Global) -> Result<Fields, NoMemory>
    ensures { IfOk result (λ fields. fields ≡ builder) }
{
    match builder.finish(alloc) {
        Ok(fields) => Ok(fields),
        Err(_) => Err(NoMemory),
    }
}

/// For each name, whether the value is too deep that comes to stand under it.
fn tests(alloc: Global, tree: &Tree, entries: &[Entry]) -> Result<Fields, NoMemory>
    ensures { IfOk result (λ fields. fields ≡ put_by test_of (laid tree.now) entries.now []) }
{
    let mut builder = FieldsBuilder::new(alloc);
    'entries: for entry in entries {
        let test = Value::Bool(is_too_deep(&entry.value));
        put(&mut builder, alloc, tree, entry.name, test)?;
    }
    finished(builder, alloc)
}

/// Whether it is `true`.
fn is_true(value: &Value) -> bool
    ensures { result ≡ is_true value.now }
{
    match value {
        Value::Bool(holds) => *holds,
        _ => false,
    }
}

/// Whether `true` stands under a name of these.
fn any_true(fields: &[Field]) -> bool
    ensures { result ≡ any_true fields.now }
{
    'fields: for field in fields {
        if is_true(&field.value) {
            return true;
        }
    }
    false
}

/// Whether a value comes to stand under its name that is too deep.
#[tactic(auto, using(crate::proofs::EntryLemmas::none_stays, crate::proofs::EntryLemmas::tests_tell))]
fn stays_deep(alloc: Global, tree: &Tree, entries: &[Entry]) -> Result<bool, NoMemory>
    ensures { IfOk result (λ deep. deep ≡ any_deep (fields_from (laid tree.now) entries.now)) }
{
    if !has_deep(entries) {
        return Ok(false);
    }
    let fields = tests(alloc, tree, entries)?;
    Ok(any_true(fields.parts()))
}

/// The value, or Undefined in place of one that is too deep.
fn shallow(value: Value) -> Value
    ensures { result ≡ shallow value }
{
    if is_too_deep(&value) {
        Value::Undefined
    } else {
        value
    }
}

/// The fields of these entries, with Undefined in place of each value that is too deep.
#[tactic(auto, using(crate::proofs::EntryLemmas::added_entry))]
fn built(alloc: Global, tree: &Tree, entries: Vec<Entry>) -> Result<Fields, NoMemory>
    ensures { IfOk result (λ fields. fields ≡ put_by shallow (laid tree.now) entries.items []) }
{
    let mut builder = FieldsBuilder::new(alloc);
    'entries: for entry in entries {
        put(&mut builder, alloc, tree, entry.name, shallow(entry.value))?;
    }
    finished(builder, alloc)
}

/// The fields of these entries, or None exactly where they would be nested more than 100 deep.
#[tactic(auto, using(crate::proofs::EntryLemmas::none_held, crate::proofs::EntryLemmas::all_held))]
pub fn fields_of(alloc: Global, tree: &Tree, entries: Entries) -> Result<Option<Fields>, NoMemory>
    ensures { IfOk result (λ fields. fields ≡ held (fields_from (laid tree.now) entries)) }
{
    let deep = stays_deep(alloc, tree, entries.as_slice())?;
    if deep {
        return Ok(None);
    }
    let fields = built(alloc, tree, entries.into_vec())?;
    Ok(Some(fields))
}
