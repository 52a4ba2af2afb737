//! What is given under a path.

ghost use Rattle.std.specs.Prelude.{◌≡◌, ◌+◌, length, IfOk};
ghost use Rattle.value_purposes.specs.Given as s;
ghost use Rattle.value_purposes.specs.Tables.{names_in, handlers_in, ends_in, targets_in};

use crate::tables::PathTables;
use change_targets::target_of;
use path_meanings::{PathMeaning, Reached, follow_all, meaning_along};
use program_tables::Names;
use qml_base::NoMemory;
use qml_text::Text;
use qml_types::{TypeNo, TypeRef};
use std::alloc::Global;

/// Whether the object of a number in the document of a number is of a built-in type.
pub(crate) fn is_type(names: &Names, document: usize, object: usize, type_no: TypeNo) -> bool
    ensures { result ≡ s.is_type_in names.now.units.items document object type_no }
{
    names.is_a(document, object, TypeRef::Builtin(type_no))
}

/// Whether a path behind the names of groups is one name in all.
pub(crate) fn is_alone(before: &[Text], rest: &[Text]) -> bool
    ensures { result ≡ s.is_alone before.now rest.now }
{
    before.is_empty() && rest.is_empty()
}

/// Whether the object itself has the first name of a path.
fn has_first(
    names: &Names,
    document: usize,
    object: usize,
    before: &[Text],
    first: &Text,
) -> Result<bool, NoMemory>
    ensures { IfOk result (λ b. b ≡ s.has_first names.now.units.items document object before.now first.now) }
{
    let found = match before.first() {
        Some(group) => names.meaning(document, object, group)?,
        None => names.meaning(document, object, first)?,
    };
    Ok(found.is_some())
}

/// What the path means for an object.
fn meant_at(
    alloc: Global,
    tables: &PathTables<'_>,
    document: usize,
    object: usize,
    before: &[Text],
    first: &Text,
    rest: &[Text],
) -> Result<PathMeaning, NoMemory>
    ensures { IfOk result (λ x. x ≡ s.meant_at (names_in tables.now) (handlers_in tables.now) (ends_in tables.now) document object
        before.now first.now rest.now) }
{
    let start = Reached::Object { document, object };
    let from = follow_all(tables.names, tables.ends, start, before)?;
    let own = is_alone(before, rest);
    let meaning = meaning_along(
        alloc,
        tables.names,
        tables.handlers,
        tables.ends,
        own,
        from,
        first,
        rest,
    )?;
    Ok(meaning)
}

/// Of what a path means for a target, a property or an object.
fn only_values(meaning: PathMeaning) -> PathMeaning
    ensures { result ≡ s.only_values meaning }
{
    match meaning {
        PathMeaning::Property {
            kind,
            access,
            own: _,
        } => PathMeaning::Property {
            kind,
            access,
            own: false,
        },
        PathMeaning::Object => PathMeaning::Object,
        PathMeaning::WithoutTarget => PathMeaning::WithoutTarget,
        _ => PathMeaning::Nothing,
    }
}

/// What the path means for the target of a PropertyChanges.
fn meant_for(
    alloc: Global,
    tables: &PathTables<'_>,
    target: Option<(usize, usize)>,
    before: &[Text],
    first: &Text,
    rest: &[Text],
) -> Result<PathMeaning, NoMemory>
    ensures { IfOk result (λ x. x ≡ s.meant_for (names_in tables.now) (handlers_in tables.now) (ends_in tables.now) target
        before.now first.now rest.now) }
{
    match target {
        Some((document, object)) => {
            let meaning = meant_at(alloc, tables, document, object, before, first, rest)?;
            Ok(only_values(meaning))
        }
        None => Ok(PathMeaning::WithoutTarget),
    }
}

fn no_handler(meaning: PathMeaning) -> bool
    ensures { result ≡ s.no_handler meaning }
{
    match meaning {
        PathMeaning::Handler => false,
        _ => true,
    }
}

/// Whether what a PropertyChanges gives under a path, which means this for the object itself, is for its target.
fn is_change(
    names: &Names,
    document: usize,
    object: usize,
    before: &[Text],
    first: &Text,
    here: PathMeaning,
) -> Result<bool, NoMemory>
    ensures { IfOk result (λ b. b ≡ s.is_change names.now.units.items document object before.now first.now here) }
{
    if !is_type(names, document, object, TypeNo::PropertyChanges) {
        return Ok(false);
    }
    let has = has_first(names, document, object, before, first)?;
    Ok(!has && no_handler(here))
}

/// What is given under a path in the object of a number in the document of a number (Qt 5.15, "QML Object Attributes" and
/// "PropertyChanges QML Type"). `before` are the names of the groups around the path's own names. It takes time by all names of the path,
/// and of each by the types of the object where it is looked for.
pub fn meaning_given(
    alloc: Global,
    tables: &PathTables<'_>,
    document: usize,
    object: usize,
    before: &[Text],
    first: &Text,
    rest: &[Text],
) -> Result<PathMeaning, NoMemory>
    ensures { IfOk result (λ x. x ≡ s.given_at (names_in tables.now) (handlers_in tables.now) (ends_in tables.now)
        (targets_in tables.now) document object before.now first.now rest.now) }
{
    let here = meant_at(alloc, tables, document, object, before, first, rest)?;
    let change = is_change(tables.names, document, object, before, first, here)?;
    if change {
        let target = target_of(tables.names, tables.targets, document, object);
        let meaning = meant_for(alloc, tables, target, before, first, rest)?;
        return Ok(meaning);
    }
    Ok(here)
}
