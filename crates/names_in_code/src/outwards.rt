//! Names from an object outwards.

ghost use Rattle.std.specs.Prelude.{◌≡◌, ◌+◌, ◌&&◌, suc, length, Some, IfOk};
ghost use Rattle.program_names.specs.Names.{is_handler_name as handles, begins_raised as begins_raised_in};
ghost use Rattle.names_in_code.specs.Outwards as s;

use crate::found::Found;
use alias_tables::{object_of_id, root_at};
use document_rows::ObjectRow;
use path_ends::UnitIds;
use program_tables::{BuiltInName, Meaning, Names, UnitRow};
use qml_base::NoMemory;
use qml_text::Text;
use qml_types::{TypeNo, TypeRef};

/// Whether some signal's name with its first letter raised begins so.
fn begins_raised(name: &[u16]) -> bool
    ensures { result ≡ begins_raised_in name.now }
{
    match name.first() {
        Some(letter) => { !((*letter >= 97 && *letter <= 122) || (*letter >= 48 && *letter <= 57)) }
        None => false,
    }
}

/// Whether a name is that of the handler of some signal.
fn is_handler_name(name: &Text) -> bool
    ensures { result ≡ handles name.now }
{
    let Some((first, behind)) = name.units().split_first() else {
        return false;
    };
    match behind.split_first() {
        Some((second, rest)) => *first == 111 && *second == 110 && begins_raised(rest),
        None => false,
    }
}

/// A function, or the handler that a function of a Connections is under a handler's name.
fn function_seen(names: &Names, document: usize, object: usize, row: usize, name: &Text) -> Found
    ensures { result ≡ s.function_seen names.now.units.items document object row name.now }
{
    let aims = names.is_a(document, object, TypeRef::Builtin(TypeNo::Connections));
    if aims && is_handler_name(name) {
        Found::Member
    } else {
        Found::Function {
            document,
            object,
            row,
        }
    }
}

/// What a built-in member is in code; the children of an Item have no name there.
fn built_in_seen(found: BuiltInName) -> Option<Found>
    ensures { result ≡ s.built_in_seen found }
{
    match found {
        BuiltInName::Method => Some(Found::Method),
        BuiltInName::Children => None,
        BuiltInName::Cell { .. } | BuiltInName::Changed | BuiltInName::Signal { .. } => Some(
            Found::Member,
        ),
    }
}

/// What a name that means this is in code.
fn seen(names: &Names, name: &Text, meaning: Meaning) -> Option<Found>
    ensures { result ≡ s.seen names.now.units.items name.now meaning }
{
    match meaning {
        Meaning::BuiltIn(found) => built_in_seen(found),
        Meaning::Function {
            document,
            object,
            row,
        } => Some(function_seen(names, document, object, row, name)),
        Meaning::Cell { .. } | Meaning::Changed | Meaning::Signal { .. } | Meaning::Alias { .. } =>
            { Some(Found::Member) }
    }
}

/// What a name finds among the members of an object of a document.
pub fn member_seen(
    names: &Names,
    document: usize,
    object: usize,
    name: &Text,
) -> Result<Option<Found>, NoMemory>
    ensures { IfOk result (λ found. found ≡ s.member_seen names.now.units.items document object name.now) }
{
    match names.meaning(document, object, name)? {
        Some(meaning) => Ok(seen(names, name, meaning)),
        None => Ok(None),
    }
}

/// What a name finds in the component of an object: an id, what the scope object has, or a member of the root.
fn found_here(
    names: &Names,
    ids: &UnitIds,
    document: usize,
    scope: Option<Found>,
    object: usize,
    name: &Text,
) -> Result<Option<Found>, NoMemory>
    ensures { IfOk result (λ found. found ≡ s.found_here names.now.units.items ids.now document scope object name.now) }
{
    let root = root_at(&ids.roots, object);
    if let Some(found) = object_of_id(&ids.ids, root, name) {
        return Ok(Some(Found::Id(found)));
    }
    if scope.is_some() {
        return Ok(scope);
    }
    let found = member_seen(names, document, root, name)?;
    Ok(found)
}

/// In which object the one of a number is written.
fn owner_at(objects: &[ObjectRow], rows: &[UnitRow], object: usize) -> Option<usize>
    ensures { result ≡ s.owner_at objects.now rows.now object }
{
    let Some(entry) = objects.get(object) else {
        return None;
    };
    let Some(row) = entry.row else {
        return None;
    };
    match rows.get(row) {
        Some(row) => Some(row.row.object),
        None => None,
    }
}

/// What a name finds in the component of an object and in those around it, where `scope` is what the scope object has under the name. It takes time by
/// the number of these components and of the types of their roots.
#[tactic(auto, using(crate::proofs::OutwardsLemmas::found_now, crate::proofs::OutwardsLemmas::goes_out, crate::proofs::OutwardsLemmas::ends_here, crate::proofs::OutwardsLemmas::ends_at_last))]
pub fn name_outwards(
    names: &Names,
    ids: &UnitIds,
    objects: &[ObjectRow],
    rows: &[UnitRow],
    document: usize,
    scope: Option<Found>,
    object: usize,
    name: &Text,
) -> Result<Option<Found>, NoMemory>
    ensures { IfOk result (λ found. found ≡ s.outwards (length objects.now + 1) names.now.units.items ids.now
        objects.now rows.now document scope object name.now) }
{
    let mut object = object;
    let mut scope = scope;
    let mut left = objects.len() + 1;
    'components: while left > 0 {
        left -= 1;
        let found = found_here(names, ids, document, scope, object, name)?;
        if found.is_some() {
            return Ok(found);
        }
        match owner_at(objects, rows, root_at(&ids.roots, object)) {
            Some(owner) => object = owner,
            None => return Ok(None),
        }
        scope = None;
    }
    Ok(None)
}
