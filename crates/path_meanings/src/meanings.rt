//! What is given under a path.

ghost use Rattle.std.specs.Prelude.{◌≡◌, ◌+◌, length, IfOk};
ghost use Rattle.path_meanings.specs.Meanings as s;

use crate::following::{by_meaning, follow};
use crate::reached::Reached;
use handler_names::{UnitHandlers, is_handler};
use path_ends::UnitEnds;
use program_tables::{BuiltInName, Meaning, Names};
use qml_base::NoMemory;
use qml_text::Text;
use qml_types::{Access, PropKind};
use std::alloc::Global;

/// What is given under a path of names.
#[derive(Clone, Copy, Debug)]
pub enum PathMeaning {
    /// A property, and whether the object itself has it under one name.
    Property {
        kind: PropKind,
        access: Access,
        own: bool,
    },
    /// A whole object.
    Object,
    /// A handler.
    Handler,
    /// The children of an Item.
    Children,
    /// Nothing that the object has.
    Nothing,
    /// Something of the target of a PropertyChanges that has none.
    WithoutTarget,
}

fn is_cell(found: Option<Meaning>) -> bool
    ensures { result ≡ s.is_cell found }
{
    match found {
        Some(
            Meaning::Cell {
                place: _,
                kind: _,
                access: _,
            },
        ) => true,
        Some(
            Meaning::BuiltIn(
                BuiltInName::Cell {
                    place: _,
                    kind: _,
                    access: _,
                },
            ),
        ) => true,
        _ => false,
    }
}

fn is_children(found: Option<Meaning>) -> bool
    ensures { result ≡ s.is_children found }
{
    match found {
        Some(Meaning::BuiltIn(BuiltInName::Children)) => true,
        _ => false,
    }
}

fn by_reached(own: bool, reached: Reached) -> PathMeaning
    ensures { result ≡ s.by_reached own reached }
{
    match reached {
        Reached::Cell { kind, access } => PathMeaning::Property { kind, access, own },
        Reached::Object {
            document: _,
            object: _,
        } => PathMeaning::Object,
        Reached::Nothing => PathMeaning::Nothing,
    }
}

/// What is given under a name that is no handler's.
fn by_found(known: &[UnitEnds], own: bool, found: Option<Meaning>) -> PathMeaning
    ensures { result ≡ s.by_found known.now own found }
{
    if own && is_children(found) {
        return PathMeaning::Children;
    }
    by_reached(own && is_cell(found), by_meaning(known, found))
}

fn by_handler(own: bool) -> PathMeaning
    ensures { result ≡ s.by_handler own }
{
    if own {
        PathMeaning::Handler
    } else {
        PathMeaning::Nothing
    }
}

fn by_name(handles: bool, known: &[UnitEnds], own: bool, found: Option<Meaning>) -> PathMeaning
    ensures { result ≡ s.by_name handles known.now own found }
{
    if handles {
        by_handler(own)
    } else {
        by_found(known, own, found)
    }
}

/// What is given under the last name of a path, where the names before it lead here. `own` says that it is the only one.
fn at_last(
    alloc: Global,
    names: &Names,
    handlers: &[UnitHandlers],
    known: &[UnitEnds],
    own: bool,
    at: Reached,
    name: &Text,
) -> Result<PathMeaning, NoMemory>
    ensures { IfOk result (λ x. x ≡ s.at_last names.now.units.items handlers.now known.now own at name.now) }
{
    match at {
        Reached::Object { document, object } => {
            let handles = is_handler(alloc, names, handlers, document, object, name)?;
            let found = names.meaning(document, object, name)?;
            Ok(by_name(handles, known, own, found))
        }
        Reached::Cell { kind: _, access: _ } => Ok(PathMeaning::Nothing),
        Reached::Nothing => Ok(PathMeaning::Nothing),
    }
}

/// What is given under a path that goes on from here, by what is known of the ends of aliases: the first of these names and those behind
/// it (Qt 5.15, "QML Object Attributes"). `own` says that the whole path is one name: a handler and the children of an Item stand so alone.
/// It takes time by the names, and of each by the types of the object where it is looked for.
#[tactic(auto, using(crate::proofs::AlongLemmas::meant_on, crate::proofs::AlongLemmas::meant_last))]
pub fn meaning_along(
    alloc: Global,
    names: &Names,
    handlers: &[UnitHandlers],
    known: &[UnitEnds],
    own: bool,
    from: Reached,
    first: &Text,
    rest: &[Text],
) -> Result<PathMeaning, NoMemory>
    ensures { IfOk result (λ x. x ≡
        s.meant_along names.now.units.items handlers.now known.now own from first.now rest.now) }
{
    let mut at = from;
    let mut last = first;
    'names: for name in rest {
        let next = follow(names, known, at, last)?;
        at = next;
        last = name;
    }
    let meaning = at_last(alloc, names, handlers, known, own, at, last)?;
    Ok(meaning)
}
