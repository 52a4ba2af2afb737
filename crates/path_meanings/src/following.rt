//! Going along names.

ghost use Rattle.std.specs.Prelude.{◌≡◌, ◌+◌, length, IfOk};
ghost use Rattle.path_ends.specs.Said.{end_of, known_end};
ghost use Rattle.path_meanings.specs.Reached as s;

use crate::reached::Reached;
use path_ends::{PathEnd, UnitEnds, known_at};
use program_tables::{BuiltInName, Meaning, Names};
use qml_base::NoMemory;
use qml_text::Text;

/// An end without its way.
fn bare(end: &PathEnd) -> Reached
    ensures { result ≡ s.reached (end_of end.now) }
{
    match end {
        PathEnd::Cell {
            way: _,
            place: _,
            kind,
            access,
        } => Reached::Cell {
            kind: *kind,
            access: *access,
        },
        PathEnd::Object(seen) => Reached::Object {
            document: seen.document,
            object: seen.object,
        },
        PathEnd::Nothing => Reached::Nothing,
        PathEnd::Circle => Reached::Nothing,
    }
}

/// What an alias leads to, by its document and its row.
fn by_alias(known: &[UnitEnds], document: usize, row: usize) -> Reached
    ensures { result ≡ s.reached (known_end known.now document row) }
{
    match known_at(known, document, row) {
        Some(entry) => bare(&entry.end),
        None => Reached::Nothing,
    }
}

fn by_built_in(name: BuiltInName) -> Reached
    ensures { result ≡ s.by_built_in name }
{
    match name {
        BuiltInName::Cell {
            place: _,
            kind,
            access,
        } => Reached::Cell { kind, access },
        _ => Reached::Nothing,
    }
}

/// What a name leads to that means this.
pub(crate) fn by_meaning(known: &[UnitEnds], found: Option<Meaning>) -> Reached
    ensures { result ≡ s.by_meaning known.now found }
{
    match found {
        Some(
            Meaning::Cell {
                place: _,
                kind,
                access,
            },
        ) => Reached::Cell { kind, access },
        Some(Meaning::BuiltIn(name)) => by_built_in(name),
        Some(
            Meaning::Alias {
                document,
                object: _,
                row,
            },
        ) => by_alias(known, document, row),
        Some(Meaning::Changed) => Reached::Nothing,
        Some(
            Meaning::Signal {
                document: _,
                row: _,
            },
        ) => Reached::Nothing,
        Some(
            Meaning::Function {
                document: _,
                object: _,
                row: _,
            },
        ) => Reached::Nothing,
        None => Reached::Nothing,
    }
}

/// What one name leads to from here. It takes time by the types of the object where it is looked for.
pub fn follow(
    names: &Names,
    known: &[UnitEnds],
    from: Reached,
    name: &Text,
) -> Result<Reached, NoMemory>
    ensures { IfOk result (λ x. x ≡ s.onward names.now.units.items known.now from name.now) }
{
    match from {
        Reached::Object { document, object } => {
            let found = names.meaning(document, object, name)?;
            Ok(by_meaning(known, found))
        }
        Reached::Cell { kind: _, access: _ } => Ok(Reached::Nothing),
        Reached::Nothing => Ok(Reached::Nothing),
    }
}

/// What a path of names leads to from here.
#[tactic(auto, using(crate::proofs::AlongLemmas::goes_on))]
pub fn follow_all(
    names: &Names,
    known: &[UnitEnds],
    from: Reached,
    path: &[Text],
) -> Result<Reached, NoMemory>
    ensures { IfOk result (λ x. x ≡ s.along names.now.units.items known.now from path.now) }
{
    let mut at = from;
    'names: for name in path {
        let next = follow(names, known, at, name)?;
        at = next;
    }
    Ok(at)
}
