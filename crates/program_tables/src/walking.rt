//! What names mean for an object: its layers from its own text down to the built-in type.

ghost use Rattle.std.specs.Prelude.{◌≡◌, ◌+◌, length, option_copied, IfOk};
ghost use Rattle.std.specs.Option.{option_map, option_or};
ghost use Rattle.program_tables.specs.declared.names.Meaning.TheVariants.{BuiltIn};
ghost use Rattle.program_tables.specs.Walk as s;

use crate::built_in::BuiltInNames;
use crate::names::{Declared, Meaning, Names, ObjectNames, UnitNames};
use qml_base::NoMemory;
use qml_text::Text;
use qml_types::{TypeNo, TypeRef, cell_count};

impl Names {
    /// What a name means for the object of a number in the document of a number, if the object has it (Qt 5.15, "QML Object
    /// Attributes"): of several meanings that of the lowest layer. Goes through the types of the object, with one look-up in
    /// each.
    #[tactic(auto, using(crate::proofs::WalkLemmas::nothing_yet, crate::proofs::WalkLemmas::goes_down, crate::proofs::WalkLemmas::ends_below, crate::proofs::WalkLemmas::ends_without, crate::proofs::WalkLemmas::ends_at_last))]
    pub fn meaning(
        &self,
        document: usize,
        object: usize,
        name: &Text,
    ) -> Result<Option<Meaning>, NoMemory>
        ensures { IfOk result (λ m.
            m ≡ s.found_at (length self.now.units.items + 1) self.now.units.items document object name.now) }
    {
        let mut document = document;
        let mut object = object;
        let mut found = None;
        let mut left = self.units.len() + 1;
        'layers: while left > 0 {
            left -= 1;
            let Some(entry) = object_at(&self.units, document, object) else {
                let all = with_type(&self.built_in, TypeNo::QtObject, name, found)?;
                return Ok(all);
            };
            found = with_own(entry, document, object, name, found)?;
            match entry.base {
                TypeRef::Builtin(type_no) => {
                    let all = with_type(&self.built_in, type_no, name, found)?;
                    return Ok(all);
                }
                TypeRef::Document(unit) => {
                    document = unit.0 as usize;
                    object = 0;
                }
            }
        }
        Ok(found)
    }
}

/// What the object of a number declares.
pub(crate) fn object_at(units: &[UnitNames], document: usize, object: usize) -> Option<&ObjectNames>
    ensures { option_copied result ≡ s.object_in units.now document object }
{
    match units.get(document) {
        Some(unit) => unit.objects.as_slice().get(object),
        None => None,
    }
}

/// The meaning in a lower layer, else the one so far, whose cells stand behind so many.
fn with_type(
    built_in: &BuiltInNames,
    type_no: TypeNo,
    name: &Text,
    found: Option<Meaning>,
) -> Result<Option<Meaning>, NoMemory>
    ensures { IfOk result (λ m. m ≡ s.with_type type_no name.now found) }
{
    match built_in.find(type_no, name) {
        Some(meaning) => Ok(Some(Meaning::BuiltIn(meaning))),
        None => behind(found, cell_count(type_no) as usize),
    }
}

/// What the object itself declares, else the meaning so far.
fn with_own(
    entry: &ObjectNames,
    document: usize,
    object: usize,
    name: &Text,
    found: Option<Meaning>,
) -> Result<Option<Meaning>, NoMemory>
    ensures { IfOk result (λ m. m ≡ s.with_own entry.now document object name.now found) }
{
    match entry.names.find(name) {
        Some(declared) => Ok(Some(meaning_of(document, object, declared))),
        None => behind(found, entry.cells),
    }
}

/// The same meaning, where this many cells more stand before those of its layer.
fn behind(found: Option<Meaning>, cells: usize) -> Result<Option<Meaning>, NoMemory>
    ensures { IfOk result (λ m. m ≡ option_map (s.raised cells) found) }
{
    match found {
        Some(
            Meaning::Cell {
                place,
                kind,
                access,
            },
        ) => match place.checked_add(cells) {
            Some(place) => Ok(Some(Meaning::Cell {
                place,
                kind,
                access,
            })),
            None => Err(NoMemory),
        },
        other => Ok(other),
    }
}

/// The meaning of what an object declares.
fn meaning_of(document: usize, object: usize, declared: Declared) -> Meaning
    ensures { result ≡ s.meaning_of document object declared }
{
    match declared {
        Declared::Cell {
            place,
            kind,
            access,
        } => Meaning::Cell {
            place,
            kind,
            access,
        },
        Declared::Changed => Meaning::Changed,
        Declared::Signal { row } => Meaning::Signal { document, row },
        Declared::Function { row } => Meaning::Function {
            document,
            object,
            row,
        },
        Declared::Alias { row } => Meaning::Alias {
            document,
            object,
            row,
        },
    }
}
