//! The rows of all types.

ghost use Rattle.std.specs.Prelude.{◌≡◌, ◌++◌, map, OnOk, slice_get, Some, option_copied};
ghost use Rattle.type_rows.specs.Rows.{type_rows, all_types, place_among};

use crate::rows::rows_of;
use qml_base::NoMemory;
use qml_types::TypeNo;
use std::alloc::Global;
use std::marker::Model;
use unit_rows::{NameRow, Rows};

/// The built-in types.
const ALL: [TypeNo; 13] = [
    TypeNo::QtObject,
    TypeNo::Component,
    TypeNo::Item,
    TypeNo::Timer,
    TypeNo::Connections,
    TypeNo::Binding,
    TypeNo::State,
    TypeNo::PropertyChanges,
    TypeNo::ListModel,
    TypeNo::ListElement,
    TypeNo::Repeater,
    TypeNo::Loader,
    TypeNo::Host,
];

/// The rows of all built-in types, made once.
#[derive(Drop)]
pub struct TypeRows {
    all: Vec<Rows<NameRow>>,
}

impl Model for TypeRows {
    ghost use Rattle.std.specs.Prelude.{◌≡◌, map};
    ghost use Rattle.type_rows.specs.Rows.{type_rows, all_types};

    ghost Value = { Unit {0} };

    ghost view = { λ t. tt };

    ghost invariant = { λ t. t.all.items ≡ map type_rows all_types };
}

/// Puts the rows of types.
fn put_all(alloc: Global, all: &mut Vec<Rows<NameRow>>, types: &[TypeNo]) -> Result<(), NoMemory>
    ensures { OnOk result (all.new.items ≡ all.old.items ++ map type_rows types.now) }
{
    'types: for of_type in types {
        let rows = rows_of(alloc, *of_type)?;
        all.push(rows)?;
    }
    Ok(())
}

/// The place of a type among all.
fn place(of_type: TypeNo) -> usize
    ensures { result ≡ place_among of_type }
{
    match of_type {
        TypeNo::QtObject => 0,
        TypeNo::Component => 1,
        TypeNo::Item => 2,
        TypeNo::Timer => 3,
        TypeNo::Connections => 4,
        TypeNo::Binding => 5,
        TypeNo::State => 6,
        TypeNo::PropertyChanges => 7,
        TypeNo::ListModel => 8,
        TypeNo::ListElement => 9,
        TypeNo::Repeater => 10,
        TypeNo::Loader => 11,
        TypeNo::Host => 12,
    }
}

/// The rows at a place.
fn rows_at(all: &[Rows<NameRow>], at: usize) -> Option<&Rows<NameRow>>
    ensures { option_copied result ≡ slice_get all.now at }
{
    all.get(at)
}

impl TypeRows {
    /// The rows of all types.
    pub fn new(alloc: Global) -> Result<TypeRows, NoMemory> {
        let mut all = Vec::new(alloc);
        put_all(alloc, &mut all, &ALL)?;
        Ok(TypeRows { all })
    }

    /// The names of a built-in type with what each finds.
    #[tactic(auto, using(crate::proofs::RowLemmas::rows_there))]
    pub fn of(&self, of_type: TypeNo) -> &[NameRow]
        ensures { result.now ≡ type_rows of_type }
    {
        match rows_at(self.all.as_slice(), place(of_type)) {
            Some(rows) => rows.as_slice(),
            None => &[],
        }
    }
}
