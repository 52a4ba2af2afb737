//! Building fields in time that is linear in their number.

ghost use Rattle.std.specs.Prelude.{◌≡◌, [], IfOk};
ghost use Rattle.qml_value.specs.Naming.{IsPut, HasDistinctNames};

use crate::fields::PutFault;
use crate::row::Row;
use crate::value::{Field, Fields, Value};
use indexmap::IndexMap;
use qml_base::{DEPTH_LIMIT, NoMemory};
use qml_text::Text;
use std::alloc::Global;
use std::marker::Model;

/// Fields under way, of which each name is found at once. Contracts see them as the list of the pairs.
#[derive(Drop)]
pub struct FieldsBuilder {
    entries: IndexMap<Vec<u16>, Value>,
}

impl Model for FieldsBuilder {
    ghost use Rattle.std.specs.Prelude.{List, map};
    ghost use Rattle.qml_value.specs.declared.value.Field.{Field};
    ghost use Rattle.qml_value.specs.Building.{field_from};
    ghost use Rattle.qml_value.specs.contracts.value.Value as v;
    ghost use Rattle.qml_value.specs.contracts.value.Field as f;
    ghost use Rattle.std.specs.Coded.{codes};

    ghost coded = { Prim.hlevel (codes, v.the_row.coded, f.the_row.coded) };

    ghost Value = { List Field };

    ghost view = { λ builder. map field_from builder.entries.entries };
}

impl FieldsBuilder {
    /// No fields yet.
    pub fn new(alloc: Global) -> FieldsBuilder
        ensures empty { result ≡ [] }
        ensures distinct { HasDistinctNames result }
    {
        FieldsBuilder {
            entries: IndexMap::new(alloc),
        }
    }

    /// Puts a value under a name, as `Fields::put` does, in time that doesn't grow with the fields.
    pub fn put(&mut self, alloc: Global, name: &Text, value: Value) -> Result<(), PutFault>
        ensures put { IsPut name.now value self.old self.new result }
        ensures distinct { HasDistinctNames self.old → HasDistinctNames self.new }
    {
        if value.nesting() >= DEPTH_LIMIT as usize {
            return Err(PutFault::TooDeep);
        }
        match Vec::from_slice(alloc, name.units()) {
            Ok(units) => {
                self.entries.insert(units, value)?;
                Ok(())
            }
            Err(_) => Err(PutFault::NoMemory),
        }
    }

    /// The fields that were built. Names and values are moved.
    pub fn finish(self, alloc: Global) -> Result<Fields, NoMemory>
        ensures { IfOk result (λ fields. fields ≡ self) }
    {
        let FieldsBuilder { entries } = self;
        let mut parts = Vec::new(alloc);
        let mut rest = entries.into_iter();
        'fields: while let Some(pair) = rest.next() {
            let (units, value) = pair;
            let Ok(name) = Text::from_units(alloc, units) else {
                return Err(NoMemory);
            };
            parts.push(Field { name, value })?;
        }
        Ok(Row::of_vec(parts))
    }
}
