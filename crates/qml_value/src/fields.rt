//! Fields: values under distinct names.

ghost use Rattle.std.specs.Prelude.{◌≡◌, [], MatchOption};
ghost use Rattle.qml_value.specs.Naming.{Lacks, StandsUnder, IsFirstNamed, IsPut, HasDistinctNames};
ghost use Rattle.qml_value.specs.declared.fields.PutFault.TheVariants as fault;

use crate::row::Row;
use crate::value::{Field, Fields, Value};
use qml_base::DEPTH_LIMIT;
use qml_text::Text;
use std::alloc::{AllocFailed, Global};
use thiserror::Error;

/// Why a value isn't put under a name.
#[derive(Clone, Copy, Debug, PartialEq, Eq, Error)]
pub enum PutFault {
    /// The fields would be nested more than 100 deep.
    #[error("the fields would be nested more than {DEPTH_LIMIT} deep")]
    TooDeep,
    /// There was no memory.
    #[error("there was no memory")]
    NoMemory,
}

impl<T: Drop> From<AllocFailed<T>> for PutFault {
    ghost from_gives = { λ _ e. e ≡ fault.NoMemory };

    fn from(_error: AllocFailed<T>) -> PutFault {
        PutFault::NoMemory
    }
}

impl Row<Field> {
    /// No fields. They take no memory.
    pub fn new(alloc: Global) -> Fields
        ensures empty { result ≡ [] }
        ensures distinct { HasDistinctNames result }
    {
        Row::of_vec(Vec::new(alloc))
    }

    /// Puts a value under a name: in the place of the value that stands under it, else behind all others. The answer is
    /// `TooDeep` exactly where the fields would be nested more than 100 deep; on an error they stay as they were.
    pub fn put(&mut self, name: Text, value: Value) -> Result<(), PutFault>
        ensures put { IsPut name value self.old self.new result }
        ensures distinct { HasDistinctNames self.old → HasDistinctNames self.new }
    {
        if value.nesting() >= DEPTH_LIMIT as usize {
            return Err(PutFault::TooDeep);
        }
        match place_of(self.parts(), &name) {
            Some(at) => self.set(at, Field { name, value }),
            None => self.push(Field { name, value })?,
        }
        Ok(())
    }

    /// The value that stands under a name, and None exactly where none does.
    pub fn get(&self, name: &Text) -> Option<&Value>
        ensures { MatchOption result (Lacks self.now name.now) (λ value. StandsUnder name.now value.now self.now) }
    {
        match place_of(self.parts(), name) {
            Some(at) => Some(&self.parts()[at].value),
            None => None,
        }
    }
}

/// The place of the first field of the name.
fn place_of(fields: &[Field], name: &Text) -> Option<usize>
    ensures { MatchOption result (Lacks fields.now name.now) (IsFirstNamed fields.now name.now) }
{
    'fields: for (at, field) in fields.iter().enumerate() {
        if field.name.same(name) {
            return Some(at);
        }
    }
    None
}
