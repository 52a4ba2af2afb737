//! Values with the places of their names.

ghost use Rattle.std.specs.Prelude.{◌≡◌, [], ◌∷◌, ◌++◌, IfOk};

use qml_text::NoMemory;
use qml_value::Value;
use std::alloc::Global;
use std::marker::Model;

/// A value that is put under a name, which is told by the place of its node.
#[derive(Drop)]
pub struct Entry {
    pub name: usize,
    pub value: Value,
}

/// Entries in the order in which they are written. Contracts see them as that list.
#[derive(Drop)]
pub struct Entries {
    entries: Vec<Entry>,
}

impl Model for Entries {
    ghost use Rattle.std.specs.Prelude.{List};
    ghost use Rattle.js_fields.specs.declared.entries.Entry as e;
    ghost use Rattle.qml_value.specs.contracts.value.Value as v;
    ghost use Rattle.std.specs.Coded.{codes};

    ghost Value = { List e.Entry };

    ghost coded = { Prim.hlevel (codes, v.the_row.coded) };

    ghost view = { λ o. o.entries.items };
}

impl Entries {
    /// No entry. They take no memory.
    pub fn new(alloc: Global) -> Entries
        ensures { result ≡ [] }
    {
        Entries {
            entries: Vec::new(alloc),
        }
    }

    /// These with one more behind them.
    pub fn with(self, entry: Entry) -> Result<Entries, NoMemory>
        ensures { IfOk result (λ more. more ≡ self ++ entry ∷ []) }
    {
        let mut entries = self.entries;
        entries.push(entry)?;
        Ok(Entries { entries })
    }

    /// The entries in order.
    pub fn as_slice(&self) -> &[Entry]
        ensures { result.now ≡ self.now }
    {
        self.entries.as_slice()
    }

    /// The entries in order, as a vector of its own.
    pub fn into_vec(self) -> Vec<Entry>
        ensures { result.items ≡ self }
    {
        self.entries
    }
}
