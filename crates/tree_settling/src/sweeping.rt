//! The table, as a view: a cell that has no entry gives its own value.

ghost use Rattle.property_store.specs.Lying.{IsPlaced};

use crate::evaluate::seen_at;
use evaluation::{Came, Seen, View};
use property_store::find;
use qml_base::{CellNo, Found, Home, ObjNo};
use qml_text::Text;
use tree_model::{Cell, Lookup};

#[derive(Drop)]
pub struct Sweeping<'a, N> {
    pub lookup: &'a N,
    pub starts: &'a [u32],
    pub cells: &'a [Cell],
    pub table: &'a [Option<Came>],
    ghost placed: { IsPlaced starts.now cells.now },
}

impl<N: Lookup> View for Sweeping<'_, N> {
    ghost use Rattle.std.specs.Prelude.{Some};
    ghost use Rattle.tree_model.specs.Settling.{reading};
    ghost use Rattle.tree_settling.specs.Tables.{read_in};

    ghost seen = { λ v c. Some (reading v.cells.now (read_in v.cells.now v.table.now) c) };

    ghost names = { λ v. N.names v.lookup.now };

    fn read(&self, c: CellNo) -> Seen<'_> {
        seen_at(self.cells, self.table, find(self.starts, self.cells, c))
    }

    fn resolve(&self, home: Home, name: &Text) -> Found {
        self.lookup.resolve(home, name)
    }

    fn member(&self, object: ObjNo, name: &Text) -> Found {
        self.lookup.member(object, name)
    }

    fn is_id(&self, home: Home, name: &Text) -> bool {
        self.lookup.is_id(home, name)
    }
}
