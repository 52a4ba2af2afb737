//! One parsed text and a small world, over which tests evaluate.

ghost use Rattle.std.specs.Prelude.{◌≡◌, map};
ghost use Rattle.qml_syntax.specs.Places.{part_at};
ghost use Rattle.js_locals.specs.Laid.{laid, name_of};
ghost use Rattle.js_locals.specs.Texts.{StandsAs};
ghost use Rattle.eval_tests.specs.Plain.{seen_at, found_cell, is_global, found_other, plain_names, code_of, table_at, text_in};

use evaluation::{Seen, View};
use js_methods::named;
use js_subset::Code;
use qml_base::{CellNo, ExprNo, Found, Home, ObjNo, UnitNo};
use qml_syntax::Tree;
use qml_text::Text;
use qml_value::Value;

/// A function: its tree, where names stand that are those of its parameters, and the part behind which its statements are.
#[derive(Drop)]
pub struct Function {
    pub tree: Tree,
    pub parameters: Vec<usize>,
    pub mark: usize,
}

impl Function {
    /// Where the names of its parameters stand.
    fn names(&self) -> &[usize]
        ensures { map (name_of (laid self.now.tree)) result.now ≡ map (name_of (laid self.now.tree)) self.now.parameters.items }
    {
        self.parameters.as_slice()
    }
}

/// Where the whole text of a tree stands.
fn root_place(tree: &Tree) -> usize
    ensures { StandsAs (text_in tree.now) (part_at tree.now result) }
{
    tree.root()
}

/// A text, under number 0, and two functions.
#[derive(Drop)]
pub struct OneText {
    text: Tree,
    first: Function,
    second: Function,
}

impl OneText {
    /// The text of this tree, with these functions.
    pub fn of(text: Tree, first: Function, second: Function) -> OneText
        ensures { (result.text ≡ text) × (result.first ≡ first) × (result.second ≡ second) }
    {
        OneText {
            text,
            first,
            second,
        }
    }
}

impl Code for OneText {
    ghost meaning = { λ c. code_of c.text c.first c.second };

    ghost texts = { λ c text. text_in (table_at c.text c.first.tree c.second.tree text.at) };

    ghost tables = { λ c text. table_at c.text c.first.tree c.second.tree text.at };

    fn tree(&self, text: ExprNo) -> Option<&Tree> {
        if text.at == 0 {
            Some(&self.text)
        } else if text.at == 1 {
            Some(&self.first.tree)
        } else {
            Some(&self.second.tree)
        }
    }

    fn place(&self, text: ExprNo) -> usize {
        if text.at == 0 {
            root_place(&self.text)
        } else if text.at == 1 {
            root_place(&self.first.tree)
        } else {
            root_place(&self.second.tree)
        }
    }

    fn parameters(&self, function: ExprNo) -> &[usize] {
        if function.at == 0 {
            &[]
        } else if function.at == 1 {
            self.first.names()
        } else {
            self.second.names()
        }
    }

    fn statements(&self, function: ExprNo) -> Option<usize> {
        if function.at == 0 {
            Some(0)
        } else if function.at == 1 {
            Some(self.first.mark)
        } else {
            Some(self.second.mark)
        }
    }
}

/// Six cells of the object 1: `f` and `a` have these values, `rows` these rows; `loops` loops, `past` is past the limit and
/// `later` isn't ready.
#[derive(Drop)]
pub struct Plain {
    pub f: Value,
    pub a: Value,
    pub rows: Value,
}

/// What a name finds as a cell of the object 1.
fn found_cell(name: &Text) -> Option<u32>
    ensures { result ≡ found_cell name.now }
{
    if named(name, b"f") {
        Some(0)
    } else if named(name, b"a") {
        Some(1)
    } else if named(name, b"rows") {
        Some(2)
    } else if named(name, b"loops") {
        Some(3)
    } else if named(name, b"past") {
        Some(4)
    } else if named(name, b"later") {
        Some(5)
    } else {
        None
    }
}

/// Whether it is the name of a global.
fn is_global(name: &Text) -> bool
    ensures { result ≡ is_global name.now }
{
    named(name, b"undefined")
        || named(name, b"Math")
        || named(name, b"String")
        || named(name, b"Qt")
        || named(name, b"console")
        || named(name, b"Loader")
}

/// What another name finds.
fn found_other(name: &Text) -> Found
    ensures { result ≡ found_other name.now }
{
    if named(name, b"item") {
        Found::Object(ObjNo(2))
    } else if named(name, b"first") {
        Found::Body(
            ExprNo {
                unit: UnitNo(0),
                at: 1,
            },
            ObjNo(1),
        )
    } else if named(name, b"second") {
        Found::Body(
            ExprNo {
                unit: UnitNo(0),
                at: 2,
            },
            ObjNo(1),
        )
    } else if named(name, b"part") {
        Found::Component(ObjNo(3))
    } else if named(name, b"sent") {
        Found::Signal(ObjNo(1), 0)
    } else if named(name, b"lib") {
        Found::Script(UnitNo(1))
    } else if is_global(name) {
        Found::Global
    } else {
        Found::Nothing
    }
}

impl View for Plain {
    ghost seen = { λ v c. seen_at v.f v.a v.rows c.place };

    ghost names = { λ v. plain_names };

    fn read(&self, cell: CellNo) -> Seen<'_> {
        match cell.place {
            0 => Seen::Is(&self.f),
            1 => Seen::Is(&self.a),
            2 => Seen::Is(&self.rows),
            3 => Seen::Loop,
            4 => Seen::Past,
            _ => Seen::Need,
        }
    }

    fn resolve(&self, _home: Home, name: &Text) -> Found {
        match found_cell(name) {
            Some(place) => Found::Cell(CellNo {
                object: ObjNo(1),
                place,
            }),
            None => found_other(name),
        }
    }

    fn member(&self, object: ObjNo, name: &Text) -> Found {
        if named(name, b"itemAt") || named(name, b"get") {
            Found::Method(
                object,
                Some(CellNo {
                    object: ObjNo(1),
                    place: 2,
                }),
            )
        } else if named(name, b"append") {
            Found::Method(object, None)
        } else if named(name, b"a") {
            Found::Cell(CellNo {
                object: ObjNo(1),
                place: 1,
            })
        } else {
            Found::Nothing
        }
    }

    fn is_id(&self, _home: Home, _name: &Text) -> bool {
        true
    }
}
