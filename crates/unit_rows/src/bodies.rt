//! The bodies of a unit.

ghost use Rattle.std.specs.Prelude.{◌≡◌};
ghost use Rattle.js_locals.specs.Laid.{laid};
ghost use Rattle.unit_rows.specs.Placed.{AreOfStatement, AreOfAFunction, AreOfStatements, AreFound, HavePlaces, ArePlaced, IsBodyOf, IsMade};
ghost use Rattle.unit_rows.specs.declared.bodies.BodiesFault.TheVariants as fault;

use crate::body::BodyRow;
use crate::parts::{Places, function_at, stands_statement, statements_at};
use qml_base::Place;
use qml_syntax::Tree;
use qml_text::NoMemory;
use std::alloc::{AllocFailed, Global};
use std::marker::Model;
use thiserror::Error;

/// Why bodies aren't placed in a tree.
#[derive(Clone, Copy, Debug, PartialEq, Eq, Error)]
pub enum BodiesFault {
    /// At a body's place stands no part of its sort.
    #[error("at the place of a body stands no part of its sort")]
    NotThere,
    /// There was no memory.
    #[error("there was no memory")]
    NoMemory,
}

impl<T: Drop> From<AllocFailed<T>> for BodiesFault {
    ghost from_gives = { λ _ e. e ≡ fault.NoMemory };

    fn from(_error: AllocFailed<T>) -> BodiesFault {
        BodiesFault::NoMemory
    }
}

impl From<NoMemory> for BodiesFault {
    ghost from_gives = { λ _ e. e ≡ fault.NoMemory };

    fn from(_error: NoMemory) -> BodiesFault {
        BodiesFault::NoMemory
    }
}

#[tactic(auto, using(crate::proofs::BodyLemmas::statement_places_are, crate::proofs::BodyLemmas::no_statement_places))]
fn statement_places(alloc: Global, tree: &Tree, at: usize) -> Result<Places, BodiesFault>
    ensures { AreOfStatement (laid tree.now) at result }
{
    if stands_statement(tree, at) {
        Ok(Places {
            text: at,
            parameters: Vec::new(alloc),
            statements: None,
        })
    } else {
        Err(BodiesFault::NotThere)
    }
}

#[tactic(auto, using(crate::proofs::BodyLemmas::function_places_are, crate::proofs::BodyLemmas::no_function_places))]
fn function_places(alloc: Global, tree: &Tree, at: usize) -> Result<Places, BodiesFault>
    ensures { AreOfAFunction (laid tree.now) at result }
{
    match function_at(alloc, tree, at)? {
        Some(places) => Ok(places),
        None => Err(BodiesFault::NotThere),
    }
}

#[tactic(auto, using(crate::proofs::BodyLemmas::statements_places_are, crate::proofs::BodyLemmas::no_statements_places))]
fn statements_places(alloc: Global, tree: &Tree, at: usize) -> Result<Places, BodiesFault>
    ensures { AreOfStatements (laid tree.now) at result }
{
    match statements_at(tree, at)? {
        Some(mark) => Ok(Places {
            text: at,
            parameters: Vec::new(alloc),
            statements: Some(mark),
        }),
        None => Err(BodiesFault::NotThere),
    }
}

/// The places of the parts of a body.
fn places_of(alloc: Global, tree: &Tree, row: &BodyRow) -> Result<Places, BodiesFault>
    ensures { AreFound (laid tree.now) row.now result }
{
    match row {
        BodyRow::Statement { at, .. } => statement_places(alloc, tree, *at as usize),
        BodyRow::Function { at } => function_places(alloc, tree, *at as usize),
        BodyRow::Statements { at } => statements_places(alloc, tree, *at as usize),
    }
}

/// The tree of a unit, its bodies with the places of their parts there, and the places of its `Qt.binding`s with the bodies of
/// their functions. Contracts see the tree, the rows and the places.
#[derive(Drop)]
pub struct UnitBodies {
    tree: Tree,
    rows: Vec<BodyRow>,
    places: Vec<Places>,
    bindings: Vec<(Place, u32)>,
}

impl Model for UnitBodies {
    ghost use Rattle.js_locals.specs.Laid.{laid};
    ghost use Rattle.unit_rows.specs.Placed.{UnitTexts, HavePlaces};

    ghost Value = { UnitTexts };

    ghost view = { λ u. record { tree = u.tree; rows = u.rows.items; bindings = u.bindings.items } };

    ghost invariant = { λ u. HavePlaces (laid u.tree) u.rows.items u.places.items };
}

impl UnitBodies {
    /// The bodies of these rows in a tree, in time that goes by how many they are and how many parameters they have. `NotThere`
    /// exactly where at the place of one stands no part of its sort.
    pub fn new(
        alloc: Global,
        tree: Tree,
        rows: Vec<BodyRow>,
        bindings: Vec<(Place, u32)>,
    ) -> Result<UnitBodies, BodiesFault>
        ensures { IsMade tree rows.items bindings.items result }
    {
        let places = all_placed(alloc, &tree, &rows)?;
        Ok(UnitBodies {
            tree,
            rows,
            places,
            bindings,
        })
    }

    /// The tree in which they stand.
    pub fn tree(&self) -> &Tree
        ensures { result.now ≡ self.now.tree }
    {
        &self.tree
    }

    /// The places of the body of a number, if there is one.
    pub fn body(&self, at: u32) -> Option<&Places>
        ensures { IsBodyOf (laid self.now.tree) self.now.rows at result }
    {
        places_at(&self.tree, &self.rows, &self.places, at as usize)
    }
}

/// The places of the body of a number among these.
#[tactic(auto, using(crate::proofs::BodyLemmas::no_body_there))]
fn places_at<'a>(
    tree: &Tree,
    rows: &[BodyRow],
    places: &'a [Places],
    at: usize,
) -> Option<&'a Places>
    requires { HavePlaces (laid tree.now) rows.now places.now }
    ensures { IsBodyOf (laid tree.now) rows.now at result }
{
    if at < places.len() {
        Some(&places[at])
    } else {
        None
    }
}

/// The places of all of these rows.
#[tactic(auto, using(crate::proofs::BodyLemmas::placing_first, crate::proofs::BodyLemmas::placing_on, crate::proofs::BodyLemmas::placing_stopped, crate::proofs::BodyLemmas::placing_end))]
fn all_placed(alloc: Global, tree: &Tree, rows: &[BodyRow]) -> Result<Vec<Places>, BodiesFault>
    ensures { ArePlaced (laid tree.now) rows.now result }
{
    let mut places = Vec::new(alloc);
    'rows: for row in rows {
        places.push(places_of(alloc, tree, row)?)?;
    }
    Ok(places)
}
