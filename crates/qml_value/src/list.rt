//! Lists of values.

ghost use Rattle.std.specs.Prelude.{◌≡◌, []};
ghost use Rattle.qml_value.specs.Lists.{list_of};

use crate::row::Row;
use crate::value::{List, Value};
use crate::weight::nesting_inside;
use qml_base::DEPTH_LIMIT;
use std::alloc::Global;
use thiserror::Error;

/// The list or the fields would be nested more than 100 deep.
#[derive(Clone, Copy, Debug, PartialEq, Eq, Error)]
#[error("the list or the fields would be nested more than {DEPTH_LIMIT} deep")]
pub struct TooDeep;

impl Row<Value> {
    /// The empty list. It takes no memory.
    pub fn new(alloc: Global) -> List
        ensures { result ≡ [] }
    {
        Row::of_vec(Vec::new(alloc))
    }

    /// The list of these values, or `TooDeep` exactly where it would be nested more than 100 deep.
    pub fn from_vec(values: Vec<Value>) -> Result<List, TooDeep>
        ensures { result ≡ list_of values.items }
    {
        if nesting_inside(&values) < DEPTH_LIMIT as usize {
            Ok(Row::of_vec(values))
        } else {
            Err(TooDeep)
        }
    }
}
