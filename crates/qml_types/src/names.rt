//! Finding a type by its module and name.

ghost use Rattle.std.specs.Prelude.{◌≡◌, map};
ghost use Rattle.qml_types.specs.Table.{offered, offers, offer_of, is_offering};

use crate::kind::TypeNo;
use crate::offers::{OFFERS, Offer};

/// The type of this name in this module, and None exactly where the module isn't there or has no such name.
pub fn lookup(module_name: &str, name: &str) -> Option<TypeNo>
    ensures { result ≡ offered offers module_name.now name.now }
{
    offered_in(&OFFERS, module_name, name)
}

/// The type that the first of these offers for the module and name gives.
fn offered_in(rows: &[Offer], module_name: &str, name: &str) -> Option<TypeNo>
    ensures { result ≡ offered (map offer_of rows.now) module_name.now name.now }
{
    'rows: for row in rows {
        if row.0 == module_name && row.1 == name {
            return Some(row.2);
        }
    }
    None
}

/// Whether there is a module of this name.
pub fn is_module(name: &str) -> bool
    ensures { result ≡ is_offering offers name.now }
{
    is_offered_by(&OFFERS, name)
}

/// Whether one of these offers is of the module.
fn is_offered_by(rows: &[Offer], module_name: &str) -> bool
    ensures { result ≡ is_offering (map offer_of rows.now) module_name.now }
{
    'rows: for row in rows {
        if row.0 == module_name {
            return true;
        }
    }
    false
}
