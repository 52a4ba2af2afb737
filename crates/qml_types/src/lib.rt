//! The types that are built in, as one table: which module offers which type, which type stands on which, the cells of each
//! with their places, kinds and first values, their signals, methods and default members, the kinds of properties and the
//! texts of enumerations (Qt 5.15, the QML types of QtQml and QtQuick, as far as this engine has them, and the module
//! QmlRun). Each look-up promises exactly what the table of `specs/Table.antt`, `specs/Members.antt` and `specs/Kinds.antt`
//! says; what a cell holds at first is `specs/First.antt`, and conversion to a property's kind `specs/Conversion.antt`.
#![tactic(auto)]

mod cells;
mod conversion;
mod kind;
mod laws;
mod members;
mod names;
mod offers;
mod places;
#[cfg(test)]
mod tests;

pub use cells::{Cell, own_cells};
pub use conversion::{ConvertFault, convert, default_of};
pub use kind::{Access, PropKind, Start, TypeNo, TypeRef, basic_kind};
pub use laws::{
    converted_values_stay, each_module_offers_a_name_once, members_are_found_by_name,
    names_differ_in_a_type, places_count_up, types_are_found_where_offered, what_is_given_is_held,
};
pub use members::{
    DefaultMember, Method, Signal, default_member, enumeration_texts, find_method, find_signal,
    own_methods, own_signals,
};
pub use names::{is_module, lookup};
pub use places::{cell_at, cell_count, property};
