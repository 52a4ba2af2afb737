//! Laws of the table and of conversion, each as the contract of a call that does nothing.

ghost use Rattle.std.specs.Prelude.{◌≡◌, ◌≢◌, ◌↔◌, ℕ, List, map, Some, IsTrue, Ok};
ghost use Rattle.std.specs.Str.{bytes_eq};
ghost use Rattle.qml_value.specs.declared.value.Value.{Value};
ghost use Rattle.qml_types.specs.declared.kind.TypeNo.{TypeNo};
ghost use Rattle.qml_types.specs.declared.kind.TypeRef.{TypeRef};
ghost use Rattle.qml_types.specs.declared.kind.PropKind.{PropKind};
ghost use Rattle.qml_types.specs.declared.kind.PropKind.TheVariants as kinds;
ghost use Rattle.qml_types.specs.declared.members.Method.{Method};
ghost use Rattle.qml_types.specs.Table.{TypeCell, cells_of, offers, offered, found};
ghost use Rattle.qml_types.specs.Members.{TypeSignal, signals_of, methods_of, signal_named, method_named};
ghost use Rattle.qml_types.specs.Tests.{counts_up, all_differ, same_offer, member_names, all_go_right, IsOffered, IsProperty, IsSignal, IsMethod};
ghost use Rattle.qml_types.specs.Conversion.{IsConverted, default_of};

/// The cells of each type have the places 0, 1, 2 and so on, those of its bases first, and so have its signals. So no place
/// is given twice, and what a base has stands at the same places in every type that stands on it.
pub fn places_count_up()
    ensures cells { (type : TypeNo) → IsTrue (counts_up 0 (map (λ cell. cell.place) (cells_of type))) }
    ensures signals { (type : TypeNo) → IsTrue (counts_up 0 (map (λ signal. signal.place) (signals_of type))) }
{}

/// No two of a type's cells, signals and methods have one name, those of its bases and hidden cells included.
pub fn names_differ_in_a_type()
    ensures { (type : TypeNo) → IsTrue (all_differ bytes_eq (member_names type)) }
{}

/// What is given for a cell goes to the cell itself, or, for two of an Item, to a hidden one of the same kind that the trace
/// shows by the name of the first.
pub fn what_is_given_is_held()
    ensures { (type : TypeNo) → IsTrue (all_go_right (cells_of type)) }
{}

/// No module offers two types under one name.
pub fn each_module_offers_a_name_once()
    ensures { IsTrue (all_differ same_offer offers) }
{}

/// A type is found by a module and a name exactly where the table has a row of them that gives it.
pub fn types_are_found_where_offered()
    ensures { (from name : List ℕ) (type : TypeNo) →
        (offered offers from name ≡ Some type) ↔ IsOffered offers from name type }
{}

/// A cell is found by a name exactly where the type has it and it is shown by this name, and a signal and a method exactly
/// where the type has one of the name.
pub fn members_are_found_by_name()
    ensures cells { (type : TypeNo) (name : List ℕ) (cell : TypeCell) →
        (found (cells_of type) name ≡ Some cell) ↔ IsProperty (cells_of type) name cell }
    ensures signals { (type : TypeNo) (name : List ℕ) (signal : TypeSignal) →
        (signal_named (signals_of type) name ≡ Some signal) ↔ IsSignal (signals_of type) name signal }
    ensures methods { (type : TypeNo) (name : List ℕ) (method : Method) →
        (method_named (methods_of type) name ≡ Some method) ↔ IsMethod (methods_of type) name method }
{}

/// A value that was converted to a kind converts to itself there, so converting again changes nothing; and so does the
/// default of each kind but a list, to which nothing converts.
pub fn converted_values_stay()
    ensures again { (kind : PropKind) (types : List TypeRef) (value as_kind : Value) →
        IsConverted kind types value (Ok as_kind) → IsConverted kind types as_kind (Ok as_kind) }
    ensures defaults { (kind : PropKind) (types : List TypeRef) →
        ((type : TypeRef) → kind ≢ kinds.List type) → IsConverted kind types (default_of kind) (Ok (default_of kind)) }
{}
