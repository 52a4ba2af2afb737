//! Values for what may not be given, and values that have to be literals.

ghost use Rattle.std.specs.Prelude.{◌≡◌};
ghost use Rattle.load_faults.specs.Faults.{first_from};
ghost use Rattle.load_faults.specs.Properties.{may_be_given as given_by};
ghost use Rattle.load_passes.specs.Rows.{value_faults, read_only, not_literal};

use crate::best::Best;
use program_names::Fault;
use qml_base::{LoadCause, Place};
use qml_types::Access;

/// A value that is given for a property.
#[derive(Clone, Copy, Debug)]
pub struct ValueRow {
    /// The first token of its path.
    pub at: Place,
    /// The first token of the value.
    pub value_at: Place,
    /// Who gives the property its values.
    pub access: Access,
    /// Whether the object has it by its own name, and not through an alias.
    pub own: bool,
    /// Whether the value is a literal.
    pub is_literal: bool,
}

/// Tells each value for a readonly property and each that has to be a literal and isn't.
pub fn tell_values(rows: &[ValueRow], best: &mut Best)
    ensures { best.new.fault ≡ first_from best.old.fault (value_faults rows.now) }
{
    'rows: for row in rows {
        tell_read_only(row, best);
        tell_not_literal(row, best);
    }
}

fn tell_read_only(row: &ValueRow, best: &mut Best)
    ensures { best.new.fault ≡ first_from best.old.fault (read_only row.now) }
{
    if !may_be_given(row.access, row.own) {
        best.tell(Fault {
            at: row.at,
            cause: LoadCause::ReadOnly,
        });
    }
}

fn tell_not_literal(row: &ValueRow, best: &mut Best)
    ensures { best.new.fault ≡ first_from best.old.fault (not_literal row.now) }
{
    if row.own && row.access == Access::Literal && !row.is_literal {
        best.tell(Fault {
            at: row.value_at,
            cause: LoadCause::NotLiteral,
        });
    }
}

/// Whether an object may give such a property a value.
fn may_be_given(access: Access, own: bool) -> bool
    ensures { result ≡ given_by access own }
{
    match access {
        Access::Writable => true,
        Access::Literal | Access::Id => own,
        Access::ReadOnly | Access::Hidden => false,
    }
}
