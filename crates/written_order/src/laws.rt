//! What is told in the order of writing.

ghost use Rattle.std.specs.Prelude.{ℕ, []};
ghost use Rattle.qml_base.specs.declared.load_cause.LoadCause.TheVariants as cause;
ghost use Rattle.program_names.specs.Written.{WrittenMember};
ghost use Rattle.program_names.specs.Loaded.{Program};
ghost use Rattle.load_faults.specs.Faults.{Faults, each_member};
ghost use Rattle.load_faults.specs.Duplicates.{declared_twice, second_ids, roles_twice};
ghost use Rattle.load_passes.specs.Rows.{repeated};
ghost use Rattle.written_order.specs.InOrder.{HasMembers, ToldAlike, faults_written, names_written, id_rows, role_rows, declared_rows};

use load_passes::{declared_names_as_rows, roles_as_rows, second_ids_as_rows};

/// What each member of a document tells by itself may be told in the order of writing.
pub fn members_in_the_order_of_writing()
    ensures { (p : Program) (d : ℕ) (f : ℕ → WrittenMember → Faults) → HasMembers p d →
        ToldAlike (faults_written p d f) (each_member p d f) }
{}

/// So may second ids be told of objects.
pub fn second_ids_in_the_order_of_writing()
    ensures { (p : Program) (d : ℕ) → HasMembers p d →
        ToldAlike (repeated cause.DuplicateName [] (names_written p d id_rows)) (second_ids p d) }
{
    second_ids_as_rows();
}

/// So may roles that a row gives twice.
pub fn roles_in_the_order_of_writing()
    ensures { (p : Program) (d : ℕ) → HasMembers p d →
        ToldAlike (repeated cause.DuplicateName [] (names_written p d (role_rows p d))) (roles_twice p d) }
{
    roles_as_rows();
}

/// So may names that an object declares again, of its type or of its own.
pub fn declared_names_in_the_order_of_writing()
    ensures { (p : Program) (d : ℕ) → HasMembers p d →
        ToldAlike (repeated cause.DuplicateName [] (names_written p d (declared_rows p d))) (declared_twice p d) }
{
    declared_names_as_rows();
}
