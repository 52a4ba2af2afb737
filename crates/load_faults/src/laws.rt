//! Laws of the first fault.

ghost use Rattle.std.specs.Prelude.{◌≡◌, ◌++◌, Some};
ghost use Rattle.std.specs.declared.option.Option.{Option};
ghost use Rattle.program_names.specs.declared.fault.Fault.{Fault};
ghost use Rattle.load_faults.specs.Faults.{Faults, first_fault, IsFirst, SameFirst};

/// The first fault is one of the faults, and none of them comes before it.
pub fn first_is_least()
    ensures { (faults : Faults) (f : Fault) → first_fault faults ≡ Some f → IsFirst faults f }
{}

/// In whatever order faults are told, the first is the same.
pub fn in_any_order()
    ensures { (kept : Option Fault) (some others : Faults) → SameFirst kept (some ++ others) (others ++ some) }
{}
