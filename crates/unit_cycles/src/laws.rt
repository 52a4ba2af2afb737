//! What is told, in the words of a program.

ghost use Rattle.std.specs.Prelude.{◌≡◌, ℕ, length};
ghost use Rattle.program_names.specs.Loaded.{Program};
ghost use Rattle.load_faults.specs.Cycles.{uses_of, unit_cycle};
ghost use Rattle.unit_cycles.specs.Uses.{Uses, cycle_in};

/// Where the uses are those of a program's documents, the cycles are the program's.
#[tactic(auto, using(crate::proofs::ProgramLemmas::cycle_alike))]
pub fn cycles_are_those_of_the_program()
    ensures { (p : Program) (uses : Uses) → ((d : ℕ) → uses d ≡ uses_of p d) → (d : ℕ) → cycle_in uses (length p) d ≡ unit_cycle p d }
{}
