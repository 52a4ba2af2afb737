//! Why a step doesn't go on.

use machine_model::Stop;
use qml_base::NoMemory;

/// Why a step doesn't go on.
#[derive(Debug, Drop)]
pub enum Fault {
    /// The run stops.
    Stopped(Stop),
    /// There was no memory. The machine may have changed in part.
    NoMemory,
}

impl From<NoMemory> for Fault {
    ghost use Rattle.std.specs.Prelude.{◌≡◌};
    ghost use Rattle.machine_steps.specs.declared.fault.Fault.TheVariants as fault;

    ghost from_gives = { λ _ e. e ≡ fault.NoMemory };

    fn from(_: NoMemory) -> Fault {
        Fault::NoMemory
    }
}
