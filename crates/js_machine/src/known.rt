//! What is known of an expression that has been read.

ghost use Rattle.std.specs.Prelude.{◌≡◌, IfOk, codes};
ghost use Rattle.std.specs.Str.{bytes_eq};
ghost use Rattle.js_machine.specs.Moves as moves;

use crate::open::{Have, Reach};
use qml_base::NoMemory;
use qml_text::Text;
use std::alloc::Global;

/// A text of the same units.
pub fn copied(text: &Text, alloc: Global) -> Result<Text, NoMemory>
    ensures { IfOk result (λ t. t ≡ text.now) }
{
    match text.copy(alloc) {
        Ok(units) => Ok(units),
        Err(_) => Err(NoMemory),
    }
}

/// Whether it is `Qt`.
fn is_qt(text: &Text) -> bool
    ensures { result ≡ bytes_eq text.now (codes "Qt") }
{
    match text.units() {
        [81, 116] => true,
        _ => false,
    }
}

/// An expression that nothing is known of but that it is whole.
pub fn plain() -> Have
    ensures { result ≡ moves.plain }
{
    Have {
        primary: true,
        stepped: false,
        tight: 16,
        target: false,
        callable: true,
        reach: Reach::Elsewhere,
    }
}

/// A name.
pub fn of_name(name: &Text) -> Have
    ensures { result ≡ moves.of_name name.now }
{
    let reach = if is_qt(name) {
        Reach::Qt
    } else {
        Reach::Elsewhere
    };
    Have {
        primary: true,
        stepped: false,
        tight: 16,
        target: true,
        callable: true,
        reach,
    }
}

/// An expression with a step behind it, which may be assigned to or not.
pub fn of_step_to(target: bool, reach: Reach) -> Have
    ensures { result ≡ moves.of_step_to target reach }
{
    Have {
        primary: true,
        stepped: true,
        tight: 15,
        target,
        callable: true,
        reach,
    }
}

/// An expression with `++` or `--` behind it.
pub fn of_bumped() -> Have
    ensures { result ≡ moves.of_bumped }
{
    Have {
        primary: false,
        stepped: false,
        tight: 14,
        target: false,
        callable: false,
        reach: Reach::Elsewhere,
    }
}

/// The units of `binding`.
const BINDING: [u16; 7] = [98, 105, 110, 100, 105, 110, 103];

/// Whether it is `binding`.
fn is_binding(text: &Text) -> bool
    ensures { result ≡ bytes_eq text.now (codes "binding") }
{
    text.units() == BINDING.as_slice()
}

/// What the member of this name of an expression is.
pub fn member_reach(reach: Reach, name: &Text) -> Reach
    ensures { result ≡ moves.member_reach reach name.now }
{
    match reach {
        Reach::Qt => {
            if is_binding(name) {
                Reach::Binding
            } else {
                Reach::Elsewhere
            }
        }
        Reach::Binding | Reach::Elsewhere => Reach::Elsewhere,
    }
}
