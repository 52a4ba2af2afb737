//! Names of handlers.

ghost use Rattle.std.specs.Prelude.{◌≡◌, ◌∷◌, [], codes};
ghost use Rattle.std.specs.Str.{bytes_eq};
ghost use Rattle.program_names.specs.Names.{begins_raised as starts_raised, is_handler_name as is_name_of_handler};

use qml_text::Text;

/// Whether this is what a raised name begins with: no letter of a to z and no digit.
fn is_raised(letter: u16) -> bool
    ensures { result ≡ starts_raised (letter ∷ []) }
{
    !(letter >= 97 && letter <= 122 || letter >= 48 && letter <= 57)
}

fn begins_raised(name: &[u16]) -> bool
    ensures { result ≡ starts_raised name.now }
{
    match name.split_first() {
        Some((letter, _)) => is_raised(*letter),
        None => false,
    }
}

/// Whether a name is that of the handler of some signal.
pub(crate) fn is_handler_name(name: &[u16]) -> bool
    ensures { result ≡ is_name_of_handler name.now }
{
    let Some((first, behind)) = name.split_first() else {
        return false;
    };
    match behind.split_first() {
        Some((second, rest)) => *first == 111 && *second == 110 && begins_raised(rest),
        None => false,
    }
}

/// `Component`, `onCompleted` and `onDestruction`.
const COMPONENT: [u16; 9] = [67, 111, 109, 112, 111, 110, 101, 110, 116];

const COMPLETED: [u16; 11] = [111, 110, 67, 111, 109, 112, 108, 101, 116, 101, 100];

const DESTRUCTION: [u16; 13] = [
    111, 110, 68, 101, 115, 116, 114, 117, 99, 116, 105, 111, 110,
];

pub(crate) fn is_component(name: &Text) -> bool
    ensures { result ≡ bytes_eq name.now (codes "Component") }
{
    name.units() == COMPONENT.as_slice()
}

pub(crate) fn is_completed(name: &Text) -> bool
    ensures { result ≡ bytes_eq name.now (codes "onCompleted") }
{
    name.units() == COMPLETED.as_slice()
}

pub(crate) fn is_destruction(name: &Text) -> bool
    ensures { result ≡ bytes_eq name.now (codes "onDestruction") }
{
    name.units() == DESTRUCTION.as_slice()
}
