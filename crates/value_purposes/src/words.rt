//! Words that decide what a value is given for.

ghost use Rattle.std.specs.Prelude.{◌≡◌, codes};
ghost use Rattle.std.specs.Str.{bytes_eq};
ghost use Rattle.program_names.specs.Names.{begins_raised as begins_raised_in, is_handler_name as handles};
ghost use Rattle.value_purposes.specs.Purposes as s;

use qml_text::Text;

/// `Component`.
const COMPONENT: [u16; 9] = [67, 111, 109, 112, 111, 110, 101, 110, 116];

/// `onCompleted`.
const ON_COMPLETED: [u16; 11] = [111, 110, 67, 111, 109, 112, 108, 101, 116, 101, 100];

/// `onDestruction`.
const ON_DESTRUCTION: [u16; 13] = [
    111, 110, 68, 101, 115, 116, 114, 117, 99, 116, 105, 111, 110,
];

fn names_component(name: &Text) -> bool
    ensures { result ≡ bytes_eq name.now (codes "Component") }
{
    name.units() == COMPONENT.as_slice()
}

fn names_completed(name: &Text) -> bool
    ensures { result ≡ bytes_eq name.now (codes "onCompleted") }
{
    name.units() == ON_COMPLETED.as_slice()
}

fn names_destruction(name: &Text) -> bool
    ensures { result ≡ bytes_eq name.now (codes "onDestruction") }
{
    name.units() == ON_DESTRUCTION.as_slice()
}

fn is_attached_name(name: &Text) -> bool
    ensures { result ≡ s.is_attached_name name.now }
{
    names_completed(name) || names_destruction(name)
}

/// Whether it is `Component.onCompleted` or `Component.onDestruction`.
fn are_attached(first: &Text, second: &Text) -> bool
    ensures { result ≡ s.are_attached first.now second.now }
{
    names_component(first) && is_attached_name(second)
}

/// Whether a path behind the names of groups is one of the two attached handlers (Qt 5.15, "Component QML Type").
pub(crate) fn is_attached(before: &[Text], first: &Text, rest: &[Text]) -> bool
    ensures { result ≡ s.is_attached before.now first.now rest.now }
{
    match before.split_first() {
        Some((group, inner)) => inner.is_empty() && rest.is_empty() && are_attached(group, first),
        None => match rest.split_first() {
            Some((second, further)) => further.is_empty() && are_attached(first, second),
            None => false,
        },
    }
}

/// Whether some signal's name with its first letter raised begins so.
fn begins_raised(name: &[u16]) -> bool
    ensures { result ≡ begins_raised_in name.now }
{
    match name.first() {
        Some(letter) => { !((*letter >= 97 && *letter <= 122) || (*letter >= 48 && *letter <= 57)) }
        None => false,
    }
}

/// Whether a name is that of the handler of some signal (Qt 5.15, "Signal and Handler Event System").
pub(crate) fn is_handler_name(name: &Text) -> bool
    ensures { result ≡ handles name.now }
{
    let Some((first, behind)) = name.units().split_first() else {
        return false;
    };
    match behind.split_first() {
        Some((second, rest)) => *first == 111 && *second == 110 && begins_raised(rest),
        None => false,
    }
}
