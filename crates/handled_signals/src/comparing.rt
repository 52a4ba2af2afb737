//! Names of signals beside names of handlers.

ghost use Rattle.std.specs.Prelude.{◌≡◌};
ghost use Rattle.std.specs.Str.{bytes_eq};
ghost use Rattle.program_names.specs.Names.{raised, handler_of};
ghost use Rattle.handled_signals.specs.Handled as s;

/// A letter raised, where it is one of a to z.
fn raised_letter(letter: u16) -> u16
    ensures { result ≡ s.raised_letter letter }
{
    if letter >= 97 && letter <= 122 {
        letter - 32
    } else {
        letter
    }
}

fn is_same(a: &[u16], b: &[u16]) -> bool
    ensures { result ≡ bytes_eq a.now b.now }
{
    a == b
}

/// Whether the second name is the first with its first letter raised.
fn is_raised(name: &[u16], other: &[u16]) -> bool
    ensures { result ≡ bytes_eq (raised name.now) other.now }
{
    let Some((first, rest)) = name.split_first() else {
        return other.is_empty();
    };
    match other.split_first() {
        Some((letter, behind)) => raised_letter(*first) == *letter && is_same(rest, behind),
        None => false,
    }
}

/// Whether a name is that of the handler of a signal: `on`, then the signal's name with its first letter raised (Qt 5.15, "Signal and
/// Handler Event System").
pub(crate) fn handles(handler: &[u16], signal: &[u16]) -> bool
    ensures { result ≡ bytes_eq (handler_of signal.now) handler.now }
{
    let Some((first, behind)) = handler.split_first() else {
        return false;
    };
    match behind.split_first() {
        Some((second, rest)) => *first == 111 && *second == 110 && is_raised(signal, rest),
        None => false,
    }
}
