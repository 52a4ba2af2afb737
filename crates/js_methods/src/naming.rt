//! Names that the language knows, in ASCII.

ghost use Rattle.std.specs.Prelude.{◌≡◌};
ghost use Rattle.js_meaning.specs.Operate.{same_units};

use qml_text::Text;

/// Whether units are these ASCII bytes.
fn same_ascii(units: &[u16], bytes: &[u8]) -> bool
    ensures { result ≡ same_units units.now bytes.now }
{
    let mut x = units;
    let mut y = bytes;
    'units: loop {
        let Some((u, us)) = x.split_first() else {
            return y.is_empty();
        };
        let Some((w, ws)) = y.split_first() else {
            return false;
        };
        if *u != u16::from(*w) {
            return false;
        }
        x = us;
        y = ws;
    }
}

/// Whether a name is this ASCII text.
pub fn named(name: &Text, ascii: &[u8]) -> bool
    ensures { result ≡ same_units name.now ascii.now }
{
    same_ascii(name.units(), ascii)
}
