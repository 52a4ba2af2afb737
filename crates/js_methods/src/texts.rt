//! Texts that are searched.

ghost use Rattle.std.specs.Prelude.{◌≡◌};
ghost use Rattle.js_meaning.specs.Methods.{begins_with};

/// Whether units begin with a part.
pub(crate) fn begins_with(part: &[u16], units: &[u16]) -> bool
    ensures { result ≡ begins_with part.now units.now }
{
    let mut x = part;
    let mut y = units;
    'units: loop {
        let Some((p, ps)) = x.split_first() else {
            return true;
        };
        let Some((u, us)) = y.split_first() else {
            return false;
        };
        if *p != *u {
            return false;
        }
        x = ps;
        y = us;
    }
}
