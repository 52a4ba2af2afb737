//! Texts that are compared.

ghost use Rattle.std.specs.Prelude.{◌≡◌};
ghost use Rattle.js_meaning.specs.Operate.{units_before};

/// Whether units come before others: at the first place where they differ, or as their front.
pub(crate) fn units_before(a: &[u16], b: &[u16]) -> bool
    ensures { result ≡ units_before a.now b.now }
{
    let mut x = a;
    let mut y = b;
    'units: loop {
        let Some((w, ws)) = y.split_first() else {
            return false;
        };
        let Some((u, us)) = x.split_first() else {
            return true;
        };
        if *u != *w {
            return *u < *w;
        }
        x = us;
        y = ws;
    }
}
