//! Places of parts in texts, and of values in lists.

ghost use Rattle.std.specs.Prelude.{◌≡◌, ◌≤◌, length};
ghost use Rattle.js_meaning.specs.Operate.{same_units};
ghost use Rattle.js_meaning.specs.Methods.{found_from, value_from, ends_with};

use crate::texts::begins_with;
use js_operators::same;
use qml_value::Value;

/// The first place from one on at which a part stands.
#[tactic(auto, using(crate::proofs::SearchLemmas::found_here, crate::proofs::SearchLemmas::found_nowhere, crate::proofs::SearchLemmas::found_behind))]
pub(crate) fn found_from(part: &[u16], units: &[u16], from: usize) -> Option<usize>
    requires { from ≤ length units.now }
    ensures { result ≡ found_from part.now units.now from }
{
    let mut rest = &units[from..];
    let mut at = from;
    'places: loop {
        if begins_with(part, rest) {
            return Some(at);
        }
        let Some((_, behind)) = rest.split_first() else {
            return None;
        };
        rest = behind;
        at += 1;
    }
}

/// Whether units are the same.
pub(crate) fn same_units(a: &[u16], b: &[u16]) -> bool
    ensures { result ≡ same_units a.now b.now }
{
    let mut x = a;
    let mut y = b;
    'units: loop {
        let Some((u, us)) = x.split_first() else {
            return y.is_empty();
        };
        let Some((w, ws)) = y.split_first() else {
            return false;
        };
        if *u != *w {
            return false;
        }
        x = us;
        y = ws;
    }
}

/// Whether units end with a part.
pub(crate) fn ends_with(part: &[u16], units: &[u16]) -> bool
    ensures { result ≡ ends_with part.now units.now }
{
    if part.len() > units.len() {
        return false;
    }
    let from = units.len() - part.len();
    same_units(&units[from..], part)
}

/// The first place from one on at which a value stands.
pub(crate) fn value_from(sought: &Value, values: &[Value], from: usize) -> Option<usize>
    requires { from ≤ length values.now }
    ensures { result ≡ value_from sought.now values.now from }
{
    let mut rest = &values[from..];
    let mut at = from;
    'values: while let Some((value, behind)) = rest.split_first() {
        if same(value, sought) {
            return Some(at);
        }
        rest = behind;
        at += 1;
    }
    None
}
