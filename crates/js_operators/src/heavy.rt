//! Values that may be too heavy.

ghost use Rattle.std.specs.Prelude.{◌≡◌, ◌++◌, IfOk};
ghost use Rattle.js_meaning.specs.Operate.{weighed};
ghost use Rattle.js_meaning.specs.Rows.{list_value};

use evaluation::Ended;
use qml_base::Cause;
use qml_value::{List, Value};

/// The value, or a throw of `size` where it weighs more than 1,048,576 or is nested more than 100 deep.
#[tactic(auto, using(crate::proofs::WeightLemmas::heavy_throws, crate::proofs::WeightLemmas::light_stays))]
pub fn weighed(value: Value) -> Ended
    ensures { result ≡ weighed value }
{
    if value.is_too_heavy() {
        Ended::Threw(Cause::Size)
    } else {
        Ended::Value(value)
    }
}

/// The list of these values, or a throw of `size` where it is too heavy.
#[tactic(auto, using(crate::proofs::WeightLemmas::list_weighed, crate::proofs::WeightLemmas::list_too_deep))]
pub fn weighed_list(values: Vec<Value>) -> Ended
    ensures { result ≡ weighed (list_value values.items) }
{
    match List::from_vec(values) {
        Ok(list) => weighed(Value::List(list)),
        Err(_) => Ended::Threw(Cause::Size),
    }
}
