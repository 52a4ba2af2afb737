//! Live objects by their numbers.

ghost use Rattle.std.specs.Prelude.{◌≡◌};
ghost use Rattle.std.specs.List.{list_any};
ghost use Rattle.instance_plans.specs.Numbers.{planned_at};
ghost use Rattle.machine_model.specs.Dispatch as machine;
ghost use Rattle.machine_state.specs.Keeping.{machine_of};
ghost use Rattle.signal_dispatch.specs.Hearing.{is_number, is_condemned_one};

use instance_contents::builtin_planned;
use instance_plans::Planned;
use machine_state::State;
use object_tree::Tree;
use qml_base::ObjNo;
use qml_types::TypeNo;

/// How the object of a number is written, among these.
pub fn written_at(written: &[Planned], o: ObjNo) -> Option<Planned>
    ensures { result ≡ planned_at written.now o.0 }
{
    'written: for x in written {
        if x.number == o.0 {
            return Some(*x);
        }
    }
    None
}

/// The built-in type of the object of a number.
pub fn builtin_in<'a>(state: &State<'a>, o: ObjNo) -> TypeNo
    ensures { result ≡ machine.builtin_in (machine_of state.now) o }
{
    match written_at(state.written.as_slice(), o) {
        Some(x) => builtin_planned(state.units, x),
        None => TypeNo::QtObject,
    }
}

/// Whether the object is among these.
fn is_among(numbers: &[ObjNo], o: ObjNo) -> bool
    ensures { result ≡ list_any (is_number o) numbers.now }
{
    'numbers: for number in numbers {
        if number.0 == o.0 {
            return true;
        }
    }
    false
}

/// Whether an object of these is the one and is condemned.

fn is_doomed(objects: &Tree, o: ObjNo) -> bool
    ensures { result ≡ list_any (is_condemned_one o) objects.now.objects }
{
    is_among(objects.doomed(), o)
}

/// Whether the object is condemned.
pub fn is_condemned<'a>(state: &State<'a>, o: ObjNo) -> bool
    ensures { result ≡ machine.is_condemned (machine_of state.now) o }
{
    is_doomed(state.tree.objects(), o)
}
