//! The list of the condemned objects, put in the order of their numbers.
ghost use Rattle.std.specs.Prelude.{◌≡◌, ◌<◌, ◌≤◌, ◌++◌, ◌∷◌, [], length, vec_len, vec_capacity};
ghost use Rattle.tree_model.specs.Removing.{doomed_of};

use qml_base::ObjNo;
use tree_model::Object;

/// Lists one more number, in room that is there.
fn list(numbers: &mut Vec<ObjNo>, number: ObjNo)
    requires { vec_len numbers.old < vec_capacity numbers.old }
    ensures items { numbers.new.items ≡ numbers.old.items ++ number ∷ [] }
    ensures capacity { vec_capacity numbers.old ≤ vec_capacity numbers.new }
{
    if numbers.push(number).is_err() {
        return;
    }
}

/// Lists the condemned objects anew, in room that is there. The objects lie in the order of their numbers, so the list does.
pub fn list_condemned(objects: &[Object], numbers: &mut Vec<ObjNo>)
    requires { length objects.now ≤ vec_capacity numbers.old }
    ensures numbers { numbers.new.items ≡ doomed_of objects.now }
    ensures capacity { vec_capacity numbers.old ≤ vec_capacity numbers.new }
{
    numbers.clear();
    'objects: for i in 0..objects.len() {
        let object = objects[i];
        if object.condemned {
            list(numbers, object.number);
        }
    }
}
