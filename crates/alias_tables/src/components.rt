//! Which objects stand together.

ghost use Rattle.std.specs.Prelude.{◌≡◌, [], IfOk};
ghost use Rattle.alias_tables.specs.Roots as s;

use qml_base::NoMemory;
use std::alloc::Global;

/// Of each object of a document the root of the component in which it stands: the object itself where it begins one, else
/// that of the object in which it is written, and the object itself where it is written in none. `owners` says in which
/// object each is written, one with a lower number, and `begins` which objects begin a component.
#[tactic(auto, using(crate::proofs::RootLemmas::goes_on))]
pub fn component_roots(
    alloc: Global,
    owners: &[Option<usize>],
    begins: &[bool],
) -> Result<Vec<usize>, NoMemory>
    ensures { IfOk result (λ roots. roots.items ≡ s.roots_after begins.now [] 0 owners.now) }
{
    let mut roots = Vec::new(alloc);
    'objects: for (object, owner) in owners.iter().enumerate() {
        let root = root_by(begins, &roots, object, *owner);
        roots.push(root)?;
    }
    Ok(roots)
}

/// The root of an object, where these are those of the objects before it.
fn root_by(begins: &[bool], roots: &[usize], object: usize, owner: Option<usize>) -> usize
    ensures { result ≡ s.root_by begins.now roots.now object owner }
{
    if begins_at(begins, object) {
        return object;
    }
    match owner {
        Some(owner) => root_at(roots, owner),
        None => object,
    }
}

fn begins_at(begins: &[bool], object: usize) -> bool
    ensures { result ≡ s.begins_at begins.now object }
{
    match begins.get(object) {
        Some(begins) => *begins,
        None => false,
    }
}

/// The root of the component in which an object stands, where these are those of a document; 0 for one that isn't there.
pub fn root_at(roots: &[usize], object: usize) -> usize
    ensures { result ≡ s.root_at roots.now object }
{
    match roots.get(object) {
        Some(root) => *root,
        None => 0,
    }
}
