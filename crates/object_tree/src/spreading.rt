//! Marking all that is doomed with an object. The list of the condemned objects is the list of what is left to do: what hangs
//! on each is marked and put behind the others, so each marked object is looked at once.

ghost use Rattle.std.specs.Prelude.{◌≡◌, ◌≢◌, ◌↔◌, ◌+◌, ◌<◌, ◌≤◌, ◌++◌, ◌∷◌, ◌⊎◌, [], List, ℕ, true, false, length, slice_get, slice_set, slice_index, Some, vec_len, vec_capacity};
ghost use Rattle.std.specs.List.Sorted.{IsPermutation};
ghost use Rattle.qml_base.specs.declared.numbers.ObjNo.{ObjNo};
ghost use Rattle.tree_model.specs.declared.cells.Object.{Object};
ghost use Rattle.tree_model.specs.Doomed.{Doomed, Stands, Begins, IsOrdered, is_marked, marked_from};
ghost use Rattle.tree_model.specs.Removing.{doomed_of};
ghost use Rattle.object_tree.specs.Trees.{IsAt};
ghost use Rattle.object_tree.specs.Links.{parent_by, GoOn, IsLinked};
ghost use Rattle.object_tree.specs.Spreading.{Spreads, Covers, IsWhole, AllMarked, AllListed, unmarked, condemned_one};
ghost use Rattle.object_tree.specs.declared.links.Tie.TheVariants as by_tie;

use crate::links::{Links, Tie, parent, told};
use crate::places::{place, stands_in};
use qml_base::ObjNo;
use tree_model::Object;

/// Marks the object at the place and lists it, in room that is there.
fn mark_at(objects: &mut [Object], doomed: &mut Vec<ObjNo>, c: usize)
    requires within { c < length objects.old }
    requires room { vec_len doomed.old < vec_capacity doomed.old }
    ensures objects { (x : Object) → slice_get objects.old c ≡ Some x → objects.new ≡ slice_set objects.old c (condemned_one x) }
    ensures doomed { (x : Object) → slice_get objects.old c ≡ Some x → doomed.new.items ≡ doomed.old.items ++ x.number ∷ [] }
    ensures capacity { vec_capacity doomed.old ≤ vec_capacity doomed.new }
{
    let object = objects[c];
    if doomed.push(object.number).is_err() {
        return;
    }
    objects[c] = Object {
        number: object.number,
        owner: object.owner,
        origin: object.origin,
        condemned: true,
    };
}

/// Whether the object hangs on p.
fn hangs(tie: Tie, object: Object, p: ObjNo) -> bool
    ensures yes { result ≡ true → parent_by tie object ≡ Some p }
    ensures no { result ≡ false → parent_by tie object ≢ Some p }
{
    match parent(tie, object) {
        Some(q) => q == p,
        None => false,
    }
}

/// Behind which place the others stand that hang on the same as the one at the place.
fn earlier(before: &[u32], c: usize) -> usize
    ensures falls { result ≤ c }
    ensures past { (j : ℕ) → j < c → j < slice_index before.now c → j < result }
{
    let place = told(before, c);
    if place < c { place } else { c }
}

/// Marks the object at the place where it hangs on p, and tells behind which place the others stand that do.
fn step(
    before: &[u32],
    tie: Tie,
    objects: &mut [Object],
    doomed: &mut Vec<ObjNo>,
    p: ObjNo,
    c: usize,
) -> usize
    requires marked { is_marked objects.old p ≡ true }
    requires linked { GoOn tie (length objects.old) objects.old before.now }
    requires room { unmarked objects.old + vec_len doomed.old ≤ vec_capacity doomed.old }
    ensures spreads { (o : ObjNo) → Spreads o objects.old doomed.old.items objects.new doomed.new.items }
    ensures capacity { vec_capacity doomed.old ≤ vec_capacity doomed.new }
    ensures falls { result ≤ c }
    ensures done { (j : ℕ) (y : Object) → result ≤ j → j ≤ c → slice_get objects.new j ≡ Some y → parent_by tie y ≡ Some p → y.condemned ≡ true }
{
    if c >= objects.len() {
        return c;
    }
    let object = objects[c];
    if !hangs(tie, object, p) {
        return c;
    }
    if object.condemned {
        return earlier(before, c);
    }
    mark_at(objects, doomed, c);
    earlier(before, c)
}

/// Marks all that hangs on p.
fn mark_tied(
    places: &[u32],
    links: &Links,
    tie: Tie,
    objects: &mut [Object],
    doomed: &mut Vec<ObjNo>,
    p: ObjNo,
)
    requires marked { is_marked objects.old p ≡ true }
    requires placed { IsAt places.now objects.old }
    requires linked { IsLinked tie (length objects.old) objects.old links.now.last.items links.now.before.items }
    requires room { unmarked objects.old + vec_len doomed.old ≤ vec_capacity doomed.old }
    ensures spreads { (o : ObjNo) → Spreads o objects.old doomed.old.items objects.new doomed.new.items }
    ensures capacity { vec_capacity doomed.old ≤ vec_capacity doomed.new }
    ensures done { (j : ℕ) (y : Object) → slice_get objects.new j ≡ Some y → parent_by tie y ≡ Some p → y.condemned ≡ true }
{
    let mut at = told(links.last.as_slice(), place(places, p));
    'tied: while at > 0 {
        at = step(links.before.as_slice(), tie, objects, doomed, p, at - 1);
    }
}

/// Marks all that p owns and all that was made from it.
fn cover(
    places: &[u32],
    owned: &Links,
    made: &Links,
    objects: &mut [Object],
    doomed: &mut Vec<ObjNo>,
    p: ObjNo,
)
    requires marked { is_marked objects.old p ≡ true }
    requires placed { IsAt places.now objects.old }
    requires owned { IsLinked by_tie.Owned (length objects.old) objects.old owned.now.last.items owned.now.before.items }
    requires made { IsLinked by_tie.Made (length objects.old) objects.old made.now.last.items made.now.before.items }
    requires room { unmarked objects.old + vec_len doomed.old ≤ vec_capacity doomed.old }
    ensures spreads { (o : ObjNo) → Spreads o objects.old doomed.old.items objects.new doomed.new.items }
    ensures capacity { vec_capacity doomed.old ≤ vec_capacity doomed.new }
    ensures covers { Covers objects.new p }
{
    mark_tied(places, owned, Tie::Owned, objects, doomed, p);
    mark_tied(places, made, Tie::Made, objects, doomed, p);
}

/// Goes through the listed objects from a place on, and marks and lists what hangs on them.
fn spread(
    places: &[u32],
    owned: &Links,
    made: &Links,
    objects: &mut [Object],
    doomed: &mut Vec<ObjNo>,
    from: usize,
)
    requires placed { IsAt places.now objects.old }
    requires ordered { IsOrdered 0 objects.old }
    requires owned { IsLinked by_tie.Owned (length objects.old) objects.old owned.now.last.items owned.now.before.items }
    requires made { IsLinked by_tie.Made (length objects.old) objects.old made.now.last.items made.now.before.items }
    requires room { unmarked objects.old + vec_len doomed.old ≤ vec_capacity doomed.old }
    requires marked { AllMarked doomed.old.items objects.old }
    requires listed { AllListed objects.old doomed.old.items }
    requires covered { (k : ℕ) (p : ObjNo) → k < from → slice_get doomed.old.items k ≡ Some p → Covers objects.old p }
    ensures spreads { (o : ObjNo) → Spreads o objects.old doomed.old.items objects.new doomed.new.items }
    ensures capacity { vec_capacity doomed.old ≤ vec_capacity doomed.new }
    ensures whole { IsWhole objects.new }
{
    let mut i = from;
    'work: while i < doomed.len() {
        let p = doomed[i];
        cover(places, owned, made, objects, doomed, p);
        i += 1;
    }
}

/// Marks the object of the number, if it is live, and all that is doomed with it, and puts them behind the others that are listed.
pub fn condemn(
    places: &[u32],
    owned: &Links,
    made: &Links,
    objects: &mut [Object],
    doomed: &mut Vec<ObjNo>,
    o: ObjNo,
)
    requires placed { IsAt places.now objects.old }
    requires ordered { IsOrdered 0 objects.old }
    requires owned { IsLinked by_tie.Owned (length objects.old) objects.old owned.now.last.items owned.now.before.items }
    requires made { IsLinked by_tie.Made (length objects.old) objects.old made.now.last.items made.now.before.items }
    requires room { length objects.old ≤ vec_capacity doomed.old }
    requires listed { IsPermutation doomed.old.items (doomed_of objects.old) }
    requires whole { IsWhole objects.old }
    ensures marks { objects.new ≡ marked_from o [] objects.old }
    ensures least { (x : Object) → Stands x objects.old → ((is_marked objects.new x.number ≡ true) ↔ Doomed objects.old (Begins o) x) }
    ensures spread { (es : List ObjNo) × Spreads o objects.old doomed.old.items objects.new es }
    ensures listed { IsPermutation doomed.new.items (doomed_of objects.new) }
    ensures capacity { vec_capacity doomed.old ≤ vec_capacity doomed.new }
    ensures whole { IsWhole objects.new }
{
    let from = doomed.len();
    if !stands_in(places, objects, o) {
        return;
    }
    mark_at(objects, doomed, place(places, o));
    spread(places, owned, made, objects, doomed, from);
}
