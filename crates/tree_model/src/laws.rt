//! Laws of the definitions, each the `ensures` of a function that does nothing.
ghost use Rattle.std.specs.Prelude.{◌≡◌, ◌≢◌, ℕ, ◌<◌, ◌↔◌, Bool, true, List, [], Some, count_by};
ghost use Rattle.qml_base.specs.declared.numbers.ObjNo.{ObjNo};
ghost use Rattle.tree_model.specs.declared.cells.Object.{Object};
ghost use Rattle.tree_model.specs.Doomed.{Doomed, Stands, Begins, IsClosedUnder, IsOrdered, is_marked, marked_from};
ghost use Rattle.tree_model.specs.declared.cells.Cell.{Cell};
ghost use Rattle.qml_base.specs.declared.numbers.CellNo.{CellNo};
ghost use Rattle.tree_model.specs.Telling.{Changes, Reports};
ghost use Rattle.evaluation.specs.declared.came.Came.TheVariants as came;
ghost use Rattle.tree_model.specs.Systems.{Outcomes, pull, Solves};
ghost use Rattle.tree_model.specs.Rules.{World};
ghost use Rattle.tree_model.specs.Settling.{Tree, is_bound, steps, fresh, settled, with_cells, Fresh, NonePast};

/// Depth beyond the number of bound cells changes nothing: one level more than there are is enough, with throws, loops and
/// numbers past the limit.
pub fn more_depth_is_the_same()
    ensures { (world : World) (tree : Tree) (n i : ℕ) → count_by is_bound tree.cells < n → pull (steps world tree) n i ≡ fresh world tree i }
{}

/// What cells come to without any depth: it solves the bindings, and of all that solves them it loops most.
pub fn fresh_is_the_least_solution()
    ensures solves { (world : World) (tree : Tree) → Solves (steps world tree) (fresh world tree) }
    ensures least { (world : World) (tree : Tree) → (read : Outcomes) → Solves (steps world tree) read → (i : ℕ) → fresh world tree i ≢ came.Loop → read i ≡ fresh world tree i }
{}

/// A tree that has settled is fresh.
pub fn settled_tree_is_fresh()
    ensures { (world : World) (tree : Tree) → NonePast (fresh world tree) tree.cells → Fresh world (with_cells tree (settled world tree)) }
{}

/// A tree that has settled settles to itself.
pub fn settling_again_changes_nothing()
    ensures outcomes { (world : World) (tree : Tree) → NonePast (fresh world tree) tree.cells → (i : ℕ) → fresh world (with_cells tree (settled world tree)) i ≡ fresh world tree i }
    ensures cells { (world : World) (tree : Tree) → NonePast (fresh world tree) tree.cells → settled world (with_cells tree (settled world tree)) ≡ settled world tree }
    ensures changes { (world : World) (tree : Tree) → NonePast (fresh world tree) tree.cells → Changes (settled world tree) (settled world (with_cells tree (settled world tree))) [] }
    ensures reports { (world : World) (tree : Tree) → NonePast (fresh world tree) tree.cells → Reports (settled world tree) (settled world (with_cells tree (settled world tree))) [] }
{}

/// There is one list of changed cells.
pub fn changes_are_told_in_one_way()
    ensures { (before after : List Cell) (cs ds : List CellNo) → Changes before after cs → Changes before after ds → cs ≡ ds }
{}

/// The doomed objects are the least set that holds those of the beginning, all that a member owns and all that was made from
/// one: they are such a set, and are in every other.

pub fn doomed_is_the_least_set()
    ensures first { (objects : List Object) (o : ObjNo) (x : Object) → Stands x objects → Begins o x → Doomed objects (Begins o) x }
    ensures owned { (objects : List Object) (o : ObjNo) (x p : Object) → Doomed objects (Begins o) p → Stands x objects → x.owner ≡ Some p.number → Doomed objects (Begins o) x }
    ensures made { (objects : List Object) (o : ObjNo) (x p : Object) → Doomed objects (Begins o) p → Stands x objects → x.origin ≡ Some p.number → Doomed objects (Begins o) x }
    ensures inside { (objects : List Object) (o : ObjNo) (held : Object → Bool) → IsClosedUnder objects (Begins o) held → (x : Object) → Doomed objects (Begins o) x → held x ≡ true }
{}

/// One walk in the order of numbers marks exactly the doomed objects, where owners and origins have lower numbers.

pub fn one_walk_marks_the_doomed()
    ensures { (o : ObjNo) (objects : List Object) → IsOrdered 0 objects → (x : Object) → Stands x objects → ((is_marked (marked_from o [] objects) x.number ≡ true) ↔ Doomed objects (Begins o) x) }
{}
