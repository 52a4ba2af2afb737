//! The live instances, and the types of objects.

ghost use Rattle.std.specs.Prelude.{◌≡◌, ℕ, ◌<◌, ◌++◌, ◌∷◌, [], OnOk, OnErr, option_copied};
ghost use Rattle.qml_scope.specs.Shapes.{TellsOf, TellsLast, ToldUpTo, ForgetsAll, types_among, instances_but, is_component, instance_of, instance_at, seen_in, told_anywhere, name_of_cell, has_delegate};
ghost use Rattle.std.specs.Prelude.{map, if◌then◌else◌};
ghost use Rattle.qml_base.specs.declared.numbers.ObjNo.{ObjNo};
ghost use Rattle.qml_value.specs.Scrubbing.{is_among};
ghost use Rattle.qml_scope.specs.Shapes.{told_pair, instances_left};
ghost use Rattle.qml_types.specs.declared.kind.TypeRef.TheVariants.{Builtin as builtin};
ghost use Rattle.qml_types.specs.declared.kind.TypeNo.TheVariants as no;
ghost use Rattle.tree_model.specs.Converting.{same_type, has_type};

use crate::cell_names::{CellNames, cell_name, is_delegate};
use crate::finding::{find_instance, find_root, seen, told_first};
use crate::seats::Seats;
use crate::shape::Shape;
use indexmap::IndexMap;
use qml_base::{CellNo, Found, NoMemory, ObjNo, UnitNo};
use qml_text::Text;
use qml_types::{TypeNo, TypeRef};
use qml_value::GoneObjects;
use std::alloc::Global;
use std::marker::Model;

/// The live instances of components in the order in which they were added, and the types of live objects.
#[derive(Drop)]
pub struct Shapes {
    instances: Vec<Shape>,
    /// Where each object stands among them.
    seats: Seats,
    /// Where the names of cells stand.
    names: CellNames,
    told: IndexMap<ObjNo, Vec<TypeRef>>,
}

impl Model for Shapes {
    ghost use Rattle.std.specs.Prelude.{map};
    ghost use Rattle.indexmap.specs.IndexMap.{spare};
    ghost use Rattle.qml_scope.specs.Shapes.{Stored, told_pair};
    ghost use Rattle.qml_scope.specs.Seats.{TellsWhole};
    ghost use Rattle.qml_scope.specs.CellNames.{TellsNames};

    ghost Value = { Stored };

    ghost view = { λ shapes. record {
      known = record { instances = shapes.instances.items; told = map told_pair shapes.told.entries };
      room = spare shapes.told;
    } };

    ghost invariant = { λ shapes. TellsWhole shapes.seats.whole shapes.seats.places.entries shapes.instances.items × TellsNames shapes.names.whole shapes.names.places.entries shapes.names.delegates.entries shapes.instances.items };
}

fn is_component_type(t: TypeRef) -> bool
    ensures { result ≡ same_type t (builtin no.Component) }
{
    match t {
        TypeRef::Builtin(TypeNo::Component) => true,
        _ => false,
    }
}

fn has_component(types: &[TypeRef]) -> bool
    ensures { result ≡ has_type types.now (builtin no.Component) }
{
    for t in types {
        if is_component_type(*t) {
            return true;
        }
    }
    false
}

fn keep_instances(instances: &mut Vec<Shape>, gone: &GoneObjects)
    ensures { instances.new.items ≡ instances_left gone.now instances.old.items }
{
    instances.retain(|shape| !gone.has(shape.root));
}

fn keep_types(told: &mut IndexMap<ObjNo, Vec<TypeRef>>, gone: &GoneObjects)
    ensures types { (p : ObjNo) → types_among (map told_pair told.new.entries) p ≡ (if is_among gone.now p then [] else types_among (map told_pair told.old.entries) p) }
    ensures kept { (n : ℕ) → ToldUpTo n (map told_pair told.old.entries) → ToldUpTo n (map told_pair told.new.entries) }
{
    told.retain(|object, _types| !gone.has(*object));
}

impl Shapes {
    /// No instances and no types. It takes no memory.
    pub fn new(alloc: Global) -> Shapes
        ensures instances { result.known.instances ≡ [] }
        ensures told { result.known.told ≡ [] }
    {
        Shapes {
            instances: Vec::new(alloc),
            seats: Seats::new(alloc),
            names: CellNames::new(alloc),
            told: IndexMap::new(alloc),
        }
    }

    /// The live instances, in the order in which they were added.
    pub fn instances(&self) -> &[Shape]
        ensures { result.now ≡ self.now.known.instances }
    {
        self.instances.as_slice()
    }

    /// The first instance of the unit's component in which the object has an entry.
    pub fn instance_of(&self, unit: UnitNo, o: ObjNo) -> Option<&Shape>
        ensures { option_copied result ≡ instance_of self.now.known.instances unit o }
    {
        find_instance(self.instances.as_slice(), &self.seats, unit, o)
    }

    /// The first instance of the unit's component of which the object is the root.
    pub fn instance_at(&self, unit: UnitNo, root: ObjNo) -> Option<&Shape>
        ensures { option_copied result ≡ instance_at self.now.known.instances unit root }
    {
        find_root(self.instances.as_slice(), &self.seats, unit, root)
    }

    /// What the object has under the name, as the document sees it.
    pub fn seen_in(&self, unit: UnitNo, o: ObjNo, name: &Text) -> Option<Found>
        ensures { result ≡ seen_in self.now.known.instances unit o name.now }
    {
        seen(self.instances.as_slice(), &self.seats, unit, o, name)
    }

    /// What the object has under the name, as the first document sees it that knows the name.
    pub fn told_anywhere(&self, o: ObjNo, name: &Text) -> Option<Found>
        ensures { result ≡ told_anywhere self.now.known.instances o name.now }
    {
        told_first(self.instances.as_slice(), &self.seats, o, name)
    }

    /// Adds an instance behind the others. Without memory nothing changes.
    pub fn add(&mut self, instance: Shape) -> Result<(), NoMemory>
        ensures ok { OnOk result (self.new.known.instances ≡ self.old.known.instances ++ instance ∷ []) }
        ensures err { OnErr result (self.new.known.instances ≡ self.old.known.instances) }
        ensures told { self.new.known.told ≡ self.old.known.told }
    {
        self.seats.add(self.instances.len(), &instance);
        self.names.add(self.instances.len(), &instance);
        match self.instances.push(instance) {
            Ok(()) => Ok(()),
            Err(_) => {
                self.seats.whole = false;
                self.names.whole = false;
                Err(NoMemory)
            }
        }
    }

    /// Drops the instances of a root. It takes no memory.
    pub fn forget(&mut self, root: ObjNo)
        ensures instances { self.new.known.instances ≡ instances_but root self.old.known.instances }
        ensures told { self.new.known.told ≡ self.old.known.told }
    {
        self.instances.retain(|shape| shape.root != root);
        self.seats.renew(self.instances.as_slice());
        self.names.renew(self.instances.as_slice());
    }

    /// Tells the types of an object, from its own on, in place of those that it had. Without memory nothing changes.
    pub fn tell(&mut self, o: ObjNo, types: Vec<TypeRef>) -> Result<(), NoMemory>
        ensures ok { OnOk result (TellsOf o types.items self.old.known self.new.known) }
        ensures err { OnErr result (self.new.known ≡ self.old.known) }
    {
        match self.told.insert(o, types) {
            Ok(_) => Ok(()),
            Err(_) => Err(NoMemory),
        }
    }

    /// Makes room for the types of one object more.
    pub fn make_room(&mut self) -> Result<(), NoMemory>
        ensures ok { OnOk result (0 < self.new.room) }
        ensures known { self.new.known ≡ self.old.known }
    {
        match self.told.reserve(1) {
            Ok(()) => Ok(()),
            Err(_) => Err(NoMemory),
        }
    }

    /// Tells the types of an object, as `tell` does, where there is room for them. Those of an object above all others go last. It
    /// takes no memory.
    pub fn tell_in_room(&mut self, o: ObjNo, types: Vec<TypeRef>)
        requires { 0 < self.old.room }
        ensures told { TellsOf o types.items self.old.known self.new.known }
        ensures last { TellsLast o types.items self.old.known self.new.known }
    {
        let _ = self.told.insert(o, types);
    }

    /// The types of the object, from its own on; none where they weren't told.
    pub fn types_told(&self, o: ObjNo) -> &[TypeRef]
        ensures { result.now ≡ types_among self.now.known.told o }
    {
        match self.told.get(&o) {
            Some(types) => types.as_slice(),
            None => &[],
        }
    }

    /// Drops the types of an object. It takes no memory.
    pub fn forget_object(&mut self, o: ObjNo)
        ensures { TellsOf o [] self.old.known self.new.known }
    {
        let _ = self.told.swap_remove(&o);
    }

    /// Drops the instances whose roots are gone, and the types of the objects that are gone. It takes no memory.
    pub fn forget_all(&mut self, gone: &[ObjNo])
        ensures forgets { ForgetsAll gone.now self.old.known self.new.known }
        ensures kept { (n : ℕ) → ToldUpTo n self.old.known.told → ToldUpTo n self.new.known.told }
    {
        let gone = GoneObjects::new(gone);
        keep_instances(&mut self.instances, &gone);
        self.seats.renew(self.instances.as_slice());
        self.names.renew(self.instances.as_slice());
        keep_types(&mut self.told, &gone);
    }

    /// Whether the object is a Component.
    pub fn is_component(&self, o: ObjNo) -> bool
        ensures { result ≡ is_component self.now.known.told o }
    {
        has_component(self.types_told(o))
    }

    /// The name under which the cell was declared, as UTF-16 units, and never an alias's while its own is told before those;
    /// none exactly where no instance has one, as for a hidden cell.
    pub fn name_of(&self, c: CellNo) -> Option<&[u16]>
        ensures { option_copied result ≡ name_of_cell c self.now.known.instances }
    {
        cell_name(self.instances.as_slice(), &self.names, c)
    }

    /// Whether the cell is that of a delegate name.
    pub fn is_delegate_name(&self, c: CellNo) -> bool
        ensures { result ≡ has_delegate c self.now.known.instances }
    {
        is_delegate(self.instances.as_slice(), &self.names, c)
    }
}
