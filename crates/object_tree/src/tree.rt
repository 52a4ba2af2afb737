//! The tree.
ghost use Rattle.std.specs.Prelude.{◌≡◌, ◌↔◌, ◌≢◌, ◌≤◌, ◌+◌, length, true, false, [], slice_index};
ghost use Rattle.std.specs.List.Sorted.{IsPermutation};
ghost use Rattle.tree_model.specs.declared.cells.Object.{Object};
ghost use Rattle.tree_model.specs.Doomed.{Doomed, Stands, Begins, is_marked, marked_from};
ghost use Rattle.tree_model.specs.Settling.{stands};
ghost use Rattle.object_tree.specs.Trees.{found, owner_of, is_there, objects_but, MayOwn, IsFull, Adds, IsAt, AllUpTo};
ghost use Rattle.tree_model.specs.Removing.{doomed_of, kept_of, AscendsFrom};

use crate::links::{Links, Tie};
use crate::listing::list_condemned;
use crate::places::{condemned_in, find, stands_in};
use crate::removing::{drop_object, keep, place_all};
use crate::spreading::condemn;
use qml_base::{OBJECT_LIMIT, ObjNo};
use std::alloc::{AllocError, AllocFailed, Global};
use std::marker::Model;
use tree_model::Object;

/// Why an object isn't added.
#[derive(Clone, Copy, Debug, PartialEq, Eq)]
pub enum AddFault {
    /// So many objects are live, or the last number was given.
    Full { live: u32 },
    /// There was no memory.
    NoMemory,
}

impl From<AllocError> for AddFault {
    ghost use Rattle.std.specs.Prelude.{◌≡◌};
    ghost use Rattle.object_tree.specs.declared.tree.AddFault.TheVariants as fault;

    ghost from_gives = { λ _ e. e ≡ fault.NoMemory };

    fn from(_e: AllocError) -> AddFault {
        AddFault::NoMemory
    }
}

impl<T: Drop> From<AllocFailed<T>> for AddFault {
    ghost use Rattle.std.specs.Prelude.{◌≡◌};
    ghost use Rattle.object_tree.specs.declared.tree.AddFault.TheVariants as fault;

    ghost from_gives = { λ _ e. e ≡ fault.NoMemory };

    fn from(_e: AllocFailed<T>) -> AddFault {
        AddFault::NoMemory
    }
}

/// Live objects with their owners and origins. Numbers are given in order and never again.
#[derive(Drop)]
pub struct Tree {
    objects: Vec<Object>,
    /// Where the object of each given number stands, or stood.
    places: Vec<u32>,
    /// The condemned objects in any order, with room for all live ones.
    doomed: Vec<ObjNo>,
    /// Which objects each owns.
    owned: Links,
    /// Which objects were made from each.
    made: Links,
}

impl Model for Tree {
    ghost use Rattle.std.specs.Prelude.{◌≡◌, ◌≤◌, ◌<◌, ◌+◌, ◌^◌, length, vec_len, vec_capacity};
    ghost use Rattle.std.specs.List.Sorted.{IsPermutation};
    ghost use Rattle.object_tree.specs.Trees.{Objects, IsAt, AllUpTo};
    ghost use Rattle.object_tree.specs.Links.{IsTied};
    ghost use Rattle.object_tree.specs.Spreading.{IsWhole};
    ghost use Rattle.object_tree.specs.declared.links.Tie.TheVariants as by_tie;
    ghost use Rattle.tree_model.specs.Removing.{doomed_of};
    ghost use Rattle.tree_model.specs.Doomed.{IsOrdered};

    ghost Value = { Objects };

    ghost view = { λ t. record { objects = t.objects.items; given = vec_len t.places; listed = t.doomed.items } };

    ghost invariant = { λ t. IsPermutation t.doomed.items (doomed_of t.objects.items) × (vec_len t.objects ≤ vec_capacity t.doomed) × IsAt t.places.items t.objects.items × IsOrdered 0 t.objects.items × AllUpTo (vec_len t.places) t.objects.items × (vec_len t.objects ≤ 100000) × (vec_len t.places < 2 ^ 32) × IsTied by_tie.Owned t.objects.items t.owned.last.items t.owned.before.items × IsTied by_tie.Made t.objects.items t.made.last.items t.made.before.items × IsWhole t.objects.items };
}

impl Tree {
    /// No objects. It takes no memory.
    pub fn new(alloc: Global) -> Tree
        ensures objects { result.objects ≡ [] }
        ensures listed { result.listed ≡ [] }
        ensures given { result.given ≡ 0 }
    {
        Tree {
            objects: Vec::new(alloc),
            places: Vec::new(alloc),
            doomed: Vec::new(alloc),
            owned: Links::new(alloc),
            made: Links::new(alloc),
        }
    }

    /// How many objects are live.
    pub fn live(&self) -> u32
        ensures { result ≡ length self.now.objects }
    {
        self.objects.len() as u32
    }

    /// How many numbers were given. No live object has a number above it.
    pub fn given(&self) -> u32
        ensures given { result ≡ self.now.given }
        ensures above { AllUpTo self.now.given self.now.objects }
    {
        self.places.len() as u32
    }

    /// The live objects, in the order of their numbers.
    pub fn objects(&self) -> &[Object]
        ensures { result.now ≡ self.now.objects }
    {
        self.objects.as_slice()
    }

    /// The condemned objects, each once, as they are listed: those that were condemned since `list_doomed` in any order.
    pub fn doomed(&self) -> &[ObjNo]
        ensures listed { result.now ≡ self.now.listed }
        ensures numbers { IsPermutation result.now (doomed_of self.now.objects) }
    {
        self.doomed.as_slice()
    }

    /// Lists the condemned objects in the order of their numbers. It goes over all live objects, and takes no memory.
    pub fn list_doomed(&mut self)
        ensures objects { self.new.objects ≡ self.old.objects }
        ensures given { self.new.given ≡ self.old.given }
        ensures numbers { self.new.listed ≡ doomed_of self.old.objects }
        ensures ascends { AscendsFrom 0 self.new.listed }
    {
        list_condemned(self.objects.as_slice(), &mut self.doomed);
    }

    /// Whether the number is that of a live object.
    pub fn is_live(&self, o: ObjNo) -> bool
        ensures { result ≡ is_there (found self.now.objects o) }
    {
        find(self.places.as_slice(), self.objects.as_slice(), o).is_some()
    }

    /// Whether the object is condemned.
    pub fn is_condemned(&self, o: ObjNo) -> bool
        ensures { result ≡ is_marked self.now.objects o }
    {
        condemned_in(self.places.as_slice(), self.objects.as_slice(), o)
    }

    /// Whether the object is live and isn't condemned.
    pub fn stands(&self, o: ObjNo) -> bool
        ensures { result ≡ stands self.now.objects o }
    {
        stands_in(self.places.as_slice(), self.objects.as_slice(), o)
    }

    /// The owner of the object.
    pub fn owner(&self, o: ObjNo) -> Option<ObjNo>
        ensures { result ≡ owner_of (found self.now.objects o) }
    {
        match find(self.places.as_slice(), self.objects.as_slice(), o) {
            Some(object) => object.owner,
            None => None,
        }
    }

    /// Whether 100,000 objects are live or the last number was given.
    pub fn is_full(&self) -> bool
        ensures yes { result ≡ true → IsFull self.now.objects self.now.given }
        ensures no { result ≡ false → ¬ (IsFull self.now.objects self.now.given) }
    {
        self.objects.len() as u32 >= OBJECT_LIMIT || self.places.len() as u32 == u32::MAX
    }

    /// Adds an object and gives it the next number. `Full` comes exactly where 100,000 objects are live or the last number
    /// was given; on an error nothing changes.
    pub fn add(&mut self, owner: Option<ObjNo>, origin: Option<ObjNo>) -> Result<ObjNo, AddFault>
        requires owner { MayOwn self.old.objects owner }
        requires origin { MayOwn self.old.objects origin }
        ensures { Adds owner origin self.old result self.new }
    {
        let live = self.objects.len() as u32;
        let given = self.places.len() as u32;
        if live >= OBJECT_LIMIT || given == u32::MAX {
            return Err(AddFault::Full { live });
        }
        let room = (self.objects.len() + 1).saturating_sub(self.doomed.len());
        self.doomed.reserve(room)?;
        self.objects.reserve(1)?;
        self.owned.reserve()?;
        self.made.reserve()?;
        self.places.push(live)?;
        let number = ObjNo(given + 1);
        let object = Object {
            number,
            owner,
            origin,
            condemned: false,
        };
        self.objects.push(object)?;
        let (places, objects) = (self.places.as_slice(), self.objects.as_slice());
        self.owned.add(places, objects, Tie::Owned, live as usize);
        self.made.add(places, objects, Tie::Made, live as usize);
        Ok(number)
    }

    /// Marks the object and all that is doomed with it: what a marked object owns, and what was made from one. It goes to the
    /// objects that it marks and to what hangs on them, and takes time for these alone.
    pub fn condemn(&mut self, o: ObjNo)
        ensures marks { self.new.objects ≡ marked_from o [] self.old.objects }
        ensures least { (x : Object) → Stands x self.old.objects → ((is_marked self.new.objects x.number ≡ true) ↔ Doomed self.old.objects (Begins o) x) }
        ensures given { self.new.given ≡ self.old.given }
    {
        condemn(
            self.places.as_slice(),
            &self.owned,
            &self.made,
            self.objects.as_mut_slice(),
            &mut self.doomed,
            o,
        );
    }

    /// Takes one condemned object away. Its number isn't given again.
    pub fn remove(&mut self, o: ObjNo)
        requires { is_marked self.old.objects o ≡ true }
        ensures objects { self.new.objects ≡ objects_but o self.old.objects }
        ensures given { self.new.given ≡ self.old.given }
    {
        drop_object(&mut self.objects, o);
        place_all(self.places.as_mut_slice(), self.objects.as_slice());
        let (places, objects) = (self.places.as_slice(), self.objects.as_slice());
        self.owned.relink(places, objects, Tie::Owned);
        self.made.relink(places, objects, Tie::Made);
        list_condemned(objects, &mut self.doomed);
    }

    /// Takes all condemned objects away. Their numbers aren't given again.
    pub fn remove_doomed(&mut self)
        ensures objects { self.new.objects ≡ kept_of self.old.objects }
        ensures given { self.new.given ≡ self.old.given }
    {
        let live = keep(self.objects.as_mut_slice());
        self.objects.truncate(live);
        place_all(self.places.as_mut_slice(), self.objects.as_slice());
        self.doomed.clear();
        let (places, objects) = (self.places.as_slice(), self.objects.as_slice());
        self.owned.relink(places, objects, Tie::Owned);
        self.made.relink(places, objects, Tie::Made);
    }
}
