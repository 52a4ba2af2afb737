//! The members of the root.
use indexmap::IndexMap;
use qml_model::Content;
use sqlite_items::Items;
use std::alloc::{AllocError, Global};
use std::marker::Model;

/// A property of the root, with what it holds.
#[derive(Debug, Drop)]
pub struct Member {
    pub name: Items<u8>,
    pub content: Content,
}

/// The members of the root in the order of their declaration, each found by its name in constant time. A member's place, from 0 on, is the number of its cell.
#[derive(Drop)]
pub struct Program {
    members: IndexMap<Vec<u8>, Content>,
}

impl Model for Program {
    ghost use Rattle.std.specs.Prelude.{◌≤◌, ◌^◌, List, length, map};
    ghost use Rattle.first_form.specs.declared.members.Member.{Member};
    ghost use Rattle.first_form.specs.Members.{member_from};

    ghost Value = { List Member };

    ghost view = { λ p. map member_from p.members.entries };

    ghost invariant = { λ p. length p.members.entries ≤ 2 ^ 32 };
}

impl Program {
    ghost use Rattle.std.specs.Prelude.{◌≡◌, ◌<◌, ◌≤◌, ◌^◌, [], ◌∷◌, ◌++◌, length, IfOk, OnOk, None};
    ghost use Rattle.first_form.specs.Document.{names_of};
    ghost use Rattle.first_form.specs.Names.{cell_of};

    /// No member is declared yet.
    pub fn new(alloc: Global) -> Program
        ensures { result ≡ [] }
    {
        Program {
            members: IndexMap::new(alloc),
        }
    }

    /// The number of the cell of a name.
    pub fn cell(&self, name: &[u8]) -> Option<u32>
        ensures { result ≡ cell_of (names_of self.now) name.now }
    {
        match self.members.get_index_of(name) {
            Some(cell) => Some(cell as u32),
            None => None,
        }
    }

    /// Declares a member after the others.
    pub(crate) fn declare(&mut self, name: Vec<u8>, content: Content) -> Result<(), AllocError>
        requires few { length self.old < 2 ^ 32 }
        requires new { cell_of (names_of self.old) name.items ≡ None }
        ensures { OnOk result (self.new ≡ self.old ++ record { name = name.items; content = content } ∷ []) }
    {
        self.members.insert(name, content)?;
        Ok(())
    }

    /// The members in their order, by value: names and contents are moved.
    pub fn into_members(self, alloc: Global) -> Result<Vec<Member>, AllocError>
        ensures members { IfOk result (λ members. members.items ≡ self) }
        ensures few { IfOk result (λ members. length members.items ≤ 2 ^ 32) }
    {
        let Program { members } = self;
        let mut list = Vec::new(alloc);
        let mut rest = members.into_iter();
        'members: while let Some(pair) = rest.next() {
            let (name, content) = pair;
            list.push(Member {
                name: Items::from_vec(name),
                content,
            })?;
        }
        Ok(list)
    }
}
