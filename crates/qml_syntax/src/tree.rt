//! Trees, of which one level is opened at a time.

ghost use Rattle.std.specs.Prelude.{◌≡◌, ◌≤◌, ◌<◌, ◌+◌, ◌^◌, [], ◌∷◌, ◌++◌, ◌↔◌, ℕ, List, length, take, reverse, IfOk, OnErr, IsTrue, MatchOption};
ghost use Rattle.qml_syntax.specs.Tree.{Whole};
ghost use Rattle.qml_syntax.specs.Listed.{listed_whole};
ghost use Rattle.qml_syntax.specs.Standing.{nodes_whole};
ghost use Rattle.qml_syntax.specs.Opened.{node_of, item_at, root_of, whole_in, IsListing, IsLevel};
ghost use Rattle.qml_syntax.specs.Places.{places_of, behind};

use crate::deep::{Standing, standing_of};
use crate::links::{Links, links_of};
use crate::node::{Node, Nodes};
use crate::same::same_nodes;
use crate::spans::Spans;
use qml_base::NoMemory;
use std::alloc::{AllocError, Global};
use std::marker::Model;

/// A tree: its nodes, children before their parents. Contracts see it as the nodes, the latest in front; they are always
/// those of one tree. Dropping it needs no stack, however deep it is.
#[derive(Debug, Drop)]
pub struct Tree {
    nodes: Vec<Node>,
    links: Links,
}

impl Model for Tree {
    ghost use Rattle.std.specs.Prelude.{List, reverse};
    ghost use Rattle.qml_syntax.specs.declared.node.Node as d;
    ghost use Rattle.qml_syntax.specs.Places.{Linked};

    ghost Value = { List d.Node };

    ghost view = { λ o. reverse o.nodes.items };

    ghost invariant = { λ o. Linked o.nodes.items o.links.firsts.items o.links.nexts.items };
}

impl Tree {
    /// The tree of these nodes, in time that goes by how many they are. Without memory, as for 2^32 nodes, they are gone.
    pub fn new(alloc: Global, nodes: Nodes) -> Result<Tree, NoMemory>
        requires { IsListing nodes }
        ensures { IfOk result (λ t. t ≡ nodes) }
    {
        let nodes = nodes.into_vec();
        if nodes.len() > u32::MAX as usize {
            return Err(NoMemory);
        }
        match linked(alloc, nodes) {
            Ok(tree) => Ok(tree),
            Err(_) => Err(NoMemory),
        }
    }

    /// How many nodes it has.
    pub fn len(&self) -> usize
        ensures { result ≡ length self.now }
    {
        self.nodes.len()
    }

    /// Where the node of the whole tree stands: behind all others.
    pub fn root(&self) -> usize
        ensures listing { IsListing self.now }
        ensures last { result + 1 ≡ length self.now }
        ensures part { (w : Whole) → listed_whole w ≡ self.now → item_at self.now result ≡ root_of w }
    {
        self.nodes.len() - 1
    }

    /// Its nodes, in the order in which they were added.
    pub(crate) fn nodes(&self) -> &[Node]
        ensures { reverse result.now ≡ self.now }
    {
        &self.nodes
    }

    /// Whether two trees are the same, with their places.
    pub fn same(&self, other: &Tree) -> bool
        ensures nodes { IsTrue result ↔ (self.now ≡ other.now) }
        ensures wholes { IsTrue result ↔ (whole_in self.now ≡ whole_in other.now) }
    {
        same_nodes(&self.nodes, &other.nodes)
    }

    /// How deep each node stands, with the place of its first token, in the order of writing, each node before its parts.
    /// The expression, the statement, each statement of a body, the root object and each function of a script file has
    /// depth 1; each object, member's value, statement in a body, operand, argument, list element, value and inside of
    /// brackets is one deeper than what holds it. An expression statement is
    /// no node of its own, and a chain of operators of one level is one node. Nothing recurses, however deep the tree is,
    /// and the time is proportional to the nodes.
    pub fn standing(&self, alloc: Global) -> Result<Vec<Standing>, NoMemory>
        ensures { IfOk result (λ found. (w : Whole) → self.now ≡ listed_whole w → found.items ≡ nodes_whole w) }
    {
        standing_of(alloc, &self.nodes)
    }

    /// The node that stands behind this many others, if there is one: that of the object, the member, the value, the body
    /// or another part at this place. So a place is a name of a part that takes no time to follow.
    pub fn node(&self, at: usize) -> Option<&Node>
        ensures listing { IsListing self.now }
        ensures found { MatchOption result
            (length self.now ≤ at) (λ node. (at < length self.now) × (node.now ≡ node_of (item_at self.now at))) }
    {
        if at < self.nodes.len() {
            Some(&self.nodes[at])
        } else {
            None
        }
    }

    /// Where the node of the first part of the node at this place stands, if it takes parts. Where a node takes any number
    /// of parts, the first is the mark.
    pub fn first(&self, at: usize) -> Option<usize>
        ensures { MatchOption result
            (places_of self.now at ≡ []) (λ part. places_of self.now at ≡ part ∷ behind self.now part) }
    {
        if at < self.links.firsts.len() {
            place_before(self.links.firsts[at])
        } else {
            None
        }
    }

    /// Where the node of the part behind this one in its node stands, if there is one.
    pub fn next(&self, part: usize) -> Option<usize>
        ensures { MatchOption result
            (behind self.now part ≡ []) (λ next. behind self.now part ≡ next ∷ behind self.now next) }
    {
        if part < self.links.nexts.len() {
            place_before(self.links.nexts[part])
        } else {
            None
        }
    }

    /// The node that stands behind this many others, if there is one. The places of the parts that it takes are added to
    /// `parts`, in the order of writing; where a node takes any number of parts, the first is the mark. On an error `parts`
    /// is as before.
    pub fn open(&self, at: usize, parts: &mut Vec<usize>) -> Result<Option<&Node>, NoMemory>
        ensures opened { IfOk result (λ o. MatchOption o ((length self.now ≤ at) × (parts.new.items ≡ parts.old.items))
            (λ node. (ps : List ℕ) × (parts.new.items ≡ parts.old.items ++ ps) × IsLevel self.now at node.now ps)) }
        ensures exact { IfOk result (λ _. parts.new.items ≡ parts.old.items ++ places_of self.now at) }
        ensures kept { OnErr result (parts.new.items ≡ parts.old.items) }
    {
        let before = parts.len();
        match self.push_parts(at, parts) {
            Ok(()) => Ok(self.node(at)),
            Err(_) => {
                parts.truncate(before);
                Err(NoMemory)
            }
        }
    }

    /// Adds the places of the parts that the node at this place takes. On an error some of them are added.
    fn push_parts(&self, at: usize, parts: &mut Vec<usize>) -> Result<(), AllocError>
        ensures added { IfOk result (λ _. parts.new.items ≡ parts.old.items ++ places_of self.now at) }
        ensures kept { take (length parts.old.items) parts.new.items ≡ parts.old.items }
    {
        let mut next = self.first(at);
        while let Some(part) = next {
            parts.push(part)?;
            next = self.next(part);
        }
        Ok(())
    }
}

/// The tree of these nodes.
fn linked(alloc: Global, nodes: Vec<Node>) -> Result<Tree, AllocError>
    requires listing { IsListing (reverse nodes.items) }
    requires few { length nodes.items < 2 ^ 32 }
    ensures { IfOk result (λ t. t ≡ reverse nodes.items) }
{
    let spans = Spans::of(alloc, nodes)?;
    let links = links_of(alloc, &spans)?;
    Ok(Tree {
        nodes: spans.into_nodes(),
        links,
    })
}

/// The place that this number stands for, of places 1 higher and 0 for none.
fn place_before(end: u32) -> Option<usize>
    ensures { MatchOption result (end ≡ 0) (λ place. end ≡ place + 1) }
{
    if end == 0 {
        None
    } else {
        Some(end as usize - 1)
    }
}
