//! How deep the nodes of a tree stand.

ghost use Rattle.std.specs.Prelude.{◌≡◌, [], ◌∷◌, ◌++◌, reverse, IfOk, OnOk, MatchOption};
ghost use Rattle.qml_syntax.specs.Tree.{Whole};
ghost use Rattle.qml_syntax.specs.Listed.{listed_whole};
ghost use Rattle.qml_syntax.specs.Depth.{deep_whole};
ghost use Rattle.qml_syntax.specs.Nodes.{is_mark};
ghost use Rattle.qml_syntax.specs.Standing.{first_deep, nodes_whole, stands};
ghost use Rattle.qml_syntax.specs.WalkFlat.{is_step};
ghost use Rattle.qml_syntax.specs.WalkStanding as f;

use crate::node::{Node, Nodes};
use qml_base::{NoMemory, Place};
use std::alloc::Global;
use std::marker::Model;

/// How deep a node may stand.
const DEEPEST: usize = 100;

/// How deep a node stands, from 1 on, and the place of its first token.
#[derive(Clone, Copy, Debug, PartialEq, Eq)]
pub struct Standing {
    pub depth: usize,
    pub place: Place,
}

/// Parts of a node that are still to be found.
#[derive(Clone, Copy, Debug, PartialEq, Eq)]
enum Parts {
    /// One part.
    One,
    /// The parts behind a mark.
    Many,
    /// An expression and the steps behind it; a path.
    Steps,
    /// The prefixes of a node, which begins with the first of them.
    Signs,
    /// The path of a node, which begins with it.
    Named,
}

/// What is still to be found of a tree.
#[derive(Clone, Copy, Debug, PartialEq, Eq)]
enum Task {
    /// A node that begins at this place, when its parts have been found.
    Node(Place),
    /// A node that begins with its first part, when its parts have been found.
    Led,
    Parts(Parts),
}

impl Task {
    /// Whether it is a node.
    fn is_node(self) -> bool
        ensures { result ≡ f.is_node self }
    {
        match self {
            Task::Node(_) | Task::Led | Task::Parts(Parts::Signs | Parts::Named) => true,
            Task::Parts(Parts::One | Parts::Many | Parts::Steps) => false,
        }
    }
}

const ONE: Task = Task::Parts(Parts::One);

const MANY: Task = Task::Parts(Parts::Many);

const STEPS: Task = Task::Parts(Parts::Steps);

/// A tree whose nodes are being found, the last one in the order of writing first: what is still to be found, the last of
/// it last; how many nodes are among that; and the nodes that have been found, the first one last. Contracts see the first
/// and the last of these from the other end.
#[derive(Debug, Drop)]
struct Descent {
    tasks: Vec<Task>,
    around: usize,
    found: Vec<Standing>,
}

impl Model for Descent {
    ghost use Rattle.std.specs.Prelude.{◌≡◌, List, reverse};
    ghost use Rattle.qml_syntax.specs.declared.deep.Task as p;
    ghost use Rattle.qml_syntax.specs.declared.deep.Standing as t;
    ghost use Rattle.qml_syntax.specs.WalkStanding.{depth};

    ghost Value = { List p.Task × List t.Standing };

    ghost view = { λ w. (reverse w.tasks.items, reverse w.found.items) };

    ghost invariant = { λ w. w.around ≡ depth (reverse w.tasks.items) };
}

impl Descent {
    /// To one part, which has depth 1.
    fn new(alloc: Global) -> Result<Descent, NoMemory>
        ensures { IfOk result (λ w. w ≡ (f.one ∷ [], [])) }
    {
        let mut descent = Descent {
            tasks: Vec::new(alloc),
            around: 0,
            found: Vec::new(alloc),
        };
        descent.push(ONE)?;
        Ok(descent)
    }

    /// Adds what is to be found before the rest.
    fn push(&mut self, task: Task) -> Result<(), NoMemory>
        ensures { OnOk result (self.new ≡ (task ∷ self.old.0, self.old.1)) }
    {
        match self.tasks.push(task) {
            Ok(()) => {}
            Err(_) => return Err(NoMemory),
        }
        if task.is_node() {
            self.around += 1;
        }
        Ok(())
    }

    /// Adds what is to be found before the rest, the last of it first.
    fn add(&mut self, tasks: &[Task]) -> Result<(), NoMemory>
        ensures { OnOk result (self.new ≡ (reverse tasks.now ++ self.old.0, self.old.1)) }
    {
        for task in tasks {
            self.push(*task)?;
        }
        Ok(())
    }

    /// Takes what is to be found next, with how many nodes are among what is to be found, it included.
    fn pop(&mut self) -> Option<(usize, Task)>
        ensures { MatchOption result ((self.old.0 ≡ []) × (self.new ≡ self.old))
            (λ p. (self.old ≡ (p.1 ∷ self.new.0, self.new.1)) × (p.0 ≡ f.depth self.old.0)) }
    {
        let depth = self.around;
        match self.tasks.pop() {
            Some(task) => {
                if task.is_node() {
                    self.around -= 1;
                }
                Some((depth, task))
            }
            None => None,
        }
    }
}

impl Descent {
    /// Adds a node before those that have been found.
    fn tell(&mut self, depth: usize, place: Place) -> Result<(), NoMemory>
        ensures { OnOk result (self.new ≡ (self.old.0, stands depth place ∷ self.old.1)) }
    {
        match self.found.push(Standing { depth, place }) {
            Ok(()) => Ok(()),
            Err(_) => Err(NoMemory),
        }
    }

    /// Where the first node that has been found begins.
    fn first_place(&self) -> Place
        ensures { result ≡ f.first_place self.now.1 }
    {
        match self.found.last() {
            Some(first) => first.place,
            None => Place { line: 0, column: 0 },
        }
    }

    /// Finds the nodes that come next: the parts that come then.
    fn advance(&mut self) -> Result<Option<Parts>, NoMemory>
        ensures { IfOk result (λ parts. f.next_of self.old.0 self.old.1 ≡ (parts, self.new.0, self.new.1)) }
    {
        while let Some((depth, task)) = self.pop() {
            match task {
                Task::Node(place) => self.tell(depth, place)?,
                Task::Led => self.tell(depth, self.first_place())?,
                Task::Parts(parts) => return Ok(Some(parts)),
            }
        }
        Ok(None)
    }

    /// Adds the part before this one of its chain, unless this is the first.
    fn add_before(&mut self, first: bool) -> Result<(), NoMemory>
        ensures { OnOk result (self.new ≡ (reverse (f.before first) ++ self.old.0, self.old.1)) }
    {
        if first { Ok(()) } else { self.push(ONE) }
    }

    /// Adds what a node of a document or of a script file is made of.
    fn add_in_document(&mut self, node: &Node) -> Result<(), NoMemory>
        ensures { OnOk result (self.new ≡ (reverse (f.form_in_document node.now) ++ self.old.0, self.old.1)) }
    {
        match node {
            Node::SignalParameter(_)
            | Node::Id(_, _)
            | Node::Signal(_, _)
            | Node::Method
            | Node::Child
            | Node::Semi => self.push(ONE),
            Node::ImportFile(_) | Node::Parameter | Node::Bare(_, _, _) => self.add(&[ONE, ONE]),
            Node::Property(_, _) => self.add(&[ONE, ONE, ONE]),
            Node::KindName => self.push(STEPS),
            Node::ImportModule(_, _) | Node::Given => self.add(&[STEPS, ONE]),
            Node::Alias(_, _, _) => self.add(&[ONE, STEPS]),
            Node::SignalWith(_, _) => self.add(&[ONE, MANY]),
            Node::Group | Node::Object => self.add(&[Task::Parts(Parts::Named), MANY]),
            Node::Function(place) => self.add(&[Task::Node(*place), ONE, MANY, ONE, ONE]),
            Node::ObjectList(place) => self.add(&[Task::Node(*place), MANY]),
            Node::Document => self.add(&[MANY, ONE]),
            Node::Script(_) => self.push(MANY),
            _ => Ok(()),
        }
    }

    /// Adds what a part of a node is made of.
    fn add_part(&mut self, node: &Node) -> Result<(), NoMemory>
        ensures { OnOk result (self.new ≡ (reverse (f.form_of_part node.now) ++ self.old.0, self.old.1)) }
    {
        match node {
            Node::Element(_) | Node::Expression(_) | Node::FirstExpression | Node::Present => {
                self.push(ONE)
            }
            Node::Call(_) | Node::Body => self.push(MANY),
            Node::Sign(first, _, place) => self.push(begun(*first, *place)),
            Node::Link(_, _, _) => self.add(&[ONE, ONE]),
            Node::Choice(first) => {
                self.add_before(*first)?;
                self.add(&[ONE, ONE])
            }
            Node::Target(first, _, _) => {
                self.add_before(*first)?;
                self.push(ONE)
            }
            _ => self.add_in_document(node),
        }
    }

    /// Adds what a node that begins with a part, or a part of a node, is made of.
    fn add_chain(&mut self, node: &Node) -> Result<(), NoMemory>
        ensures { OnOk result (self.new ≡ (reverse (f.form_of_chain node.now) ++ self.old.0, self.old.1)) }
    {
        match node {
            Node::Steps => self.add(&[Task::Led, STEPS]),
            Node::Postfix(_, _) => self.add(&[Task::Led, ONE]),
            Node::Signed(first, _, place) => self.add(&[begun(*first, *place), ONE]),
            Node::Chain(_, _, _) | Node::Choose | Node::Assign => {
                self.add(&[Task::Led, ONE, ONE])
            }
            _ => self.add_part(node),
        }
    }

    /// Adds what a node is made of that begins with a token of its own and is no expression, or another.
    fn add_statement(&mut self, node: &Node) -> Result<(), NoMemory>
        ensures { OnOk result (self.new ≡ (reverse (f.form_of_statement node.now) ++ self.old.0, self.old.1)) }
    {
        match node {
            Node::Empty(place)
            | Node::Give(place, _)
            | Node::Stop(place, _)
            | Node::Again(place, _) => self.push(Task::Node(*place)),
            Node::GiveValue(place, _) => self.add(&[Task::Node(*place), ONE]),
            Node::Block(place) | Node::Declare(place, _, _) | Node::FirstDeclare(place, _) => {
                self.add(&[Task::Node(*place), MANY])
            }
            Node::When(place) | Node::While(place) => { self.add(&[Task::Node(*place), ONE, ONE]) }
            Node::Either(place) => self.add(&[Task::Node(*place), ONE, ONE, ONE]),
            Node::For(place) => self.add(&[Task::Node(*place), ONE, ONE, ONE, ONE]),
            _ => self.add_chain(node),
        }
    }

    /// Takes a node as the next part: adds what it is made of.
    fn begin(&mut self, node: &Node) -> Result<(), NoMemory>
        ensures { OnOk result (self.new ≡ f.opened node.now self.old.0 self.old.1) }
    {
        match node {
            Node::Name(_, place)
            | Node::Number(_, place)
            | Node::Text(_, place)
            | Node::Literal(_, place) => self.push(Task::Node(*place)),
            Node::Paren(place) => self.add(&[Task::Node(*place), ONE]),
            Node::List(place, _) | Node::Fields(place, _) | Node::Binding(place) => {
                self.add(&[Task::Node(*place), MANY])
            }
            _ => self.add_statement(node),
        }
    }

    /// Takes a node as one of the parts behind a mark, or as the mark.
    fn take_one_of_many(&mut self, node: &Node) -> Result<(), NoMemory>
        ensures { OnOk result (self.new ≡ f.in_many (is_mark node.now) node.now self.old.0 self.old.1) }
    {
        if node.is_mark() {
            return Ok(());
        }
        self.push(MANY)?;
        self.begin(node)
    }

    /// Takes a node as a step behind an expression, or as the expression before all steps.
    fn take_step(&mut self, node: &Node) -> Result<(), NoMemory>
        ensures { OnOk result (self.new ≡ f.in_steps (is_step node.now) node.now self.old.0 self.old.1) }
    {
        if node.is_step() {
            self.push(STEPS)?;
        }
        self.begin(node)
    }

    /// Takes a node of the path that a node begins with: the first name, or one behind a dot.
    fn take_name(&mut self, node: &Node) -> Result<(), NoMemory>
        ensures { OnOk result (self.new ≡ (f.named_by node.now ∷ self.old.0, self.old.1)) }
    {
        match node {
            Node::First(_, place) => self.push(Task::Node(*place)),
            _ => self.push(Task::Parts(Parts::Named)),
        }
    }

    /// Takes the node before those that have been taken.
    fn take(&mut self, node: &Node) -> Result<(), NoMemory>
        ensures { OnOk result (self.new ≡ f.taken_next node.now (f.next_of self.old.0 self.old.1)) }
    {
        match self.advance()? {
            Some(Parts::One | Parts::Signs) => self.begin(node),
            Some(Parts::Many) => self.take_one_of_many(node),
            Some(Parts::Steps) => self.take_step(node),
            Some(Parts::Named) => self.take_name(node),
            None => Ok(()),
        }
    }

    /// Finds the nodes that are left: all of them, in the order of writing.
    fn finish(mut self) -> Result<Vec<Standing>, NoMemory>
        ensures { IfOk result (λ found. found.items ≡ (f.next_of self.0 self.1).2) }
    {
        self.advance()?;
        let mut found = self.found;
        found.reverse();
        Ok(found)
    }
}

/// Of a prefix: the node that begins with it or, where it is not the first, with one before it.
fn begun(first: bool, place: Place) -> Task
    ensures { result ≡ f.begun first place }
{
    if first {
        Task::Node(place)
    } else {
        Task::Parts(Parts::Signs)
    }
}

/// Where the first of these nodes begins that stands deeper than 100.
fn first_too_deep(nodes: &[Standing]) -> Option<Place>
    ensures { result ≡ first_deep nodes.now }
{
    for node in nodes {
        if node.depth > DEEPEST {
            return Some(node.place);
        }
    }
    None
}

/// How deep each node of a tree stands whose nodes these are, in their order.
pub(crate) fn standing_of(alloc: Global, nodes: &[Node]) -> Result<Vec<Standing>, NoMemory>
    ensures { IfOk result (λ found. (w : Whole) → reverse nodes.now ≡ listed_whole w → found.items ≡ nodes_whole w) }
{
    let mut descent = Descent::new(alloc)?;
    let mut left = nodes;
    while let Some((node, rest)) = left.split_last() {
        descent.take(node)?;
        left = rest;
    }
    descent.finish()
}

impl Nodes {
    /// How deep each node of a tree stands, as `Tree::standing` tells, where these are the tree's nodes.
    pub fn standing(&self, alloc: Global) -> Result<Vec<Standing>, NoMemory>
        ensures { IfOk result (λ found. (w : Whole) → self.now ≡ listed_whole w → found.items ≡ nodes_whole w) }
    {
        standing_of(alloc, self.as_slice())
    }

    /// Where the first node of a tree begins, in the order of writing, that stands deeper than 100, where these are the
    /// tree's nodes; `None` exactly where none stands so deep. Depths are those of `Tree::standing`.
    #[tactic(auto, using(crate::proofs::DeepDocumentLemmas::whole_is_deep))]
    pub fn too_deep(&self, alloc: Global) -> Result<Option<Place>, NoMemory>
        ensures { IfOk result (λ place. (w : Whole) → self.now ≡ listed_whole w → place ≡ deep_whole w) }
    {
        let nodes = standing_of(alloc, self.as_slice())?;
        Ok(first_too_deep(&nodes))
    }
}
