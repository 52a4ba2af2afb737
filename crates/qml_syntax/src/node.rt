//! Trees as nodes, children before their parents.

ghost use Rattle.std.specs.Prelude.{◌≡◌, [], ◌∷◌, ◌++◌, reverse, MatchOption, OnOk, OnErr};
ghost use Rattle.qml_syntax.specs.Nodes as n;

use crate::contextual::{Adjective, Version};
use crate::literal::{Declaration, Literal};
use crate::operators::{Assignment, Operator, Postfix, Prefix};
use qml_base::{NoMemory, Place};
use qml_text::Text;
use std::alloc::Global;
use std::marker::Model;

/// How a statement ends.
#[derive(Clone, Copy, Debug, PartialEq, Eq)]
pub enum Close {
    /// By a `;` of its own.
    Semi,
    /// Without one.
    Auto,
}

/// A node of a tree. Its parts are the nodes before it that no node between them and it has taken, the last part last.
/// Where a node says that it is the first, it begins a chain, and else goes on with the one of the node before.
#[derive(Debug, Drop)]
pub enum Node {
    /// What stands before the first part of a node with any number of parts.
    Mark,
    /// A name.
    Name(Text, Place),
    /// A number.
    Number(u64, Place),
    /// A text.
    Text(Text, Place),
    /// `true`, `false` or `null`.
    Literal(Literal, Place),
    /// Brackets round an expression.
    Paren(Place),
    /// A list of the expressions behind the mark, with a comma behind the last or not.
    List(Place, bool),
    /// Fields of the keys and expressions behind the mark, with a comma behind the last or not.
    Fields(Place, bool),
    /// The key of a field, a text or a name.
    Key(bool, Text, Place),
    /// A step to a member.
    Member(Text, Place),
    /// A step to the element at an expression.
    Element(Place),
    /// A call with the expressions behind the mark.
    Call(Place),
    /// The call of `Qt.binding` with a function of the statements behind the mark.
    Binding(Place),
    /// An expression with the steps behind it.
    Steps,
    /// An operator behind its operand.
    Postfix(Postfix, Place),
    /// A prefix before another one.
    Sign(bool, Prefix, Place),
    /// The last prefix, with its operand.
    Signed(bool, Prefix, Place),
    /// An operator with its right operand, before another operator of its chain.
    Link(bool, Operator, Place),
    /// The last operator of a chain, with its right operand.
    Chain(bool, Operator, Place),
    /// The condition and the middle of a choice.
    Choice(bool),
    /// The last part of a choice.
    Choose,
    /// What is assigned to, with the operator.
    Target(bool, Assignment, Place),
    /// The value of an assignment.
    Assign,
    /// `;` alone.
    Empty(Place),
    /// An expression as a statement.
    Expression(Close),
    /// A block of the statements behind the mark.
    Block(Place),
    /// A declared name; its value, if it has one, is the expression behind it.
    Var(Text, Place),
    /// The declaration of the names behind the mark.
    Declare(Place, Declaration, Close),
    /// `if` without `else`.
    When(Place),
    /// `if` with `else`.
    Either(Place),
    /// `while`.
    While(Place),
    /// `for`.
    For(Place),
    /// A `for` that begins with nothing.
    NoFirst,
    /// A `for` that begins with an expression.
    FirstExpression,
    /// A `for` that begins with the declaration of the names behind the mark.
    FirstDeclare(Place, Declaration),
    /// An expression that may be absent, and is.
    Absent,
    /// An expression that may be absent, and is there.
    Present,
    /// `return` alone.
    Give(Place, Close),
    /// `return` with a value.
    GiveValue(Place, Close),
    /// `break`.
    Stop(Place, Close),
    /// `continue`.
    Again(Place, Close),
    /// A body of the statements behind the mark.
    Body,
    /// The first name of a path, a kind or a type; a name that is declared.
    First(Text, Place),
    /// A name behind a dot.
    Dot(Text),
    /// The text of an import.
    File(Text, Place),
    /// No qualifier of an import.
    Plain,
    /// The qualifier of an import.
    Qualifier(Text),
    /// The import of the module of this path, with a qualifier or none.
    ImportModule(Version, Close),
    /// The import of a text, with a qualifier or none.
    ImportFile(Close),
    /// The kind `var`.
    KindVar,
    /// The kind of this path.
    KindName,
    /// The kind of a list of what is named so.
    KindList(Text, Place),
    /// A kind that may be absent, and is.
    NoKind,
    /// The name of a function's parameter.
    ParameterName(Text),
    /// A function's parameter: its name, and its kind or none.
    Parameter,
    /// A signal's parameter of the kind before it.
    SignalParameter(Text),
    /// A function: its name, the parameters behind the mark, its kind or none, and its body.
    Function(Place),
    /// An id: its name.
    Id(Place, Close),
    /// A property: its kind, its name and its value.
    Property(Place, Adjective),
    /// A property without a value: its kind and its name.
    Bare(Place, Adjective, Close),
    /// An alias, with `default` or not: its name and the path of its target.
    Alias(Place, bool, Close),
    /// A signal without brackets: its name.
    Signal(Place, Close),
    /// A signal: its name, and the parameters behind the mark.
    SignalWith(Place, Close),
    /// A function as a member.
    Method,
    /// A path and the value that is given to it.
    Given,
    /// A path and the members behind the mark.
    Group,
    /// An object as a member.
    Child,
    /// A member and a `;` that isn't its end.
    Semi,
    /// An object: the path of its type, and the members behind the mark.
    Object,
    /// A list of the objects behind the mark.
    ObjectList(Place),
    /// A document: the imports behind the mark, and the root object.
    Document,
    /// A script file of the functions behind the mark, with `.pragma library` or not.
    Script(bool),
}

impl Node {
    /// Whether it is a mark.
    pub fn is_mark(&self) -> bool
        ensures { result ≡ n.is_mark self.now }
    {
        match self {
            Node::Mark => true,
            _ => false,
        }
    }
}

/// Nodes, children before their parents. Contracts see them as a list, the latest in front. Dropping them needs no stack,
/// however deep the tree is.
#[derive(Debug, Drop)]
pub struct Nodes {
    nodes: Vec<Node>,
}

impl Model for Nodes {
    ghost use Rattle.std.specs.Prelude.{List, reverse};
    ghost use Rattle.qml_syntax.specs.declared.node.Node as d;

    ghost Value = { List d.Node };

    ghost view = { λ o. reverse o.nodes.items };
}

impl Nodes {
    /// No node.
    pub fn new(alloc: Global) -> Nodes
        ensures { result ≡ [] }
    {
        Nodes {
            nodes: Vec::new(alloc),
        }
    }

    /// Adds a node, which takes its parts. On an error nothing changes.
    pub fn push(&mut self, node: Node) -> Result<(), NoMemory>
        ensures added { OnOk result (self.new ≡ node ∷ self.old) }
        ensures kept { OnErr result (self.new ≡ self.old) }
    {
        match self.nodes.push(node) {
            Ok(()) => Ok(()),
            Err(_) => Err(NoMemory),
        }
    }

    /// The nodes in their order.
    pub(crate) fn into_vec(self) -> Vec<Node>
        ensures { self ≡ reverse result.items }
    {
        self.nodes
    }

    /// Takes the last node away, if there is one.
    pub fn pop(&mut self) -> Option<Node>
        ensures { MatchOption result ((self.old ≡ []) × (self.new ≡ [])) (λ node. self.old ≡ node ∷ self.new) }
    {
        self.nodes.pop()
    }

    /// Adds the nodes of a statement or a body, which are then gone there. On an error nothing changes.
    pub fn append(&mut self, part: &mut Nodes) -> Result<(), NoMemory>
        ensures added { OnOk result ((self.new ≡ part.old ++ self.old) × (part.new ≡ [])) }
        ensures kept { OnErr result ((self.new ≡ self.old) × (part.new ≡ part.old)) }
    {
        match self.nodes.append(&mut part.nodes) {
            Ok(()) => Ok(()),
            Err(_) => Err(NoMemory),
        }
    }

    /// The nodes in the order in which they were added.
    pub fn as_slice(&self) -> &[Node]
        ensures { reverse result.now ≡ self.now }
    {
        &self.nodes
    }

    /// Whether the last node is a mark.
    pub fn at_mark(&self) -> bool
        ensures { result ≡ n.at_mark self.now }
    {
        match self.nodes.last() {
            Some(node) => node.is_mark(),
            None => false,
        }
    }
}
