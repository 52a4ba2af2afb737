//! Which parts a node takes.

ghost use Rattle.std.specs.Prelude.{◌≡◌};
ghost use Rattle.qml_syntax.specs.Taken.{taking_of, taking_in_document, is_step, is_first, is_edge};

use crate::node::Node;

/// Which of the parts before it a node takes, from the last one back.
#[derive(Clone, Copy, Debug, PartialEq, Eq)]
pub enum Taking {
    /// This many.
    Count(usize),
    /// Those behind a mark, and the mark.
    UpToMark,
    /// The steps behind an expression, and it; or the names behind dots of a path, and its first.
    Steps,
    /// The last operand, and the chain before it.
    Chain,
    /// The last operand, the chain before it, and the operand in front of the chain.
    Operands,
    /// A path, and one part behind it.
    Path,
    /// A path, a mark and the parts behind it.
    Members,
    /// A path, and one part before it.
    Target,
    /// A part, a mark and the parts behind it.
    NamedRow,
    /// A part, a mark and the parts behind it, and two parts more.
    Function,
    /// A mark and the parts behind it, and one part more.
    RowBefore,
}

/// What the first of many parts is.
#[derive(Clone, Copy, Debug, PartialEq, Eq)]
pub enum Edge {
    /// A mark.
    Mark,
    /// No step.
    Operand,
    /// The first of a chain.
    First,
}

/// Which parts this node takes.
pub fn taken_by(node: &Node) -> Taking
    ensures { result ≡ taking_of node.now }
{
    match node {
        Node::Paren(_)
        | Node::Element(_)
        | Node::Postfix(_, _)
        | Node::Link(_, _, _)
        | Node::Target(_, _, _)
        | Node::Expression(_)
        | Node::FirstExpression
        | Node::Present
        | Node::GiveValue(_, _) => Taking::Count(1),
        Node::Choice(_) | Node::When(_) | Node::While(_) => Taking::Count(2),
        Node::Either(_) => Taking::Count(3),
        Node::For(_) => Taking::Count(4),
        Node::List(_, _)
        | Node::Fields(_, _)
        | Node::Call(_)
        | Node::Binding(_)
        | Node::Block(_)
        | Node::Declare(_, _, _)
        | Node::FirstDeclare(_, _)
        | Node::Body => Taking::UpToMark,
        Node::Steps => Taking::Steps,
        Node::Choose | Node::Assign => Taking::Chain,
        Node::Signed(first, _, _) => if *first {
            Taking::Count(1)
        } else {
            Taking::Chain
        },
        Node::Chain(first, _, _) => if *first {
            Taking::Count(2)
        } else {
            Taking::Operands
        },
        _ => taken_in_document(node),
    }
}

/// Which parts this node of a document or a script file takes.
fn taken_in_document(node: &Node) -> Taking
    ensures { result ≡ taking_in_document node.now }
{
    match node {
        Node::SignalParameter(_)
        | Node::Id(_, _)
        | Node::Signal(_, _)
        | Node::Method
        | Node::Child
        | Node::Semi => Taking::Count(1),
        Node::ImportFile(_) | Node::Parameter | Node::Bare(_, _, _) => Taking::Count(2),
        Node::Property(_, _) => Taking::Count(3),
        Node::ObjectList(_) | Node::Script(_) => Taking::UpToMark,
        Node::KindName => Taking::Steps,
        Node::ImportModule(_, _) | Node::Given => Taking::Path,
        Node::Group | Node::Object => Taking::Members,
        Node::Alias(_, _, _) => Taking::Target,
        Node::SignalWith(_, _) => Taking::NamedRow,
        Node::Function(_) => Taking::Function,
        Node::Document => Taking::RowBefore,
        _ => Taking::Count(0),
    }
}

/// Whether it is a step, or a name behind a dot.
fn is_step_node(node: &Node) -> bool
    ensures { result ≡ is_step node.now }
{
    match node {
        Node::Member(_, _) | Node::Element(_) | Node::Call(_) | Node::Binding(_) | Node::Dot(_) =>
            true,
        _ => false,
    }
}

/// Whether it begins a chain before its last operand.
fn is_first_node(node: &Node) -> bool
    ensures { result ≡ is_first node.now }
{
    match node {
        Node::Sign(first, _, _) | Node::Link(first, _, _) => *first,
        Node::Choice(first) => *first,
        Node::Target(first, _, _) => *first,
        _ => false,
    }
}

/// Whether many parts begin with this node.
pub fn is_at_edge(edge: Edge, node: &Node) -> bool
    ensures { result ≡ is_edge edge node.now }
{
    match edge {
        Edge::Mark => node.is_mark(),
        Edge::Operand => !is_step_node(node),
        Edge::First => is_first_node(node),
    }
}
