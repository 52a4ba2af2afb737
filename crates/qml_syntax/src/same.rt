//! When nodes are the same.

ghost use Rattle.std.specs.Prelude.{◌≡◌, ◌↔◌, ◌||◌, true, false, IsTrue, MatchOption};
ghost use Rattle.qml_syntax.specs.Kinds.{is_of_chain, is_of_statement, is_named, is_of_object};

use crate::node::Node;

/// Whether two nodes are equal.
pub fn same_node(a: &Node, b: &Node) -> bool
    ensures { IsTrue result ↔ (a.now ≡ b.now) }
{
    match same_in_expression(a, b) {
        Some(same) => same,
        None => match same_in_chain(a, b) {
            Some(same) => same,
            None => match same_in_statement(a, b) {
                Some(same) => same,
                None => same_in_document(a, b),
            },
        },
    }
}

/// Whether two nodes are equal, where the first is one of an expression but no chain.
fn same_in_expression(a: &Node, b: &Node) -> Option<bool>
    ensures { MatchOption result ((is_of_chain a.now || is_of_statement a.now || is_named a.now || is_of_object a.now) ≡
        true) (λ same. IsTrue same ↔ (a.now ≡ b.now)) }
{
    Some(match a {
        Node::Mark => b.is_mark(),
        Node::Name(text, place) =>
            matches!(b, Node::Name(other, at) if text.same(other) && *place == *at),
        Node::Number(n, place) =>
            matches!(b, Node::Number(other, at) if *n == *other && *place == *at),
        Node::Text(text, place) =>
            matches!(b, Node::Text(other, at) if text.same(other) && *place == *at),
        Node::Literal(x, place) =>
            matches!(b, Node::Literal(other, at) if *x == *other && *place == *at),
        Node::Paren(place) => matches!(b, Node::Paren(at) if *place == *at),
        Node::List(place, comma) =>
            matches!(b, Node::List(at, other) if *place == *at && *comma == *other),
        Node::Fields(place, comma) =>
            matches!(b, Node::Fields(at, other) if *place == *at && *comma == *other),
        Node::Key(quoted, text, place) => {
            matches!(b, Node::Key(other, name, at) if *quoted == *other && text.same(name) && *place == *at)
        }
        Node::Member(text, place) =>
            matches!(b, Node::Member(other, at) if text.same(other) && *place == *at),
        Node::Element(place) => matches!(b, Node::Element(at) if *place == *at),
        Node::Call(place) => matches!(b, Node::Call(at) if *place == *at),
        Node::Binding(place) => matches!(b, Node::Binding(at) if *place == *at),
        Node::Steps => matches!(b, Node::Steps),
        Node::Postfix(sign, place) =>
            matches!(b, Node::Postfix(other, at) if *sign == *other && *place == *at),
        _ => return None,
    })
}

/// Whether two nodes are equal, where the first is one of a chain.
fn same_in_chain(a: &Node, b: &Node) -> Option<bool>
    ensures { MatchOption result (is_of_chain a.now ≡ false) (λ same. IsTrue same ↔ (a.now ≡ b.now)) }
{
    Some(match a {
        Node::Sign(first, sign, place) => {
            matches!(b, Node::Sign(is, other, at) if *first == *is && *sign == *other && *place == *at)
        }
        Node::Signed(first, sign, place) => {
            matches!(b, Node::Signed(is, other, at) if *first == *is && *sign == *other && *place == *at)
        }
        Node::Link(first, sign, place) => {
            matches!(b, Node::Link(is, other, at) if *first == *is && *sign == *other && *place == *at)
        }
        Node::Chain(first, sign, place) => {
            matches!(b, Node::Chain(is, other, at) if *first == *is && *sign == *other && *place == *at)
        }
        Node::Choice(first) => matches!(b, Node::Choice(is) if *first == *is),
        Node::Choose => matches!(b, Node::Choose),
        Node::Target(first, sign, place) => {
            matches!(b, Node::Target(is, other, at) if *first == *is && *sign == *other && *place == *at)
        }
        Node::Assign => matches!(b, Node::Assign),
        _ => return None,
    })
}

/// Whether two nodes are equal, where the first is one of a statement.
fn same_in_statement(a: &Node, b: &Node) -> Option<bool>
    ensures { MatchOption result (is_of_statement a.now ≡ false) (λ same. IsTrue same ↔ (a.now ≡ b.now)) }
{
    Some(match a {
        Node::Empty(place) => matches!(b, Node::Empty(at) if *place == *at),
        Node::Expression(close) => matches!(b, Node::Expression(other) if *close == *other),
        Node::Block(place) => matches!(b, Node::Block(at) if *place == *at),
        Node::Var(text, place) =>
            matches!(b, Node::Var(other, at) if text.same(other) && *place == *at),
        Node::Declare(place, kind, close) => {
            matches!(b, Node::Declare(at, other, end) if *place == *at && *kind == *other && *close == *end)
        }
        Node::When(place) => matches!(b, Node::When(at) if *place == *at),
        Node::Either(place) => matches!(b, Node::Either(at) if *place == *at),
        Node::While(place) => matches!(b, Node::While(at) if *place == *at),
        Node::For(place) => matches!(b, Node::For(at) if *place == *at),
        Node::NoFirst => matches!(b, Node::NoFirst),
        Node::FirstExpression => matches!(b, Node::FirstExpression),
        Node::FirstDeclare(place, kind) =>
            matches!(b, Node::FirstDeclare(at, other) if *place == *at && *kind == *other),
        Node::Absent => matches!(b, Node::Absent),
        Node::Present => matches!(b, Node::Present),
        Node::Give(place, close) =>
            matches!(b, Node::Give(at, end) if *place == *at && *close == *end),
        Node::GiveValue(place, close) =>
            matches!(b, Node::GiveValue(at, end) if *place == *at && *close == *end),
        Node::Stop(place, close) =>
            matches!(b, Node::Stop(at, end) if *place == *at && *close == *end),
        Node::Again(place, close) =>
            matches!(b, Node::Again(at, end) if *place == *at && *close == *end),
        Node::Body => matches!(b, Node::Body),
        _ => return None,
    })
}

/// Whether two nodes are equal, where the first is one of documents.
fn same_in_document(a: &Node, b: &Node) -> bool
    ensures { (is_named a.now || is_of_object a.now) ≡ true → IsTrue result ↔ (a.now ≡ b.now) }
{
    match same_named(a, b) {
        Some(same) => same,
        None => match same_in_object(a, b) {
            Some(same) => same,
            None => false,
        },
    }
}

/// Whether two nodes are equal, where the first is one of a path, an import, a kind or a function.
fn same_named(a: &Node, b: &Node) -> Option<bool>
    ensures { MatchOption result (is_named a.now ≡ false) (λ same. IsTrue same ↔ (a.now ≡ b.now)) }
{
    Some(match a {
        Node::First(text, place) =>
            matches!(b, Node::First(other, at) if text.same(other) && *place == *at),
        Node::Dot(text) => matches!(b, Node::Dot(other) if text.same(other)),
        Node::File(text, place) =>
            matches!(b, Node::File(other, at) if text.same(other) && *place == *at),
        Node::Plain => matches!(b, Node::Plain),
        Node::Qualifier(text) => matches!(b, Node::Qualifier(other) if text.same(other)),
        Node::ImportModule(version, close) =>
            matches!(b, Node::ImportModule(other, end) if *version == *other && *close == *end),
        Node::ImportFile(close) => matches!(b, Node::ImportFile(end) if *close == *end),
        Node::KindVar => matches!(b, Node::KindVar),
        Node::KindName => matches!(b, Node::KindName),
        Node::KindList(text, place) =>
            matches!(b, Node::KindList(other, at) if text.same(other) && *place == *at),
        Node::NoKind => matches!(b, Node::NoKind),
        Node::ParameterName(text) => matches!(b, Node::ParameterName(other) if text.same(other)),
        Node::Parameter => matches!(b, Node::Parameter),
        Node::SignalParameter(text) =>
            matches!(b, Node::SignalParameter(other) if text.same(other)),
        Node::Function(place) => matches!(b, Node::Function(at) if *place == *at),
        _ => return None,
    })
}

/// Whether two nodes are equal, where the first is one of an object, of its members, or of a whole file.
fn same_in_object(a: &Node, b: &Node) -> Option<bool>
    ensures { MatchOption result (is_of_object a.now ≡ false) (λ same. IsTrue same ↔ (a.now ≡ b.now)) }
{
    Some(match a {
        Node::Id(place, close) => matches!(b, Node::Id(at, end) if *place == *at && *close == *end),
        Node::Property(place, adjective) =>
            matches!(b, Node::Property(at, other) if *place == *at && *adjective == *other),
        Node::Bare(place, adjective, close) => {
            matches!(b, Node::Bare(at, other, end) if *place == *at && *adjective == *other && *close == *end)
        }
        Node::Alias(place, is_default, close) => {
            matches!(b, Node::Alias(at, other, end) if *place == *at && *is_default == *other && *close == *end)
        }
        Node::Signal(place, close) =>
            matches!(b, Node::Signal(at, end) if *place == *at && *close == *end),
        Node::SignalWith(place, close) =>
            matches!(b, Node::SignalWith(at, end) if *place == *at && *close == *end),
        Node::Method => matches!(b, Node::Method),
        Node::Given => matches!(b, Node::Given),
        Node::Group => matches!(b, Node::Group),
        Node::Child => matches!(b, Node::Child),
        Node::Semi => matches!(b, Node::Semi),
        Node::Object => matches!(b, Node::Object),
        Node::ObjectList(place) => matches!(b, Node::ObjectList(at) if *place == *at),
        Node::Document => matches!(b, Node::Document),
        Node::Script(pragma) => matches!(b, Node::Script(other) if *pragma == *other),
        _ => return None,
    })
}

/// Whether two lists of nodes are equal.
pub fn same_nodes(a: &[Node], b: &[Node]) -> bool
    ensures { IsTrue result ↔ (a.now ≡ b.now) }
{
    if a.len() != b.len() {
        return false;
    }
    for at in 0..a.len() {
        if !same_node(&a[at], &b[at]) {
            return false;
        }
    }
    true
}
