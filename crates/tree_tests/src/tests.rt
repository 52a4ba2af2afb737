//! Trees built by hand: one with each kind of node, and brackets nested as deep as a file of 4 MiB allows. The tokens,
//! depths and places that are expected were read off the source text.

use qml_base::Place;
use qml_syntax::{
    Assignment, Close, Declaration, Literal, Node, Nodes, Operator, Postfix, Prefix, Standing,
    TokenKind,
};
use qml_text::Text;
use std::alloc::Global;
use std::test::Fail;

/// The place of the token of this number.
fn at(token: u32) -> Place {
    Place {
        line: 1,
        column: token,
    }
}

fn text(alloc: Global, bytes: &[u8]) -> Result<Text, Fail> {
    Ok(Text::from_utf8(alloc, bytes)?)
}

/// `;`
fn empty(nodes: &mut Nodes) -> Result<(), Fail> {
    nodes.push(Node::Empty(at(1)))?;
    Ok(())
}

/// `var a = 1, b;`
fn declared(alloc: Global, nodes: &mut Nodes) -> Result<(), Fail> {
    nodes.push(Node::Mark)?;
    nodes.push(Node::Var(text(alloc, b"a")?, at(3)))?;
    nodes.push(Node::Number(1, at(5)))?;
    nodes.push(Node::Var(text(alloc, b"b")?, at(7)))?;
    nodes.push(Node::Declare(at(2), Declaration::Var, Close::Semi))?;
    Ok(())
}

/// `{ x.m[1](2, "t")++ }`
fn stepped(alloc: Global, nodes: &mut Nodes) -> Result<(), Fail> {
    nodes.push(Node::Mark)?;
    nodes.push(Node::Name(text(alloc, b"x")?, at(10)))?;
    nodes.push(Node::Member(text(alloc, b"m")?, at(12)))?;
    nodes.push(Node::Number(1, at(14)))?;
    nodes.push(Node::Element(at(13)))?;
    nodes.push(Node::Mark)?;
    nodes.push(Node::Number(2, at(17)))?;
    nodes.push(Node::Text(text(alloc, b"t")?, at(19)))?;
    nodes.push(Node::Call(at(16)))?;
    nodes.push(Node::Steps)?;
    nodes.push(Node::Postfix(Postfix::Increment, at(21)))?;
    nodes.push(Node::Expression(Close::Auto))?;
    nodes.push(Node::Block(at(9)))?;
    Ok(())
}

/// `if (true) ; else ;`
fn chosen(nodes: &mut Nodes) -> Result<(), Fail> {
    nodes.push(Node::Literal(Literal::True, at(25)))?;
    nodes.push(Node::Empty(at(27)))?;
    nodes.push(Node::Empty(at(29)))?;
    nodes.push(Node::Either(at(23)))?;
    Ok(())
}

/// `if (!-a) break`
fn negated(alloc: Global, nodes: &mut Nodes) -> Result<(), Fail> {
    nodes.push(Node::Sign(true, Prefix::Not, at(32)))?;
    nodes.push(Node::Name(text(alloc, b"a")?, at(34)))?;
    nodes.push(Node::Signed(false, Prefix::Minus, at(33)))?;
    nodes.push(Node::Stop(at(36), Close::Auto))?;
    nodes.push(Node::When(at(30)))?;
    Ok(())
}

/// `while (a + b - c) continue;`
fn repeated(alloc: Global, nodes: &mut Nodes) -> Result<(), Fail> {
    nodes.push(Node::Name(text(alloc, b"a")?, at(39)))?;
    nodes.push(Node::Name(text(alloc, b"b")?, at(41)))?;
    nodes.push(Node::Link(true, Operator::Plus, at(40)))?;
    nodes.push(Node::Name(text(alloc, b"c")?, at(43)))?;
    nodes.push(Node::Chain(false, Operator::Minus, at(42)))?;
    nodes.push(Node::Again(at(45), Close::Semi))?;
    nodes.push(Node::While(at(37)))?;
    Ok(())
}

/// `for (; a; b) ;`
fn counted(alloc: Global, nodes: &mut Nodes) -> Result<(), Fail> {
    nodes.push(Node::NoFirst)?;
    nodes.push(Node::Name(text(alloc, b"a")?, at(50)))?;
    nodes.push(Node::Present)?;
    nodes.push(Node::Name(text(alloc, b"b")?, at(52)))?;
    nodes.push(Node::Present)?;
    nodes.push(Node::Empty(at(54)))?;
    nodes.push(Node::For(at(47)))?;
    Ok(())
}

/// `for (a; ; ) ;`
fn begun_with_an_expression(alloc: Global, nodes: &mut Nodes) -> Result<(), Fail> {
    nodes.push(Node::Name(text(alloc, b"a")?, at(57)))?;
    nodes.push(Node::FirstExpression)?;
    nodes.push(Node::Absent)?;
    nodes.push(Node::Absent)?;
    nodes.push(Node::Empty(at(61)))?;
    nodes.push(Node::For(at(55)))?;
    Ok(())
}

/// `for (let i = 0; ; ) ;`
fn begun_with_a_declaration(alloc: Global, nodes: &mut Nodes) -> Result<(), Fail> {
    nodes.push(Node::Mark)?;
    nodes.push(Node::Var(text(alloc, b"i")?, at(65)))?;
    nodes.push(Node::Number(0, at(67)))?;
    nodes.push(Node::FirstDeclare(at(64), Declaration::Let))?;
    nodes.push(Node::Absent)?;
    nodes.push(Node::Absent)?;
    nodes.push(Node::Empty(at(71)))?;
    nodes.push(Node::For(at(62)))?;
    Ok(())
}

/// `return;`
fn returned(nodes: &mut Nodes) -> Result<(), Fail> {
    nodes.push(Node::Give(at(72), Close::Semi))?;
    Ok(())
}

/// `return [1, 2,]`
fn returned_list(nodes: &mut Nodes) -> Result<(), Fail> {
    nodes.push(Node::Mark)?;
    nodes.push(Node::Number(1, at(76)))?;
    nodes.push(Node::Number(2, at(78)))?;
    nodes.push(Node::List(at(75), true))?;
    nodes.push(Node::GiveValue(at(74), Close::Auto))?;
    Ok(())
}

/// `a ? b : c ? d : e`
fn asked(alloc: Global, nodes: &mut Nodes) -> Result<(), Fail> {
    nodes.push(Node::Name(text(alloc, b"a")?, at(81)))?;
    nodes.push(Node::Name(text(alloc, b"b")?, at(83)))?;
    nodes.push(Node::Choice(true))?;
    nodes.push(Node::Name(text(alloc, b"c")?, at(85)))?;
    nodes.push(Node::Name(text(alloc, b"d")?, at(87)))?;
    nodes.push(Node::Choice(false))?;
    nodes.push(Node::Name(text(alloc, b"e")?, at(89)))?;
    nodes.push(Node::Choose)?;
    nodes.push(Node::Expression(Close::Auto))?;
    Ok(())
}

/// `a = b += {k: 1, "t": 2}`
fn assigned(alloc: Global, nodes: &mut Nodes) -> Result<(), Fail> {
    nodes.push(Node::Name(text(alloc, b"a")?, at(90)))?;
    nodes.push(Node::Target(true, Assignment::Plain, at(91)))?;
    nodes.push(Node::Name(text(alloc, b"b")?, at(92)))?;
    nodes.push(Node::Target(false, Assignment::Plus, at(93)))?;
    nodes.push(Node::Mark)?;
    nodes.push(Node::Key(false, text(alloc, b"k")?, at(95)))?;
    nodes.push(Node::Number(1, at(97)))?;
    nodes.push(Node::Key(true, text(alloc, b"t")?, at(99)))?;
    nodes.push(Node::Number(2, at(101)))?;
    nodes.push(Node::Fields(at(94), false))?;
    nodes.push(Node::Assign)?;
    nodes.push(Node::Expression(Close::Auto))?;
    Ok(())
}

/// `Qt.binding(function() { ; })`
fn bound(alloc: Global, nodes: &mut Nodes) -> Result<(), Fail> {
    nodes.push(Node::Name(text(alloc, b"Qt")?, at(103)))?;
    nodes.push(Node::Member(text(alloc, b"binding")?, at(105)))?;
    nodes.push(Node::Mark)?;
    nodes.push(Node::Empty(at(111)))?;
    nodes.push(Node::Binding(at(107)))?;
    nodes.push(Node::Steps)?;
    nodes.push(Node::Expression(Close::Auto))?;
    Ok(())
}

/// `(a)`
fn bracketed(alloc: Global, nodes: &mut Nodes) -> Result<(), Fail> {
    nodes.push(Node::Name(text(alloc, b"a")?, at(115)))?;
    nodes.push(Node::Paren(at(114)))?;
    nodes.push(Node::Expression(Close::Auto))?;
    Ok(())
}

/// The body of these statements, with each kind of node.
fn all_kinds(alloc: Global) -> Result<Nodes, Fail> {
    let mut nodes = Nodes::new(alloc);
    nodes.push(Node::Mark)?;
    empty(&mut nodes)?;
    declared(alloc, &mut nodes)?;
    stepped(alloc, &mut nodes)?;
    chosen(&mut nodes)?;
    negated(alloc, &mut nodes)?;
    repeated(alloc, &mut nodes)?;
    counted(alloc, &mut nodes)?;
    begun_with_an_expression(alloc, &mut nodes)?;
    begun_with_a_declaration(alloc, &mut nodes)?;
    returned(&mut nodes)?;
    returned_list(&mut nodes)?;
    asked(alloc, &mut nodes)?;
    assigned(alloc, &mut nodes)?;
    bound(alloc, &mut nodes)?;
    bracketed(alloc, &mut nodes)?;
    nodes.push(Node::Body)?;
    Ok(nodes)
}

/// The tokens of each statement: names, numbers and texts as they are, marks and words by their names.
const TOKENS: [&str; 15] = [
    "Semicolon",
    "Var a Assign 1 Comma b Semicolon",
    "LeftBrace x Dot m LeftBracket 1 RightBracket LeftParen 2 Comma 't' RightParen Increment RightBrace",
    "If LeftParen True RightParen Semicolon Else Semicolon",
    "If LeftParen Not Minus a RightParen Break",
    "While LeftParen a Plus b Minus c RightParen Continue Semicolon",
    "For LeftParen Semicolon a Semicolon b RightParen Semicolon",
    "For LeftParen a Semicolon Semicolon RightParen Semicolon",
    "For LeftParen Let i Assign 0 Semicolon Semicolon RightParen Semicolon",
    "Return Semicolon",
    "Return LeftBracket 1 Comma 2 Comma RightBracket",
    "a Question b Colon c Question d Colon e",
    "a Assign b PlusAssign LeftBrace k Colon 1 Comma 't' Colon 2 RightBrace",
    "Qt Dot binding LeftParen Function LeftParen RightParen LeftBrace Semicolon RightBrace RightParen",
    "LeftParen a RightParen",
];

/// How deep each node of each statement stands, with the number of its first token.
const DEPTHS: [&[(usize, u32)]; 15] = [
    &[(1, 1)],
    &[(1, 2), (2, 5)],
    &[(1, 9), (2, 10), (3, 10), (4, 10), (4, 14), (4, 17), (4, 19)],
    &[(1, 23), (2, 25), (2, 27), (2, 29)],
    &[(1, 30), (2, 32), (3, 34), (2, 36)],
    &[(1, 37), (2, 39), (3, 39), (3, 41), (3, 43), (2, 45)],
    &[(1, 47), (2, 50), (2, 52), (2, 54)],
    &[(1, 55), (2, 57), (2, 61)],
    &[(1, 62), (2, 64), (3, 67), (2, 71)],
    &[(1, 72)],
    &[(1, 74), (2, 75), (3, 76), (3, 78)],
    &[(1, 81), (2, 81), (2, 83), (2, 85), (2, 87), (2, 89)],
    &[(1, 90), (2, 90), (2, 92), (2, 94), (3, 97), (3, 101)],
    &[(1, 103), (2, 103), (2, 107), (3, 111)],
    &[(1, 114), (2, 115)],
];

/// A number in so many pairs of brackets, each token at the place of its number.
fn nested(alloc: Global, pairs: u32) -> Result<Nodes, Fail> {
    let mut nodes = Nodes::new(alloc);
    nodes.push(Node::Number(1, at(pairs.saturating_add(1))))?;
    for i in 0..pairs {
        nodes.push(Node::Paren(at(pairs - i)))?;
    }
    Ok(nodes)
}

/// A name, number or text as it is, and a mark or word by its name.
fn said(alloc: Global, kind: &TokenKind) -> Result<String, Fail> {
    match kind {
        TokenKind::Name(name) => Ok(String::from_utf8(name.to_utf8(alloc)?)?),
        TokenKind::Text(text) => {
            let text = String::from_utf8(text.to_utf8(alloc)?)?;
            Ok(format!(in alloc; "'{text}'")?)
        }
        TokenKind::Number(number) => Ok(format!(in alloc; "{number}")?),
        TokenKind::Mark(mark) => Ok(format!(in alloc; "{mark:?}")?),
        TokenKind::Word(word) => Ok(format!(in alloc; "{word:?}")?),
        TokenKind::Version | TokenKind::End => Ok(String::from_str(alloc, "nothing of a tree")?),
    }
}

#[test]
fn writes_each_kind_of_node(rt: HostRuntime) -> Result<(), Fail> {
    let alloc = rt.alloc();
    let kinds = all_kinds(alloc)?.flat(alloc)?;
    let mut written = String::new(alloc);
    for kind in &kinds {
        written.push_str(&said(alloc, kind)?)?;
        written.push_str(" ")?;
    }
    let mut wanted = String::new(alloc);
    for statement in TOKENS {
        wanted.push_str(statement)?;
        wanted.push_str(" ")?;
    }
    assert_eq!(rt; written.as_str(), wanted.as_str());
    Ok(())
}

#[test]
fn tells_how_deep_each_node_stands(rt: HostRuntime) -> Result<(), Fail> {
    let alloc = rt.alloc();
    let nodes = all_kinds(alloc)?;
    let mut wanted = Vec::new(alloc);
    for statement in DEPTHS {
        for (depth, token) in statement {
            wanted.push(Standing {
                depth: *depth,
                place: at(*token),
            })?;
        }
    }
    assert_eq!(rt; nodes.standing(alloc)?.as_slice(), wanted.as_slice());
    assert_eq!(rt; nodes.too_deep(alloc)?, None);
    Ok(())
}

#[test]
fn nests_as_deep_as_a_file_allows(rt: HostRuntime) -> Result<(), Fail> {
    let alloc = rt.alloc();
    assert_eq!(rt; nested(alloc, 99)?.too_deep(alloc)?, None);
    assert_eq!(rt; nested(alloc, 100)?.too_deep(alloc)?, Some(at(101)));
    let nodes = nested(alloc, 2_097_151)?;
    assert_eq!(rt; nodes.too_deep(alloc)?, Some(at(101)));
    assert_eq!(rt; nodes.flat(alloc)?.len(), 4_194_303);
    Ok(())
}
