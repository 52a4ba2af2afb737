//! Each production of expressions and statements, what it reads and where it refuses.

use js_parser::{ParseFault, parse_body, parse_expr, parse_statement};
use qml_lexer::lex;
use qml_syntax::{Node, Token, Tree, flat};
use std::alloc::Global;
use std::test::Fail;

/// Expressions: the names of the tree's nodes, children before their parents, or what refuses them; and where reading
/// ended.
const EXPRESSIONS: [(&str, &str); 85] = [
    // single tokens
    ("a", "a; 1:2"),
    ("12", "Number; 1:3"),
    ("'x'", "Text; 1:4"),
    ("true", "Literal; 1:5"),
    ("false", "Literal; 1:6"),
    ("null", "Literal; 1:5"),
    ("", "Syntax 1:1"),
    (";", "Syntax 1:1"),
    ("if", "Syntax 1:1"),
    ("1.5", "Syntax 1:1"),
    // brackets, lists, fields
    ("(a)", "a Paren; 1:4"),
    ("()", "Syntax 1:2"),
    ("(a", "Syntax 1:3"),
    ("(a,b)", "Syntax 1:3"),
    ("[]", "Mark List; 1:3"),
    ("[a]", "Mark a List; 1:4"),
    ("[a,]", "Mark a List,; 1:5"),
    ("[a,b]", "Mark a b List; 1:6"),
    ("[,]", "Syntax 1:2"),
    ("[a b]", "Syntax 1:4"),
    ("{}", "Mark Fields; 1:3"),
    ("{k:a}", "Mark Key a Fields; 1:6"),
    ("{'k':a,}", "Mark Key a Fields,; 1:9"),
    ("{k:a,l:b}", "Mark Key a Key b Fields; 1:10"),
    ("{,}", "Syntax 1:2"),
    ("{k}", "Syntax 1:3"),
    ("{1:a}", "Syntax 1:2"),
    // steps
    ("a.b", "a Member Steps; 1:4"),
    ("a.1", "Syntax 1:3"),
    ("a[b]", "a b Element Steps; 1:5"),
    ("a[]", "Syntax 1:3"),
    ("a()", "a Mark Call Steps; 1:4"),
    ("a(b,c)", "a Mark b c Call Steps; 1:7"),
    ("a(b,)", "Syntax 1:5"),
    ("a.b[c]()", "a Member c Element Mark Call Steps; 1:9"),
    ("1.a", "Number Member Steps; 1:4"),
    (
        "Qt.binding(function(){})",
        "Qt Member Mark Binding Steps; 1:25",
    ),
    (
        "Qt.binding(function(){return a})",
        "Qt Member Mark a GiveValue Binding Steps; 1:33",
    ),
    ("Qt.binding(function(a){})", "Syntax 1:21"),
    ("Qt.binding(function(){},a)", "Syntax 1:24"),
    ("Qt.binding(a,function(){})", "Syntax 1:14"),
    ("Qt.b(function(){})", "Syntax 1:6"),
    ("f(function(){})", "Syntax 1:3"),
    // operators behind and before an expression
    ("a++", "a Postfix; 1:4"),
    ("a--", "a Postfix; 1:4"),
    ("a.b++", "a Member Steps Postfix; 1:6"),
    ("1++", "Number; 1:2"),
    ("a()++", "a Mark Call Steps; 1:4"),
    ("a++++", "a Postfix; 1:4"),
    ("a\n++", "a; 2:1"),
    ("!a", "a Signed; 1:3"),
    ("-a", "a Signed; 1:3"),
    ("+a", "a Signed; 1:3"),
    ("~a", "a Signed; 1:3"),
    ("typeof a", "a Signed; 1:9"),
    ("++a", "a Signed; 1:4"),
    ("--a.b", "a Member Steps Signed; 1:6"),
    ("- -!a", "Sign Sign a Signed; 1:6"),
    ("!", "Syntax 1:2"),
    ("++1", "Syntax 1:4"),
    ("++-a", "Syntax 1:3"),
    ("-a++", "a Postfix Signed; 1:5"),
    // operators between operands, from the tightest
    ("a*b/c%d", "a b Link c Link d Chain; 1:8"),
    ("a+b-c", "a b Link c Chain; 1:6"),
    ("a+b*c", "a b c Chain Chain; 1:6"),
    ("a*b+c", "a b Chain c Chain; 1:6"),
    ("a<<b+c", "a b c Chain Chain; 1:7"),
    ("a<b<<c", "a b c Chain Chain; 1:7"),
    ("a==b<c", "a b c Chain Chain; 1:7"),
    ("a&b==c", "a b c Chain Chain; 1:7"),
    ("a^b&c", "a b c Chain Chain; 1:6"),
    ("a|b^c", "a b c Chain Chain; 1:6"),
    ("a&&b|c", "a b c Chain Chain; 1:7"),
    ("a||b&&c", "a b c Chain Chain; 1:8"),
    ("a??b|c", "a b c Chain Chain; 1:7"),
    ("a ?? b || c", "a b Chain; 1:8"),
    ("a || b ?? c", "a b Chain; 1:8"),
    ("a+", "Syntax 1:3"),
    ("-a+b", "a Signed b Chain; 1:5"),
    // choices and assignments, which bind to the right
    ("a?b:c", "a b Choice c Choose; 1:6"),
    ("a?b:c?d:e", "a b Choice c d Choice e Choose; 1:10"),
    ("a?b", "Syntax 1:4"),
    ("a=b+=c", "a Target b Target c Assign; 1:7"),
    ("1=a", "Number; 1:2"),
    ("(a)=b", "a Paren; 1:4"),
];

/// Statements, likewise.
const STATEMENTS: [(&str, &str); 45] = [
    (";", "Empty; 1:2"),
    ("a;", "a Expression; 1:3"),
    ("a", "a Expression; 1:2"),
    ("a b", "a Expression; 1:3"),
    ("{}", "Mark Block; 1:3"),
    ("{a;b}", "Mark a Expression b Expression Block; 1:6"),
    ("{a b}", "Syntax 1:4"),
    ("{", "Syntax 1:2"),
    ("{k:a}", "Syntax 1:3"),
    ("var a", "Mark Var Declare; 1:6"),
    ("var a=b,c;", "Mark Var b Var Declare; 1:11"),
    ("let a", "Mark Var Declare; 1:6"),
    ("const a=b", "Mark Var b Declare; 1:10"),
    ("var", "Syntax 1:4"),
    ("var 1", "Syntax 1:5"),
    ("var a,", "Syntax 1:7"),
    ("var a=", "Syntax 1:7"),
    ("if(a)b", "a b Expression When; 1:7"),
    ("if(a)b;else c", "a b Expression c Expression Either; 1:14"),
    (
        "if(a)if(b)c;else d",
        "a b c Expression d Expression Either When; 1:19",
    ),
    ("if a", "Syntax 1:4"),
    ("if()", "Syntax 1:4"),
    ("if(a)", "Syntax 1:6"),
    ("if(a)b else c", "a b Expression When; 1:8"),
    ("else", "Syntax 1:1"),
    ("while(a)b", "a b Expression While; 1:10"),
    ("while()", "Syntax 1:7"),
    ("while(a)break", "a Stop While; 1:14"),
    (
        "while(a){if(b)continue;}",
        "a Mark b Again When Block While; 1:25",
    ),
    ("for(;;)a", "NoFirst Absent Absent a Expression For; 1:9"),
    (
        "for(a;b;c)d",
        "a FirstExpression b Present c Present d Expression For; 1:12",
    ),
    (
        "for(var i=0,j;i;i++)a",
        "Mark Var Number Var FirstDeclare i Present i Postfix Present a Expression For; 1:22",
    ),
    ("for(a)", "Syntax 1:6"),
    ("for(;)", "Syntax 1:6"),
    ("for(;;", "Syntax 1:7"),
    ("break", "Syntax 1:1"),
    ("if(a)continue", "Syntax 1:6"),
    ("return", "Give; 1:7"),
    ("return;", "Give; 1:8"),
    ("return a", "a GiveValue; 1:9"),
    ("return a;", "a GiveValue; 1:10"),
    ("return return", "Give; 1:8"),
    ("while(a)break b", "a Stop While; 1:15"),
    ("while(a)Qt.binding(function(){break})", "Syntax 1:31"),
    ("a=b", "a Target b Assign Expression; 1:4"),
];

/// Bodies, likewise.
const BODIES: [(&str, &str); 20] = [
    ("", "Mark Body; 1:1"),
    ("a;b", "Mark a Expression b Expression Body; 1:4"),
    ("a\nb", "Mark a Expression b Expression Body; 2:2"),
    ("a b", "Mark a Expression Body; 1:3"),
    ("a}", "Mark a Expression Body; 1:2"),
    ("return\n1", "Mark Give Number Expression Body; 2:2"),
    ("a\n(b)", "Mark a Mark b Call Steps Expression Body; 2:4"),
    ("a\n[b]", "Mark a b Element Steps Expression Body; 2:4"),
    ("a\n+b", "Mark a b Chain Expression Body; 2:3"),
    ("a\n++b", "Mark a Expression b Signed Expression Body; 2:4"),
    ("a\n.b", "Mark a Member Steps Expression Body; 2:3"),
    ("a\n!b", "Mark a Expression b Signed Expression Body; 2:3"),
    (
        "a++\n(b)",
        "Mark a Postfix Expression b Paren Expression Body; 2:4",
    ),
    (
        "-a\n(b)",
        "Mark a Mark b Call Steps Signed Expression Body; 2:4",
    ),
    (
        "var a\n+b",
        "Mark Mark Var Declare b Signed Expression Body; 2:3",
    ),
    ("var a=b\n+c", "Mark Mark Var b c Chain Declare Body; 2:3"),
    (
        "if(a)b\nelse c",
        "Mark a b Expression c Expression Either Body; 2:7",
    ),
    (
        "while(a)\nbreak\nb",
        "Mark a Stop While b Expression Body; 3:2",
    ),
    ("a=\nb", "Mark a Target b Assign Expression Body; 2:2"),
    ("var a\n=b", "Mark Mark Var b Declare Body; 2:3"),
];

/// A parser's answer: its tree and the token where reading ended, or why there is none.
type Answer = Result<(Tree, usize), ParseFault>;

/// The tokens of a text.
fn tokens(alloc: Global, source: &str) -> Result<Vec<Token>, Fail> {
    if source.len() > 4_194_304 {
        return Ok(Vec::new(alloc));
    }
    Ok(lex(alloc, source.as_bytes())?)
}

/// The name of a kind of node, with a comma where one stands behind the last part; a name as it is written.
fn name_of(alloc: Global, node: &Node) -> Result<String, Fail> {
    let name = match node {
        Node::Name(text, _) => return Ok(String::from_utf16(alloc, text.units())??),
        Node::List(_, true) => "List,",
        Node::Fields(_, true) => "Fields,",
        Node::Mark => "Mark",
        Node::Number(_, _) => "Number",
        Node::Text(_, _) => "Text",
        Node::Literal(_, _) => "Literal",
        Node::Paren(_) => "Paren",
        Node::List(_, false) => "List",
        Node::Fields(_, false) => "Fields",
        Node::Key(_, _, _) => "Key",
        Node::Member(_, _) => "Member",
        Node::Element(_) => "Element",
        Node::Call(_) => "Call",
        Node::Binding(_) => "Binding",
        Node::Steps => "Steps",
        Node::Postfix(_, _) => "Postfix",
        Node::Sign(_, _, _) => "Sign",
        Node::Signed(_, _, _) => "Signed",
        Node::Link(_, _, _) => "Link",
        Node::Chain(_, _, _) => "Chain",
        Node::Choice(_) => "Choice",
        Node::Choose => "Choose",
        Node::Target(_, _, _) => "Target",
        Node::Assign => "Assign",
        Node::Empty(_) => "Empty",
        Node::Expression(_) => "Expression",
        Node::Block(_) => "Block",
        Node::Var(_, _) => "Var",
        Node::Declare(_, _, _) => "Declare",
        Node::When(_) => "When",
        Node::Either(_) => "Either",
        Node::While(_) => "While",
        Node::For(_) => "For",
        Node::NoFirst => "NoFirst",
        Node::FirstExpression => "FirstExpression",
        Node::FirstDeclare(_, _) => "FirstDeclare",
        Node::Absent => "Absent",
        Node::Present => "Present",
        Node::Give(_, _) => "Give",
        Node::GiveValue(_, _) => "GiveValue",
        Node::Stop(_, _) => "Stop",
        Node::Again(_, _) => "Again",
        Node::Body => "Body",
        _ => "of a document",
    };
    Ok(String::from_str(alloc, name)?)
}

/// A tree's nodes by name, and the place of the token where reading ended; or what refuses.
fn shown(alloc: Global, tokens: &[Token], answer: &Answer) -> Result<String, Fail> {
    match answer {
        Ok((tree, end)) => {
            let mut line = String::new(alloc);
            let mut parts = Vec::new(alloc);
            for at in 0..tree.len() {
                parts.clear();
                let Some(node) = tree.open(at, &mut parts)? else {
                    return Err(Fail::from("no such node"));
                };
                if at > 0 {
                    line.push(' ')?;
                }
                line.push_str(name_of(alloc, node)?.as_str())?;
            }
            let Some(token) = tokens.get(*end) else {
                return Err(Fail::from("no such token"));
            };
            let place = token.place;
            Ok(format!(in alloc; "{line}; {}:{}", place.line, place.column)?)
        }
        Err(ParseFault::Syntax { place }) => {
            Ok(format!(in alloc; "Syntax {}:{}", place.line, place.column)?)
        }
        Err(ParseFault::TooDeep { place }) => {
            Ok(format!(in alloc; "TooDeep {}:{}", place.line, place.column)?)
        }
        Err(ParseFault::NoMemory) => Ok(String::from_str(alloc, "no memory")?),
    }
}

#[test]
fn reads_each_expression(rt: HostRuntime) -> Result<(), Fail> {
    for (source, wanted) in &EXPRESSIONS {
        let found = tokens(rt.alloc(), source)?;
        let answer = parse_expr(rt.alloc(), &found, 0);
        let line = shown(rt.alloc(), &found, &answer)?;
        assert_eq!(rt; line.as_str(), *wanted);
    }
    Ok(())
}

#[test]
fn reads_each_statement(rt: HostRuntime) -> Result<(), Fail> {
    for (source, wanted) in &STATEMENTS {
        let found = tokens(rt.alloc(), source)?;
        let answer = parse_statement(rt.alloc(), &found, 0);
        let line = shown(rt.alloc(), &found, &answer)?;
        assert_eq!(rt; line.as_str(), *wanted);
    }
    Ok(())
}

#[test]
fn reads_each_body(rt: HostRuntime) -> Result<(), Fail> {
    for (source, wanted) in &BODIES {
        let found = tokens(rt.alloc(), source)?;
        let answer = parse_body(rt.alloc(), &found, 0);
        let line = shown(rt.alloc(), &found, &answer)?;
        assert_eq!(rt; line.as_str(), *wanted);
        if let Ok((tree, end)) = &answer {
            assert_eq!(rt; flat(tree, rt.alloc())?.len(), *end);
        }
    }
    Ok(())
}

/// The bytes of a large body.
const LARGE: usize = 65_536;

/// As much of a piece as a large body has.
fn repeated(alloc: Global, piece: &str) -> Result<String, Fail> {
    let mut source = String::with_capacity(alloc, LARGE)?;
    for _ in 0..LARGE.checked_div(piece.len()).unwrap_or(0) {
        source.push_str(piece)?;
    }
    Ok(source)
}

/// Pieces, and what refuses a large body of each.
const MANY: [(&str, &str); 9] = [
    ("(", "Syntax 1:65537"),
    ("- ", "Syntax 1:65537"),
    ("a?", "Syntax 1:65537"),
    ("{", "Syntax 1:65537"),
    ("if(a)", "Syntax 1:65536"),
    ("a=", "Syntax 1:65537"),
    ("--", "Syntax 1:3"),
    ("{}", ""),
    ("a+\n", "Syntax 21846:1"),
];

#[test]
fn reads_large_bodies(rt: HostRuntime) -> Result<(), Fail> {
    for (piece, wanted) in &MANY {
        let source = repeated(rt.alloc(), piece)?;
        let found = tokens(rt.alloc(), source.as_str())?;
        let line = match parse_body(rt.alloc(), &found, 0) {
            Err(fault) => shown(rt.alloc(), &found, &Err(fault))?,
            Ok(_) => String::new(rt.alloc()),
        };
        assert_eq!(rt; line.as_str(), *wanted);
    }
    Ok(())
}

#[test]
fn tells_the_first_node_that_is_too_deep(rt: HostRuntime) -> Result<(), Fail> {
    let alloc = rt.alloc();
    for (count, wanted) in [(99, ""), (100, "TooDeep 1:101"), (200_000, "TooDeep 1:101")] {
        let mut source = String::with_capacity(alloc, 2 * count + 1)?;
        for _ in 0..count {
            source.push('(')?;
        }
        source.push('a')?;
        for _ in 0..count {
            source.push(')')?;
        }
        let found = tokens(alloc, source.as_str())?;
        let line = match parse_expr(alloc, &found, 0) {
            Err(fault) => shown(alloc, &found, &Err(fault))?,
            Ok(_) => String::new(alloc),
        };
        assert_eq!(rt; line.as_str(), wanted);
    }
    Ok(())
}
