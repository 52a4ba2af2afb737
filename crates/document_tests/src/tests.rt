//! Each production of documents and script files, what it reads and where it refuses.

use qml_lexer::lex;
use qml_parser::{ParseFault, parse_document, parse_functions};
use qml_syntax::{Token, Tree, flat};
use std::alloc::Global;
use std::test::Fail;

/// Documents with an object of ids, properties and bindings: that they are read, or what refuses them.
const OBJECTS: [(&str, &str); 44] = [
    ("QtObject {}", "read"),
    ("import QtQml 2.15\nQtObject {}", "read"),
    ("import QtQml 2.15\nQtObject { }\n;", "Syntax 3:1"),
    ("import QtQml 2.15\nQtObject { id: a }", "read"),
    ("import QtQml 2.15\nQtObject { id: A }", "Syntax 2:16"),
    ("import QtQml 2.15\nQtObject { id: _a; }", "read"),
    ("import QtQml 2.15\nQtObject { id: a;; }", "read"),
    ("import QtQml 2.15\nQtObject { id: a;;; }", "Syntax 2:19"),
    (
        "import QtQml 2.15\nQtObject { id: a property int b }",
        "Syntax 2:18",
    ),
    (
        "import QtQml 2.15\nQtObject { id: a\nproperty int b }",
        "read",
    ),
    (
        "import QtQml 2.15\nQtObject { id: a\n; property int b }",
        "read",
    ),
    ("import QtQml 2.15\nQtObject { id.x: 1 }", "read"),
    ("import QtQml 2.15\nQtObject { id { } }", "read"),
    ("import QtQml 2.15\nQtObject { property int a: 1 }", "read"),
    (
        "import QtQml 2.15\nQtObject { property int a: 1 property int b }",
        "Syntax 2:30",
    ),
    (
        "import QtQml 2.15\nQtObject { property int a\n: 1 }",
        "read",
    ),
    (
        "import QtQml 2.15\nQtObject { property int a; : 1 }",
        "Syntax 2:28",
    ),
    ("import QtQml 2.15\nQtObject { property: 1 }", "read"),
    ("import QtQml 2.15\nQtObject { property.x: 1 }", "read"),
    ("import QtQml 2.15\nQtObject { property { x: 1 } }", "read"),
    (
        "import QtQml 2.15\nQtObject { property property x }",
        "read",
    ),
    ("import QtQml 2.15\nQtObject { property list x }", "read"),
    (
        "import QtQml 2.15\nQtObject { property list<Item> x }",
        "read",
    ),
    (
        "import QtQml 2.15\nQtObject { property list<Item> x: [ Item {}, Item {} ] }",
        "read",
    ),
    (
        "import QtQml 2.15\nQtObject { property list<Item>x: 1 }",
        "read",
    ),
    (
        "import QtQml 2.15\nQtObject { property list.Item x }",
        "read",
    ),
    (
        "import QtQml 2.15\nQtObject { property var x: [1, 2] }",
        "read",
    ),
    (
        "import QtQml 2.15\nQtObject { property var x: [Item {}] }",
        "read",
    ),
    (
        "import QtQml 2.15\nQtObject { property var x: [Item {},] }",
        "Syntax 2:37",
    ),
    (
        "import QtQml 2.15\nQtObject { property var x: [1, Item {}] }",
        "Syntax 2:37",
    ),
    (
        "import QtQml 2.15\nQtObject { property var x: [Item {}, 1] }",
        "Syntax 2:38",
    ),
    (
        "import QtQml 2.15\nQtObject { property var x: [[Item {}]] }",
        "Syntax 2:35",
    ),
    (
        "import QtQml 2.15\nQtObject { property var x: Item\n{ } }",
        "read",
    ),
    (
        "import QtQml 2.15\nQtObject { property var x: Item }",
        "read",
    ),
    (
        "import QtQml 2.15\nQtObject { property var x: Item\nproperty int y }",
        "read",
    ),
    (
        "import QtQml 2.15\nQtObject { property var x: a.Item { } }",
        "read",
    ),
    (
        "import QtQml 2.15\nQtObject { property var x: Q.Item { id: b } ; }",
        "read",
    ),
    (
        "import QtQml 2.15\nQtObject { property var x: a.b.Item { } }",
        "Syntax 2:37",
    ),
    (
        "import QtQml 2.15\nQtObject { property var x: item { } }",
        "Syntax 2:33",
    ),
    (
        "import QtQml 2.15\nQtObject { property var x: { return 1 } }",
        "read",
    ),
    (
        "import QtQml 2.15\nQtObject { property var x: {} {} }",
        "Syntax 2:31",
    ),
    (
        "import QtQml 2.15\nQtObject { property alias a: b }",
        "read",
    ),
    (
        "import QtQml 2.15\nQtObject { property alias a: b.c.d }",
        "read",
    ),
    (
        "import QtQml 2.15\nQtObject { property alias a: b.c.d.e }",
        "Syntax 2:35",
    ),
];

/// Documents with other members, likewise.
const MEMBERS: [(&str, &str); 44] = [
    (
        "import QtQml 2.15\nQtObject { property alias a: b\n.c }",
        "read",
    ),
    (
        "import QtQml 2.15\nQtObject { property alias a: b.c.d\n.e }",
        "Syntax 3:1",
    ),
    (
        "import QtQml 2.15\nQtObject { property alias a }",
        "Syntax 2:29",
    ),
    ("import QtQml 2.15\nQtObject { property alias.B a }", "read"),
    (
        "import QtQml 2.15\nQtObject { readonly property alias a: 1 }",
        "read",
    ),
    (
        "import QtQml 2.15\nQtObject { readonly property int a }",
        "Syntax 2:36",
    ),
    (
        "import QtQml 2.15\nQtObject { readonly property int a: 1 }",
        "read",
    ),
    ("import QtQml 2.15\nQtObject { readonly: 1 }", "read"),
    (
        "import QtQml 2.15\nQtObject { readonly int a: 1 }",
        "Syntax 2:21",
    ),
    (
        "import QtQml 2.15\nQtObject { default property alias a: b.c }",
        "read",
    ),
    (
        "import QtQml 2.15\nQtObject { default property int a }",
        "read",
    ),
    ("import QtQml 2.15\nQtObject { default: 1 }", "Syntax 2:19"),
    (
        "import QtQml 2.15\nQtObject { default readonly property int a: 1 }",
        "Syntax 2:20",
    ),
    ("import QtQml 2.15\nQtObject { signal a }", "read"),
    ("import QtQml 2.15\nQtObject { signal a() }", "read"),
    ("import QtQml 2.15\nQtObject { signal a\n() }", "read"),
    (
        "import QtQml 2.15\nQtObject { signal a(int b, var c, list<X> d) ; }",
        "read",
    ),
    ("import QtQml 2.15\nQtObject { signal a(b) }", "Syntax 2:22"),
    (
        "import QtQml 2.15\nQtObject { signal a(int b,) }",
        "Syntax 2:27",
    ),
    ("import QtQml 2.15\nQtObject { signal: 1 }", "read"),
    (
        "import QtQml 2.15\nQtObject { signal a() signal b }",
        "Syntax 2:23",
    ),
    ("import QtQml 2.15\nQtObject { signal a(a.b c) }", "read"),
    ("import QtQml 2.15\nQtObject { function f() {} }", "read"),
    (
        "import QtQml 2.15\nQtObject { function f(a, b: int): var { return a } ; x: 1 }",
        "read",
    ),
    (
        "import QtQml 2.15\nQtObject { function f(a,) {} }",
        "Syntax 2:25",
    ),
    (
        "import QtQml 2.15\nQtObject { function f() { break } }",
        "Syntax 2:27",
    ),
    (
        "import QtQml 2.15\nQtObject { function f() { while (a) break } }",
        "read",
    ),
    (
        "import QtQml 2.15\nQtObject { function f() {} function g(): a.b {} }",
        "read",
    ),
    (
        "import QtQml 2.15\nQtObject { function f() { return\n1 } }",
        "read",
    ),
    (
        "import QtQml 2.15\nQtObject { function f() { if (a) b\nelse c } }",
        "read",
    ),
    (
        "import QtQml 2.15\nQtObject { a.b: 1; a.b.c { d: 2; e { f: 3 } } a.B { } a.b.C { } A { } }",
        "read",
    ),
    ("import QtQml 2.15\nQtObject { a.B: 1 }", "read"),
    ("import QtQml 2.15\nQtObject { A: 1 }", "read"),
    ("import QtQml 2.15\nQtObject { a b }", "Syntax 2:14"),
    ("import QtQml 2.15\nQtObject { a }", "Syntax 2:14"),
    ("import QtQml 2.15\nQtObject { a: }", "Syntax 2:15"),
    ("import QtQml 2.15\nQtObject { a: ; }", "read"),
    ("import QtQml 2.15\nQtObject { a: ;; }", "read"),
    ("import QtQml 2.15\nQtObject { a: ;;; }", "Syntax 2:17"),
    ("import QtQml 2.15\nQtObject { a: 1 b: 2 }", "Syntax 2:17"),
    ("import QtQml 2.15\nQtObject { a: 1\nb: 2 }", "read"),
    (
        "import QtQml 2.15\nQtObject { a: if (b) c; else d }",
        "read",
    ),
    (
        "import QtQml 2.15\nQtObject { a: if (b) c else d }",
        "Syntax 2:24",
    ),
    (
        "import QtQml 2.15\nQtObject { a: if (b) c\nelse d }",
        "read",
    ),
];

/// Documents with imports, and objects alone, likewise.
const IMPORTS: [(&str, &str); 44] = [
    ("import QtQml 2.15\nQtObject { a: return }", "read"),
    ("import QtQml 2.15\nQtObject { a: return\n1 }", "Syntax 3:1"),
    ("import QtQml 2.15\nQtObject { a: return\n; b: 1 }", "read"),
    ("import QtQml 2.15\nQtObject { a: 1 + }", "Syntax 2:19"),
    (
        "import QtQml 2.15\nQtObject { a: f(function() {}) }",
        "Syntax 2:17",
    ),
    (
        "import QtQml 2.15\nQtObject { a: b = Qt.binding(function() { return 1 }) }",
        "read",
    ),
    ("import QtQml 2.15\nQtObject { a: b\n(c) }", "read"),
    ("import QtQml 2.15\nQtObject { a: b\n[c] }", "read"),
    ("import QtQml 2.15\nQtObject { a: b\n{c: 1} }", "Syntax 3:1"),
    ("import QtQml 2.15\nQtObject { a: b++ \n c: 1 }", "read"),
    (
        "import QtQml 2.15\nQtObject { a: 1; else: 2 }",
        "Syntax 2:18",
    ),
    (
        "import QtQml 2.15\nQtObject { a: b ? C : D { } }",
        "Syntax 2:25",
    ),
    ("import QtQml 2.15\nQtObject { a: C\n.d }", "read"),
    ("import QtQml 2.15\nQtObject { a: var b }", "read"),
    ("import QtQml 2.15\nQtObject { a: var b\nc: 1 }", "read"),
    ("import QtQml 2.15\nQtObject { a: while (b) c }", "read"),
    ("import QtQml 2.15\nQtObject { a: break }", "Syntax 2:15"),
    (
        "import A\nimport B.C 1\nimport D as E;import \"x\" as F\nimport \"y\"\nA.B { }",
        "read",
    ),
    ("import A import B\nC {}", "Syntax 1:10"),
    ("import A 2.15as Q\nC {}", "read"),
    ("import A\n2.15\nC {}", "read"),
    ("import A\nas B\nC {}", "read"),
    ("import A\nas.B { }", "Syntax 2:3"),
    ("import \"a.js\"\nC {}", "Syntax 2:1"),
    ("import \"a.js\" as X\nC {}", "read"),
    ("import \"a.js\"\nas X\nC {}", "read"),
    ("import as as as\nC {}", "read"),
    ("import A 2 3\nC {}", "Syntax 1:12"),
    ("import A.\nB {}", "Syntax 2:3"),
    ("import 1\nC {}", "Syntax 1:8"),
    ("import A }", "Syntax 1:10"),
    ("import A;\n;C {}", "Syntax 2:1"),
    ("import A 2.15; import B; C {}", "read"),
    ("a { }", "Syntax 1:3"),
    ("a.B { }", "read"),
    ("a.b { }", "Syntax 1:3"),
    ("A.b { }", "Syntax 1:3"),
    ("A.B.C { }", "Syntax 1:4"),
    ("A", "Syntax 1:2"),
    ("A {", "Syntax 1:4"),
    ("A { } B { }", "Syntax 1:7"),
    ("A { }}", "Syntax 1:6"),
    ("A { a: [ }", "Syntax 1:10"),
    ("A { { } }", "Syntax 1:5"),
];

/// Documents that end early or go on too long, likewise.
const CUT: [(&str, &str); 40] = [
    ("A { 1 }", "Syntax 1:5"),
    ("A { \"x\": 1 }", "Syntax 1:5"),
    ("A { ; }", "Syntax 1:5"),
    ("A { a: 1 }\n\n", "read"),
    ("", "Syntax 1:1"),
    ("import", "Syntax 1:7"),
    ("import A", "Syntax 1:9"),
    ("A { B { C { id: x\n d: 1 } ; } ; E { } }", "read"),
    (
        "A { a: B { c: D { } } e: [F { }, g.G { h: 1 }] i: 2 }",
        "read",
    ),
    ("A { property }", "Syntax 1:14"),
    ("A { property int }", "Syntax 1:18"),
    ("A { property var }", "Syntax 1:18"),
    ("A { property alias: 1 }", "Syntax 1:19"),
    ("A { property list<x }", "Syntax 1:21"),
    ("A { property list< }", "Syntax 1:20"),
    ("A { property var: 1 }", "Syntax 1:17"),
    ("A { property int a b }", "Syntax 1:20"),
    ("A { a.: 1 }", "Syntax 1:7"),
    ("A { .a: 1 }", "Syntax 1:5"),
    ("A { function }", "Syntax 1:14"),
    ("A { function f }", "Syntax 1:16"),
    ("A { function f( }", "Syntax 1:17"),
    ("A { function f(a }", "Syntax 1:18"),
    ("A { function f(a: }", "Syntax 1:19"),
    ("A { function f(): }", "Syntax 1:19"),
    ("A { function f() }", "Syntax 1:18"),
    ("A { function f() { }", "Syntax 1:21"),
    ("A { function 1() { } }", "Syntax 1:14"),
    ("A { signal }", "Syntax 1:12"),
    ("A { signal a( }", "Syntax 1:15"),
    ("A { default }", "Syntax 1:13"),
    ("A { readonly }", "Syntax 1:14"),
    ("A { a: [B { } }", "Syntax 1:15"),
    ("A { a: [B { }, }", "Syntax 1:16"),
    ("A { a: [B { }] [0] }", "Syntax 1:16"),
    ("A { a: (B { }) }", "Syntax 1:11"),
    (
        "A { on.a: 1; list: 2; as: 3; alias: 4; signal.x: 5 }",
        "read",
    ),
    ("A { alias x: 1 }", "Syntax 1:11"),
    ("A { list<B> x }", "Syntax 1:9"),
    (
        "A { property as x; property int id; property int list: 1; property int property }",
        "read",
    ),
];

/// Script files, likewise.
const SCRIPTS: [(&str, &str); 12] = [
    ("", "read"),
    (".pragma library", "read"),
    (".pragma library\nfunction f() {}", "read"),
    (".pragma library function f() {}", "Syntax 1:17"),
    (
        "function f(a, b: int): real { return a } function g() {}",
        "read",
    ),
    ("function f() {};", "Syntax 1:16"),
    ("function f(a,) {}", "Syntax 1:14"),
    ("function f(a: list<int>) {}", "read"),
    ("function () {}", "Syntax 1:10"),
    ("function f() { a }  }", "Syntax 1:21"),
    ("var a", "Syntax 1:1"),
    (".pragma", "Syntax 1:8"),
];

/// The tokens of a text.
fn tokens(alloc: Global, source: &str) -> Result<Vec<Token>, Fail> {
    if source.len() > 4_194_304 {
        return Ok(Vec::new(alloc));
    }
    Ok(lex(alloc, source.as_bytes())?)
}

/// An answer in words; a tree that is read is written out as its tokens.
fn told(alloc: Global, tokens: &[Token], answer: Result<Tree, ParseFault>) -> Result<String, Fail> {
    match answer {
        Ok(tree) => {
            if flat(&tree, alloc)?.len() + 1 == tokens.len() {
                Ok(String::from_str(alloc, "read")?)
            } else {
                Ok(String::from_str(alloc, "other tokens")?)
            }
        }
        Err(ParseFault::Syntax { place }) => {
            Ok(format!(in alloc; "Syntax {}:{}", place.line, place.column)?)
        }
        Err(ParseFault::TooDeep { place }) => {
            Ok(format!(in alloc; "TooDeep {}:{}", place.line, place.column)?)
        }
        Err(ParseFault::NoMemory) => Ok(String::from_str(alloc, "NoMemory")?),
    }
}

#[test]
fn objects(rt: HostRuntime) -> Result<(), Fail> {
    let alloc = rt.alloc();
    for (source, expected) in &OBJECTS {
        let tokens = tokens(alloc, source)?;
        let found = told(alloc, &tokens, parse_document(alloc, &tokens))?;
        assert_eq!(rt; found.as_str(), *expected);
    }
    Ok(())
}

#[test]
fn members(rt: HostRuntime) -> Result<(), Fail> {
    let alloc = rt.alloc();
    for (source, expected) in &MEMBERS {
        let tokens = tokens(alloc, source)?;
        let found = told(alloc, &tokens, parse_document(alloc, &tokens))?;
        assert_eq!(rt; found.as_str(), *expected);
    }
    Ok(())
}

#[test]
fn imports(rt: HostRuntime) -> Result<(), Fail> {
    let alloc = rt.alloc();
    for (source, expected) in &IMPORTS {
        let tokens = tokens(alloc, source)?;
        let found = told(alloc, &tokens, parse_document(alloc, &tokens))?;
        assert_eq!(rt; found.as_str(), *expected);
    }
    Ok(())
}

#[test]
fn cut_documents(rt: HostRuntime) -> Result<(), Fail> {
    let alloc = rt.alloc();
    for (source, expected) in &CUT {
        let tokens = tokens(alloc, source)?;
        let found = told(alloc, &tokens, parse_document(alloc, &tokens))?;
        assert_eq!(rt; found.as_str(), *expected);
    }
    Ok(())
}

#[test]
fn scripts(rt: HostRuntime) -> Result<(), Fail> {
    let alloc = rt.alloc();
    for (source, expected) in &SCRIPTS {
        let tokens = tokens(alloc, source)?;
        let found = told(alloc, &tokens, parse_functions(alloc, &tokens))?;
        assert_eq!(rt; found.as_str(), *expected);
    }
    Ok(())
}
