//! Each expression with what it comes to and the names of the cells that it reads, in order.
ghost use Rattle.std.specs.Prelude.{◌≡◌, ◌<◌};

use crate::plain::{Function, OneText, Plain};
use evaluation::{Evaluated, Rules};
use js_parser::{parse_body, parse_expr};
use js_subset::{Code, UnitRules, eval};
use qml_base::{CellNo, ExprNo, Home, ObjNo, Steps, UnitNo};
use qml_lexer::lex;
use qml_syntax::{Node, Token, Tree};
use qml_text::Text;
use qml_value::{List, Num, Value};
use std::alloc::Global;
use std::marker::Brand;
use std::process::Abort;
use std::sync::ledger::{Blank, Ledger};
use std::test::Fail;

/// Where all texts of the tests stand.
const TEXT: ExprNo = ExprNo {
    unit: UnitNo(0),
    at: 0,
};

/// Where their names are looked for.
const HOME: Home = Home {
    unit: UnitNo(0),
    scope: ObjNo(1),
    author: ObjNo(1),
};

/// Expressions; what they come to, with the cells that they read.
const EXPRESSIONS: [(&str, &str); 184] = [
    // whole numbers
    ("-7 % 3", "-1"),
    ("7 % -3", "1"),
    ("7 / -7", "-1"),
    ("6 / 4", "Threw Inexact"),
    ("1 / 0", "Threw Zero"),
    ("1 % 0", "Threw Zero"),
    ("9007199254740992 + 1", "Past"),
    ("3 * 4 - 2", "10"),
    ("-a", "-4 reads a"),
    ("+'1'", "Threw Kind"),
    ("~5", "-6"),
    ("9007199254740991 + 1", "9007199254740992"),
    ("-9007199254740992 - 1", "Past"),
    ("null * 1", "Threw Kind"),
    ("'1' - 1", "Threw Kind"),
    // rounding
    ("Math.floor(-7 / 2)", "-4"),
    ("Math.ceil(-7 / 2)", "-3"),
    ("Math.trunc(-7 / 2)", "-3"),
    ("Math.floor(7 / 0)", "Threw Zero"),
    ("Math.floor((7 / 2))", "Threw Inexact"),
    ("Math.floor(8 / 3 / 2)", "Threw Inexact"),
    ("Math.abs(-3)", "3"),
    ("Math.min(3, a, 5)", "3 reads a"),
    ("Math.max(3, a)", "4 reads a"),
    ("Math.max()", "Threw Kind"),
    ("Math.min()", "Threw Kind"),
    ("Math.floor(3)", "3"),
    ("Math.sin(1)", "Threw Call"),
    // bits
    ("1 << 33", "2"),
    ("-1 >>> 0", "4294967295"),
    ("-8 >> 1", "-4"),
    ("2147483648 | 0", "-2147483648"),
    ("12 & 10", "8"),
    ("12 ^ 10", "6"),
    ("1 << -1", "-2147483648"),
    ("1 >>> 32", "1"),
    ("true | 0", "Threw Kind"),
    // texts
    ("1 + 2 + 'a'", "'3a'"),
    ("'a' + 1 + 2", "'a12'"),
    ("'a' + [1, 2]", "'a1,2'"),
    ("'a' + null", "'anull'"),
    ("'' + undefined", "'undefined'"),
    ("'' + true", "'true'"),
    ("'' + -12", "'-12'"),
    (
        "'' + [1, null, undefined, [2, {}]]",
        "'1,,,2,[object Object]'",
    ),
    ("'' + item", "'#2'"),
    ("'' + part", "'component #3'"),
    ("String(a)", "'4' reads a"),
    ("String()", "''"),
    ("1 + null", "Threw Kind"),
    // what counts as true
    ("undefined ? 1 : 2", "2"),
    ("null ? 1 : 2", "2"),
    ("false ? 1 : 2", "2"),
    ("0 ? 1 : 2", "2"),
    ("'' ? 1 : 2", "2"),
    ("[] ? 1 : 2", "1"),
    ("item ? 1 : 2", "1"),
    // equality and order
    ("null == 0", "false"),
    ("true == 1", "Threw Kind"),
    ("[1] == [1]", "true"),
    ("null < 1", "Threw Kind"),
    ("null == undefined", "true"),
    ("'1' == 1", "Threw Kind"),
    ("1 != 2", "true"),
    ("[1, [2]] === [1, [2]]", "true"),
    ("1 !== '1'", "true"),
    ("'a' < 'b'", "true"),
    ("2 <= 2", "true"),
    ("2 > 2", "false"),
    ("'b' >= 'c'", "false"),
    ("1 < 'a'", "Threw Kind"),
    // what is read
    ("f ? a : later", "4 reads f a"),
    ("!f ? later : a", "4 reads f a"),
    ("f || later", "true reads f"),
    ("f && a", "4 reads f a"),
    ("null ?? a", "4 reads a"),
    ("a ?? later", "4 reads a"),
    ("a + a", "8 reads a a"),
    ("a + later + past", "Need later reads a later"),
    ("a + loops + later", "Loop reads a loops"),
    ("[past, later]", "Past reads past"),
    ("(a)", "4 reads a"),
    ("f ? null : f ? 1 : 2", "null reads f"),
    // names
    ("nix", "Threw Name"),
    ("typeof nix", "'undefined'"),
    ("typeof later", "Need later reads later"),
    ("typeof typeof a", "'string' reads a"),
    ("typeof null", "'object'"),
    ("undefined", "undefined"),
    ("Math", "Threw Kind"),
    ("sent", "Threw Kind"),
    ("item", "#2"),
    ("part", "component #3"),
    // members and elements
    ("item.a", "4 reads a"),
    ("part.nix", "undefined"),
    ("item.append", "Threw Kind"),
    ("null.a", "Threw Null"),
    ("undefined.a", "Threw Null"),
    ("'abc'.length", "3"),
    ("rows.length", "2 reads rows"),
    ("rows[1][1]", "'11' reads rows"),
    ("rows[2]", "undefined reads rows"),
    ("'abc'[1]", "'b'"),
    ("'abc'[-1]", "undefined"),
    ("item['a']", "4 reads a"),
    ("a[null]", "Threw Kind reads a"),
    ("[1, 2][-1]", "undefined"),
    ("undefined[0]", "Threw Null"),
    ("{ '3': 5 }[3]", "5"),
    ("Loader.Ready", "'Ready'"),
    ("Loader.Loading", "Threw Kind"),
    ("lib.a", "Threw Kind"),
    ("a.b.c", "Threw Null reads a"),
    // calls
    ("sent()", "Threw Call"),
    ("item.append(later)", "Need later reads later"),
    ("item.append(1)", "Threw Call"),
    ("console.log(a)", "Threw Call reads a"),
    ("a()", "Threw Call reads a"),
    ("nix()", "Threw Name"),
    ("null.a()", "Threw Null"),
    ("f.a()", "Threw Call reads f"),
    ("Qt.binding", "Threw Kind"),
    ("Qt.binding(1)", "Threw Kind"),
    // functions
    ("first(2, 3)", "7"),
    ("first(2)", "'undefined'"),
    ("first(2, 3, later)", "Need later reads later"),
    ("second(3)", "7 reads a"),
    ("second(98)", "102 reads a"),
    ("second(99)", "103 reads a"),
    ("second(100)", "Threw Depth"),
    ("second", "Threw Kind"),
    ("typeof second(0)", "'number' reads a"),
    // methods of texts
    ("'abc'.charAt(1)", "'b'"),
    ("'abc'.charAt(-1)", "''"),
    ("'abc'.charCodeAt(3)", "Threw Range"),
    ("'abc'.charCodeAt()", "97"),
    ("'abc'.charAt(null)", "Threw Kind"),
    ("'abcb'.indexOf('b', 2)", "3"),
    ("'abc'.indexOf('d')", "-1"),
    ("'abc'.indexOf('', 9)", "3"),
    ("'abc'.includes('bc')", "true"),
    ("'abc'.includes(1)", "Threw Kind"),
    ("'abc'.startsWith('b', 1)", "true"),
    ("'abc'.endsWith('b', 2)", "true"),
    ("'abc'.endsWith('xabc')", "false"),
    ("'abc'.slice(-2)", "'bc'"),
    ("'abc'.slice(2, 1)", "''"),
    ("'abc'.substring(2, 1)", "'b'"),
    ("'abc'.substring(-1)", "'abc'"),
    ("'abc'.toString()", "'abc'"),
    ("'abc'.trim()", "Threw Call"),
    // methods of numbers and lists
    ("a.toString()", "'4' reads a"),
    ("a.toFixed(1)", "Threw Call reads a"),
    ("f.toString()", "Threw Call reads f"),
    ("[1, 2, 1].indexOf(1, -2)", "2"),
    ("[1, [2]].includes([2])", "true"),
    ("[1, 2].indexOf('1')", "-1"),
    ("[1, 2, 3].slice(1, -1)", "[2]"),
    ("[1, 2].slice(1, 0)", "[]"),
    ("[1].concat(2, [3, [4]], null).length", "5"),
    ("[1].concat(2, [3, 4])", "[1,2,3,4]"),
    ("[1, 2].includes(2, -1)", "true"),
    ("[1, 2].join()", "'1,2'"),
    ("''.split(',').length", "1"),
    ("'aXbX'.split('X')", "[a,b,]"),
    ("'abc'.split('')", "[a,b,c]"),
    ("[1].map(2)", "Threw Call"),
    // what hidden cells hold
    ("item.itemAt(1)", "[1,11] reads rows"),
    ("item.itemAt(2)", "null reads rows"),
    ("item.itemAt(-1)", "null reads rows"),
    ("item.get(1)", "'11' reads rows"),
    ("item.get(2)", "undefined reads rows"),
    ("item.get('a')", "Threw Kind"),
    ("'a,b,c'.split(',', 2)", "[a,b]"),
    ("[1, null, [2, 3]].join('-')", "'1--2,3'"),
    // fields
    ("{}", "[object Object]"),
    ("{ k: 1, 'm': 2 }.m", "2"),
    ("{ k: 1 }.m", "undefined"),
    ("{ k: a, m: later }", "Need later reads a later"),
    ("{ k: 1, m: 2, k: 3 } === { k: 3, m: 2 }", "true"),
    ("{ k: 1, m: 2 } === { m: 2, k: 1 }", "false"),
    ("{ k: first('nest', 99) }", "[object Object]"),
    ("{ k: [first('nest', 99)] }", "Threw Size"),
    ("{ k: [first('nest', 99)], m: a, k: 1 }.k", "1 reads a"),
];

/// The tokens of a source.
fn tokens(alloc: Global, source: &str) -> Result<Vec<Token>, Fail> {
    if source.len() > 4_194_304 {
        return Ok(Vec::new(alloc));
    }
    Ok(lex(alloc, source.as_bytes())?)
}

/// Where a name stands in a tree, at first.
fn place_of(alloc: Global, tree: &Tree, name: &str) -> Result<usize, Fail> {
    let wanted = Text::from_str(alloc, name)?;
    for at in 0..tree.len() {
        if let Some(Node::Name(found, _)) = tree.node(at) {
            if found.same(&wanted) {
                return Ok(at);
            }
        }
    }
    Err(Fail::from("no such name"))
}

/// A function of these statements with these parameters.
fn function(alloc: Global, parameters: &[&str], source: &str) -> Result<Function, Fail> {
    let found = tokens(alloc, source)?;
    let (tree, _end) = parse_body(alloc, &found, 0)?;
    let mut places = Vec::new(alloc);
    for name in parameters {
        places.push(place_of(alloc, &tree, name)?)?;
    }
    let Some(mark) = tree.first(tree.root()) else {
        return Err(Fail::from("no body"));
    };
    Ok(Function {
        tree,
        parameters: places,
        mark,
    })
}

/// The text of an expression, with the functions of the tests.
fn text(alloc: Global, source: &str) -> Result<OneText, Fail> {
    let found = tokens(alloc, source)?;
    let (tree, end) = parse_expr(alloc, &found, 0)?;
    if end.saturating_add(1) != found.len() {
        return Err(Fail::from("not all is read"));
    }
    with_functions(alloc, tree)
}

/// The text of a body, with the functions of the tests.
fn body(alloc: Global, source: &str) -> Result<OneText, Fail> {
    let found = tokens(alloc, source)?;
    let (tree, _end) = parse_body(alloc, &found, 0)?;
    with_functions(alloc, tree)
}

/// A text with the functions of the tests: `first(x, y)` and `second(n)`.
fn with_functions(alloc: Global, tree: Tree) -> Result<OneText, Fail> {
    let first = function(
        alloc,
        &["x", "y"],
        "if (x === 'nest') { if (y < 1) return y; return [first(x, y - 1)] } if (y) { let z = x * y; return z + 1 } return typeof y",
    )?;
    let second = function(
        alloc,
        &["n"],
        "if (n < 1) return a; return second(n - 1) + 1",
    )?;
    Ok(OneText::of(tree, first, second))
}

/// Rows of a model: two, of which each has its number and its fields, here a text.
fn rows(alloc: Global) -> Result<Value, Fail> {
    let mut all = Vec::new(alloc);
    for i in 0..2 {
        let mut row = Vec::new(alloc);
        row.push(Value::Num(Num::small(i)))?;
        row.push(Value::Text(Text::of_number(alloc, i64::from(i) + 10)?))?;
        all.push(Value::List(List::from_vec(row)?))?;
    }
    Ok(Value::List(List::from_vec(all)?))
}

/// The cells of the tests: `f` is true, `a` is 4.
fn world(alloc: Global) -> Result<Plain, Fail> {
    Ok(Plain {
        f: Value::Bool(true),
        a: Value::Num(Num::small(4)),
        rows: rows(alloc)?,
    })
}

/// A value: a text stands in quotes.
fn shown_value(alloc: Global, value: &Value) -> Result<String, Fail> {
    let text = value.text_of(alloc)?;
    let line = String::from_utf16(alloc, text.units())??;
    match value {
        Value::Text(_) => Ok(format!(in alloc; "'{line}'")?),
        Value::List(_) => Ok(format!(in alloc; "[{line}]")?),
        _ => Ok(line),
    }
}

/// The name of a cell.
fn cell_name(cell: CellNo) -> &'static str {
    match cell.place {
        0 => "f",
        1 => "a",
        2 => "rows",
        3 => "loops",
        4 => "past",
        _ => "later",
    }
}

/// An answer and what was read.
fn shown(alloc: Global, answer: &Evaluated, reads: &[CellNo]) -> Result<String, Fail> {
    let mut line = match answer {
        Evaluated::Value(value) => shown_value(alloc, value)?,
        Evaluated::Threw(cause) => format!(in alloc; "Threw {cause:?}")?,
        Evaluated::Loop => String::from_str(alloc, "Loop")?,
        Evaluated::Past => String::from_str(alloc, "Past")?,
        Evaluated::Need(cell) => format!(in alloc; "Need {}", cell_name(*cell))?,
        Evaluated::NoMemory => String::from_str(alloc, "NoMemory")?,
    };
    if !reads.is_empty() {
        line.push_str(" reads")?;
    }
    for cell in reads {
        line.push(' ')?;
        line.push_str(cell_name(*cell))?;
    }
    Ok(line)
}

/// What an expression comes to.
fn evaluated<L: Ledger>(alloc: Global, source: &str, steps: &mut Steps<L>) -> Result<String, Fail> {
    let code = text(alloc, source)?;
    let view = world(alloc)?;
    let mut reads = Vec::new(alloc);
    let answer = eval(alloc, &view, &code, HOME, TEXT, &mut reads, steps);
    shown(alloc, &answer, &reads)
}

fn each_expression<L: Ledger>(rt: &impl Abort, alloc: Global, blank: Blank) -> Result<(), Fail>
    requires name { blank.name ≡ L.name }
    requires parts { blank.parts ≡ L.parts }
    requires some { 0 < L.parts }
{
    let mut steps = Steps::<L>::new(blank);
    for (source, wanted) in &EXPRESSIONS {
        let line = evaluated(alloc, source, &mut steps)?;
        assert_eq!(rt; line.as_str(), *wanted, "at {source}");
    }
    Ok(())
}

#[test]
fn evaluates_each_expression(rt: HostRuntime) -> Result<(), Fail> {
    each_expression::<Brand>(&rt, rt.alloc(), Blank::new(1))
}

/// Bodies, and what they come to.
const BODIES: [(&str, &str); 65] = [
    // what is given back
    ("return 1", "1"),
    ("return", "undefined"),
    ("", "undefined"),
    ("a", "undefined reads a"),
    ("return 1; later", "1"),
    ("a; return later", "Need later reads a later"),
    // conditions
    ("if (f) return 1; else return 2", "1 reads f"),
    ("if (!f) return 1; else return 2", "2 reads f"),
    ("if (!f) return later; return 3", "3 reads f"),
    ("if (0) return 1", "undefined"),
    // locals
    ("let x = 2; return x + x", "4"),
    ("var x; return x", "undefined"),
    ("return x; var x = 1", "undefined"),
    ("return x; let x = 1", "Threw Name"),
    ("return typeof x; let x = 1", "Threw Name"),
    ("let x; return x", "undefined"),
    ("const x = 3, y = x + 1; return y", "4"),
    ("let x = 1; { let x = 2 } return x", "1"),
    ("{ var x = 2 } return x", "2"),
    ("{ let x = 2 } return x", "Threw Name"),
    ("let a = 9; return a", "9"),
    ("var x = 1; { var x = 2 } return x", "2"),
    ("const x = 1; { var x = 2 } return x", "Threw Readonly"),
    ("if (f) var x = 5; return x", "5 reads f"),
    ("let x = 3; return first(x, x)", "10"),
    ("var x = 'ab'; return x.length", "2"),
    ("var x = 1; return x()", "Threw Call"),
    // loops
    ("while (f) return 4", "4 reads f"),
    ("while (f) { let x = 1; break } return 6", "6 reads f"),
    ("while (true) {}", "Threw Nodes"),
    (
        "for (;;) { if (f) break; else continue } return 7",
        "7 reads f",
    ),
    ("for (let x = 1; x < 1; ) return 1; return 8", "8"),
    ("for (var x = 5; ; ) return x", "5"),
    ("for (let x = 5; false; ) {} return x", "Threw Name"),
    // assignments to locals
    ("let x = 1; x = 2; return x", "2"),
    ("let x = 1; return x = 3", "3"),
    ("let x = 1, y = 2; x = y = 5; return x + y", "10"),
    ("let x = 6; x += 2; x -= 1; x *= 3; x /= 7; return x", "3"),
    (
        "let x = 7; x %= 4; x <<= 2; x |= 1; x &= 12; x ^= 5; return x",
        "9",
    ),
    ("let x = 1; return x++ + x", "3"),
    ("let x = 1; return ++x + x", "4"),
    ("let x = 5; return - --x", "-4"),
    ("const x = 1; x = later", "Need later reads later"),
    ("const x = 1; x = 2", "Threw Readonly"),
    ("const x = 1; x++", "Threw Readonly"),
    ("x = 1; let x", "Threw Name"),
    ("let x = 'a'; x++", "Threw Kind"),
    ("let x = 9007199254740992; x++", "Past"),
    (
        "let s = ''; for (var i = 0; i < 3; i++) s += i; return s",
        "'012'",
    ),
    (
        "var s = 0; for (var i = 0; i < 10; i = i + 1) { if (i === 5) continue; s = s + i } return s",
        "40",
    ),
    ("let i = 0; while (i < 5) i++; return i", "5"),
    // values that grow
    ("let s = 'ab'; while (true) s += s", "Threw Size"),
    ("let x = [1]; while (true) x = [x]", "Threw Size"),
    ("let x = 1; while (true) x = { k: x }", "Threw Size"),
    // assignments to what is outside, which are not done here
    ("a = 1", "Threw Call"),
    ("a = later", "Need later reads later"),
    ("a += 1", "Threw Call reads a"),
    ("--a", "Threw Call reads a"),
    ("nix = 1", "Threw Call"),
    ("nix += 1", "Threw Name"),
    ("item.a = 1", "Threw Call"),
    ("item.a += later", "Need later reads a later"),
    ("rows[a] = later", "Need later reads rows a later"),
    ("null.a += 1", "Threw Null"),
    ("a = Qt.binding(function() { return 1 })", "Threw Call"),
];

/// What a body comes to.
fn run_body<L: Ledger>(alloc: Global, source: &str, steps: &mut Steps<L>) -> Result<String, Fail> {
    let code = body(alloc, source)?;
    let view = world(alloc)?;
    let mut reads = Vec::new(alloc);
    let answer = eval(alloc, &view, &code, HOME, TEXT, &mut reads, steps);
    shown(alloc, &answer, &reads)
}

fn each_body<L: Ledger>(rt: &impl Abort, alloc: Global, blank: Blank) -> Result<(), Fail>
    requires name { blank.name ≡ L.name }
    requires parts { blank.parts ≡ L.parts }
    requires some { 0 < L.parts }
{
    let mut steps = Steps::<L>::new(blank);
    for (source, wanted) in &BODIES {
        let line = run_body(alloc, source, &mut steps)?;
        assert_eq!(rt; line.as_str(), *wanted, "at {source}");
    }
    Ok(())
}

#[test]
fn runs_each_body(rt: HostRuntime) -> Result<(), Fail> {
    each_body::<Brand>(&rt, rt.alloc(), Blank::new(1))
}

/// Ones with `+` between them, and what they come to: a chain of so many begins one node more.
const LONG: [(usize, &str); 2] = [(99_999, "99999"), (100_000, "Threw Nodes")];

fn long_chains<L: Ledger>(rt: &impl Abort, alloc: Global, blank: Blank) -> Result<(), Fail>
    requires name { blank.name ≡ L.name }
    requires parts { blank.parts ≡ L.parts }
    requires some { 0 < L.parts }
{
    let mut steps = Steps::<L>::new(blank);
    for (count, wanted) in &LONG {
        let mut source = String::from_str(alloc, "1")?;
        for _ in 1..*count {
            source.push_str("+1")?;
        }
        let line = evaluated(alloc, source.as_str(), &mut steps)?;
        assert_eq!(rt; line.as_str(), *wanted, "at {count}");
    }
    Ok(())
}

#[test]
fn begins_100_000_nodes_and_no_more(rt: HostRuntime) -> Result<(), Fail> {
    long_chains::<Brand>(&rt, rt.alloc(), Blank::new(1))
}

/// A text so many times over.
fn repeated(alloc: Global, text: &str, count: usize) -> Result<String, Fail> {
    let mut all = String::new(alloc);
    for _ in 0..count {
        all.push_str(text)?;
    }
    Ok(all)
}

/// Sources that are large or deep, made of a front, a part before and a part behind it so many times, and what they come to.
const LARGE: [(&str, &str, &str, usize, &str); 4] = [
    ("1", "", "+1", 399_999, "Threw Nodes"),
    ("first('nest', 99)", "[", "]", 1, "[0]"),
    ("first('nest', 99)", "[", "]", 2, "Threw Size"),
    ("second(99)", "(", ")", 97, "103 reads a"),
];

fn each_large<L: Ledger>(rt: &impl Abort, alloc: Global, blank: Blank) -> Result<(), Fail>
    requires name { blank.name ≡ L.name }
    requires parts { blank.parts ≡ L.parts }
    requires some { 0 < L.parts }
{
    let mut steps = Steps::<L>::new(blank);
    for (front, before, behind, count, wanted) in &LARGE {
        let mut source = repeated(alloc, before, *count)?;
        source.push_str(front)?;
        let end = repeated(alloc, behind, *count)?;
        source.push_str(end.as_str())?;
        let line = evaluated(alloc, source.as_str(), &mut steps)?;
        assert_eq!(rt; line.as_str(), *wanted, "at {count} of {before}{behind}");
    }
    Ok(())
}

#[test]
fn evaluates_large_and_deep_ones(rt: HostRuntime) -> Result<(), Fail> {
    each_large::<Brand>(&rt, rt.alloc(), Blank::new(1))
}

fn long_text<L: Ledger>(rt: &impl Abort, alloc: Global, blank: Blank) -> Result<(), Fail>
    requires name { blank.name ≡ L.name }
    requires parts { blank.parts ≡ L.parts }
    requires some { 0 < L.parts }
{
    let mut steps = Steps::<L>::new(blank);
    let units = repeated(alloc, "a", 1_048_575)?;
    let mut source = String::from_str(alloc, "'")?;
    source.push_str(units.as_str())?;
    source.push_str("' + '")?;
    source.push_str(units.as_str())?;
    source.push('\'')?;
    let line = evaluated(alloc, source.as_str(), &mut steps)?;
    assert_eq!(rt; line.as_str(), "Threw Size");
    let mut split = String::from_str(alloc, "'")?;
    split.push_str(units.as_str())?;
    split.push_str("'.split('')")?;
    let line = evaluated(alloc, split.as_str(), &mut steps)?;
    assert_eq!(rt; line.as_str(), "Threw Size");
    Ok(())
}

#[test]
fn makes_nothing_past_the_weight(rt: HostRuntime) -> Result<(), Fail> {
    long_text::<Brand>(&rt, rt.alloc(), Blank::new(1))
}

/// What a text comes to by rules that are asked twice, with all cells that were read.
fn told_twice<C: Code, L: Ledger>(
    alloc: Global,
    code: &C,
    view: &Plain,
    steps: &mut Steps<L>,
) -> Result<String, Fail> {
    let mut rules = UnitRules::over(code);
    let mut reads = Vec::new(alloc);
    let _first = rules.eval(alloc, view, HOME, TEXT, &mut reads, steps);
    let second = rules.eval(alloc, view, HOME, TEXT, &mut reads, steps);
    shown(alloc, &second, &reads)
}

fn by_rules<L: Ledger>(rt: &impl Abort, alloc: Global, blank: Blank) -> Result<(), Fail>
    requires name { blank.name ≡ L.name }
    requires parts { blank.parts ≡ L.parts }
    requires some { 0 < L.parts }
{
    let mut steps = Steps::<L>::new(blank);
    let code = text(alloc, "a + 1")?;
    let view = world(alloc)?;
    let line = told_twice(alloc, &code, &view, &mut steps)?;
    assert_eq!(rt; line.as_str(), "5 reads a a");
    Ok(())
}

#[test]
fn rules_evaluate_and_add_to_the_reads(rt: HostRuntime) -> Result<(), Fail> {
    by_rules::<Brand>(&rt, rt.alloc(), Blank::new(1))
}
