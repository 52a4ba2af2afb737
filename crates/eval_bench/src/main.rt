//! Evaluates expressions over a plain view, and says what each comes to. With the word `speed` each is evaluated many
//! times, and the processor's time of one is told. With two numbers the expression of the first is evaluated as often as
//! the second says, so that something outside can count. It is no part of the product.
#![tactic(auto)]

ghost use Rattle.std.specs.Prelude.{◌≡◌, ◌<◌};

use eval_tests::plain::{Function, OneText, Plain};
use evaluation::{Evaluated, Rules};
use js_parser::{parse_body, parse_expr};
use js_subset::UnitRules;
use qml_base::{ExprNo, Home, ObjNo, Steps, UnitNo};
use qml_lexer::lex;
use qml_syntax::{Node, Token, Tree};
use qml_text::Text;
use qml_value::{Num, Value};
use std::alloc::Global;
use std::marker::Brand;
use std::sync::ledger::{Blank, Ledger};
use std::time::CpuClock;
use std::{env, io};

/// Where all texts stand.
const TEXT: ExprNo = ExprNo {
    unit: UnitNo(0),
    at: 0,
};

/// Where their names are looked for.
const HOME: Home = Home {
    unit: UnitNo(0),
    scope: ObjNo(1),
    author: ObjNo(1),
};

/// What is evaluated: a source, the body of the function `second` with the parameter `n`, and how often.
#[derive(Clone, Copy)]
struct Case {
    source: &'static str,
    body: &'static str,
    often: u32,
}

/// A loop of ten turns.
const LOOP: &str = "let sum = 0; for (let i = 0; i < n; i++) { sum += i } return sum";

/// Ten comparisons of numbers.
const NUMBERS: &str =
    "1 < 2; 1 < 2; 1 < 2; 1 < 2; 1 < 2; 1 < 2; 1 < 2; 1 < 2; 1 < 2; 1 < 2; return n";

/// Ten comparisons of a local.
const LOCALS: &str =
    "n < n; n < n; n < n; n < n; n < n; n < n; n < n; n < n; n < n; n < n; return n";

/// The locals that these have by name and the numbers haven't.
const LOCALS_MORE: u64 = 20;

const CASES: [Case; 7] = [
    Case {
        source: "a + 1",
        body: "return n",
        often: 1_000_000,
    },
    Case {
        source: "f ? a : b",
        body: "return n",
        often: 1_000_000,
    },
    Case {
        source: "'ab' + a",
        body: "return n",
        often: 1_000_000,
    },
    Case {
        source: "first(2, 3)",
        body: "return n",
        often: 100_000,
    },
    Case {
        source: "second(10)",
        body: LOOP,
        often: 100_000,
    },
    Case {
        source: "second(11)",
        body: NUMBERS,
        often: 100_000,
    },
    Case {
        source: "second(12)",
        body: LOCALS,
        often: 100_000,
    },
];

/// The tokens of a source.
fn tokens(alloc: Global, source: &str) -> Option<Vec<Token>> {
    if source.len() > 4_194_304 {
        return None;
    }
    lex(alloc, source.as_bytes()).ok()
}

/// Where a name stands in a tree, at first.
fn place_of(alloc: Global, tree: &Tree, name: &str) -> Option<usize> {
    let wanted = Text::from_str(alloc, name).ok()?;
    for at in 0..tree.len() {
        if let Some(Node::Name(found, _)) = tree.node(at) {
            if found.same(&wanted) {
                return Some(at);
            }
        }
    }
    None
}

/// A function of these statements with these parameters.
fn function(alloc: Global, parameters: &[&str], source: &str) -> Option<Function> {
    let found = tokens(alloc, source)?;
    let (tree, _end) = parse_body(alloc, &found, 0).ok()?;
    let mut places = Vec::new(alloc);
    for name in parameters {
        let place = place_of(alloc, &tree, name)?;
        places.push(place).ok()?;
    }
    let mark = tree.first(tree.root())?;
    Some(Function {
        tree,
        parameters: places,
        mark,
    })
}

/// The text of an expression, with two functions, of which the second has this body.
fn text(alloc: Global, source: &str, body: &str) -> Option<OneText> {
    let found = tokens(alloc, source)?;
    let (tree, _end) = parse_expr(alloc, &found, 0).ok()?;
    let first = function(alloc, &["x", "y"], "let z = x * y; return z + 1")?;
    let second = function(alloc, &["n"], body)?;
    Some(OneText::of(tree, first, second))
}

/// The processor's time so far, in nanoseconds.
fn nanos(rt: &HostRuntime) -> io::Result<u64> {
    let time = rt.thread_cpu_time()?;
    Ok(u64::try_from(time.as_nanos()).unwrap_or(u64::MAX))
}

/// Evaluates a text so many times: how often it came to a value.
fn evaluated<L: Ledger>(
    alloc: Global,
    code: &OneText,
    view: &Plain,
    count: u32,
    steps: &mut Steps<L>,
) -> u32 {
    let mut rules = UnitRules::over(code);
    let mut reads = Vec::new(alloc);
    let mut values: u32 = 0;
    for _ in 0..count {
        reads.clear();
        if let Evaluated::Value(_) = rules.eval(alloc, view, HOME, TEXT, &mut reads, steps) {
            values = values.saturating_add(1);
        }
    }
    values
}

/// The text of a case.
fn text_of(alloc: Global, case: Case) -> Option<OneText> {
    text(alloc, case.source, case.body)
}

/// What the cells hold.
fn view() -> Plain {
    Plain {
        f: Value::Bool(true),
        a: Value::Num(Num::small(4)),
        rows: Value::Null,
    }
}

/// Evaluates an expression, tells how often it came to a value, and gives the time of one, which it tells where that is asked for.
fn tell<L: Ledger>(
    rt: &HostRuntime,
    case: Case,
    timed: bool,
    steps: &mut Steps<L>,
) -> io::Result<u64> {
    let alloc = rt.alloc();
    let source = case.source;
    let Some(code) = text_of(alloc, case) else {
        println!(rt; "{source}: no memory")?;
        return Ok(0);
    };
    let count = if timed { case.often } else { 10 };
    let begun = nanos(rt)?;
    let values = evaluated(alloc, &code, &view(), count, steps);
    let took = nanos(rt)?.saturating_sub(begun) / u64::from(count.max(1));
    if timed {
        println!(rt; "{source}: {values} values, {took} nanoseconds each")?;
    } else {
        println!(rt; "{source}: {values} values")?;
    }
    Ok(took)
}

/// Tells of each case, and what a local by its name takes more than a number.
fn measure<L: Ledger>(rt: &HostRuntime, timed: bool, blank: Blank) -> io::Result<()>
    requires name { blank.name ≡ L.name }
    requires parts { blank.parts ≡ L.parts }
    requires some { 0 < L.parts }
{
    let mut steps = Steps::<L>::new(blank);
    let mut before = 0;
    let mut last = 0;
    for case in CASES {
        before = last;
        last = tell(rt, case, timed, &mut steps)?;
    }
    if timed {
        let more = last.saturating_sub(before) / LOCALS_MORE;
        println!(rt; "a local by its name: {more} nanoseconds more than a number")?;
    }
    Ok(())
}

/// Evaluates one case so often, and tells how often it came to a value.
fn repeat<L: Ledger>(rt: &HostRuntime, case: Case, count: u32, blank: Blank) -> io::Result<()>
    requires name { blank.name ≡ L.name }
    requires parts { blank.parts ≡ L.parts }
    requires some { 0 < L.parts }
{
    let mut steps = Steps::<L>::new(blank);
    let alloc = rt.alloc();
    let source = case.source;
    let values = match text_of(alloc, case) {
        Some(code) => evaluated(alloc, &code, &view(), count, &mut steps),
        None => 0,
    };
    println!(rt; "{source}: {values} values")
}

/// The case of a number.
fn case_of(number: &str) -> Option<Case> {
    let number = number.parse::<usize>().ok()?;
    CASES.get(number).copied()
}

fn main(rt: HostRuntime) -> io::Result<()> {
    let mut words = env::args(&rt)?.skip(1);
    let first = words.next();
    let second = words.next();
    match (first.as_deref(), second.as_deref()) {
        (Some(number), Some(count)) => match (case_of(number), count.parse::<u32>().ok()) {
            (Some(case), Some(count)) => repeat::<Brand>(&rt, case, count, Blank::new(1)),
            _ => println!(rt; "no such case"),
        },
        (first, _) => measure::<Brand>(&rt, first.is_some(), Blank::new(1)),
    }
}
