//! The three entries.

ghost use Rattle.std.specs.Prelude.{◌≡◌, ◌<◌, ◌≤◌, [], ◌∷◌, List, IfOk, Some, None, Err, length, drop, if◌then◌else◌};
ghost use Rattle.js_machine.specs.Front.{AreWhole, FrontAnswer};
ghost use Rattle.js_machine.specs.Kept.{kept_go, kept_start};
ghost use Rattle.qml_syntax.specs.declared.token.Token.{Token};
ghost use Rattle.js_machine.specs.Machine.{an_expression, a_statement, a_body};
ghost use Rattle.js_parser.specs.Parse.{entry_of, first_place, Lists, Judges};
ghost use Rattle.js_machine.specs.declared.fault.ParseFault.TheVariants as fault;
ghost use Rattle.qml_syntax.specs.Opened.{IsListing};
ghost use Rattle.js_machine.specs.Tape.{tape};

use crate::read::read;
use js_machine::{Frame, Now, ParseFault, Stack};
use qml_base::{NoMemory, Place};
use qml_syntax::{Node, Nodes, Token, Tree};
use std::alloc::Global;

/// Where a file begins.
const FIRST_PLACE: Place = Place { line: 1, column: 1 };

/// What is to be read.
#[derive(Clone, Copy, Debug, PartialEq, Eq)]
enum Reading {
    Expression,
    Statement,
    Body,
}

/// Opens what is to be read.
fn start(reading: Reading, nodes: &mut Nodes, frames: &mut Stack) -> Result<Now, NoMemory>
    ensures { IfOk result
        (λ now. nodes.old ≡ [] → frames.old ≡ [] → tape nodes.new frames.new now ≡ kept_start (entry_of reading)) }
{
    match reading {
        Reading::Expression => {
            frames.push(Frame::Alone)?;
            Ok(Now::Need)
        }
        Reading::Statement => {
            frames.push(Frame::One)?;
            Ok(Now::Begin)
        }
        Reading::Body => {
            nodes.push(Node::Mark)?;
            frames.push(Frame::List)?;
            Ok(Now::Begin)
        }
    }
}

/// Reads tokens from the first on: the nodes, whether they are a tree's, and how many tokens are read.
fn front(
    alloc: Global,
    reading: Reading,
    tokens: &[Token],
) -> Result<(Nodes, bool, usize), NoMemory>
    ensures { IfOk result (λ r. (kept_go tokens.now (kept_start (entry_of reading)) ≡
        record { tree = if r.1 then Some r.0 else None; rest = drop r.2 tokens.now }) × (r.2 ≤ length tokens.now)) }
{
    let mut nodes = Nodes::new(alloc);
    let mut frames = Stack::new(alloc);
    let now = start(reading, &mut nodes, &mut frames)?;
    let (found, count) = read(&mut nodes, &mut frames, now, tokens, alloc)?;
    Ok((nodes, found, count))
}

/// The tree of nodes, where none of them stands too deep, with where it ends.
fn judged(alloc: Global, nodes: Nodes, end: usize) -> Result<(Tree, usize), ParseFault>
    requires { IsListing nodes }
    ensures { Judges nodes end result }
{
    match nodes.too_deep(alloc) {
        Err(_) => Err(ParseFault::NoMemory),
        Ok(Some(place)) => Err(ParseFault::TooDeep { place }),
        Ok(None) => match Tree::new(alloc, nodes) {
            Ok(tree) => Ok((tree, end)),
            Err(_) => Err(ParseFault::NoMemory),
        },
    }
}

/// The place of a token, and of nothing behind the last.
fn place_at(tokens: &[Token], at: usize) -> Place
    ensures { (t : Token) (more : List Token) → drop at tokens.now ≡ t ∷ more → result ≡ t.place }
{
    match tokens.get(at) {
        Some(token) => token.place,
        None => FIRST_PLACE,
    }
}

/// Reads at a place among tokens.
fn parse(
    alloc: Global,
    reading: Reading,
    tokens: &[Token],
    from: usize,
) -> Result<(Tree, usize), ParseFault>
    ensures answer { AreWhole tokens.now →
        from < length tokens.now → FrontAnswer Lists (entry_of reading) tokens.now from result }
    ensures outside { length tokens.now ≤ from → result ≡ Err (fault.Syntax first_place) }
{
    if from >= tokens.len() {
        return Err(ParseFault::Syntax { place: FIRST_PLACE });
    }
    let (_, behind) = tokens.split_at(from);
    match front(alloc, reading, behind) {
        Err(_) => Err(ParseFault::NoMemory),
        Ok((nodes, found, count)) => {
            if found {
                judged(alloc, nodes, from + count)
            } else {
                Err(ParseFault::Syntax {
                    place: place_at(behind, count),
                })
            }
        }
    }
}

/// Reads an expression at a place among the tokens of a file, which end in its end: the longest front of the tokens there
/// that some expression goes on with. The answer is the tree of this front and the number of the token behind it;
/// `Syntax`, at that token, exactly where no expression reads this front; `TooDeep`, at the first token of the first node
/// that stands deeper than 100, exactly where one does (ECMA-262, 13 Expressions, as far as `qml_syntax`'s `Reads` says).
/// Nothing recurses. Where `from` stands behind the last token, the answer is `Syntax` at 1:1; where the last token isn't
/// the end of the file, nothing else is said of it.
pub fn parse_expr(alloc: Global, tokens: &[Token], from: usize) -> Result<(Tree, usize), ParseFault>
    ensures answer { AreWhole tokens.now →
        from < length tokens.now → FrontAnswer Lists an_expression tokens.now from result }
    ensures outside { length tokens.now ≤ from → result ≡ Err (fault.Syntax first_place) }
{
    parse(alloc, Reading::Expression, tokens, from)
}

/// Reads one statement, likewise; it stands in no loop (ECMA-262, 14 Statements and Declarations).
pub fn parse_statement(
    alloc: Global,
    tokens: &[Token],
    from: usize,
) -> Result<(Tree, usize), ParseFault>
    ensures answer { AreWhole tokens.now →
        from < length tokens.now → FrontAnswer Lists a_statement tokens.now from result }
    ensures outside { length tokens.now ≤ from → result ≡ Err (fault.Syntax first_place) }
{
    parse(alloc, Reading::Statement, tokens, from)
}

/// Reads a list of statements, likewise (ECMA-262, 14.2 Block, StatementList).
pub fn parse_body(alloc: Global, tokens: &[Token], from: usize) -> Result<(Tree, usize), ParseFault>
    ensures answer { AreWhole tokens.now → from < length tokens.now → FrontAnswer Lists a_body tokens.now from result }
    ensures outside { length tokens.now ≤ from → result ≡ Err (fault.Syntax first_place) }
{
    parse(alloc, Reading::Body, tokens, from)
}
