//! Statements that are run.

ghost use Rattle.std.specs.Prelude.{◌≡◌, ◌∷◌, true, MatchOption, IfOk};
ghost use Rattle.qml_syntax.specs.Opened.{node_of};
ghost use Rattle.js_meaning.specs.Operate.{counts};
ghost use Rattle.js_meaning.specs.Locals.{Held, alive, is_var, is_let, lets_of, local};
ghost use Rattle.js_meaning.specs.Eval.{most};
ghost use Rattle.js_locals.specs.Laid.{laid, name_of, stmts_in, is_expr_node, ForParts, is_present, is_var_node};
ghost use Rattle.js_locals.specs.Scopes.{scopes_of};
ghost use Rattle.js_frames.specs.Standing.{Standing, standing};
ghost use Rattle.js_frames.specs.Statements.{Adds, Scoped, Puts, Writes, VarSets, VarLeaves, NoValue, VarBegins, Declares, Loops, ForTests, ForLoops, ForUpdates, first_scope, ForDeclares, BeginsFor, Opens, RunsWith, plain_next, Runs, is_expr_stmt, RunsCounted, RunsBy, RunsAt, Rests, WhenOn, TestOn, ForTestOn, Takes};

use evaluation::Evaluated;
use js_frames::{Frame, Machine, Next};
use js_locals::{
    Local, Writable, declare, first_names, first_part, for_parts, is_expression, is_var,
    is_var_node, let_names, name_of, next_part, node_at, put, row_behind, writable_in,
};
use js_looking::{pushed, threw};
use js_operators::truth;
use qml_base::Cause;
use qml_syntax::{Declaration, Node, Tree};
use qml_text::{NoMemory, Text};
use qml_value::Value;
use std::alloc::Global;

/// One more than the rounds of any loop: each begins a node.
pub const MOST: u32 = 100_001;

/// Adds a frame and goes on.
fn added(machine: &mut Machine, frame: Frame, next: Next) -> Result<Next, NoMemory>
    ensures { IfOk result (λ y. Adds frame next (standing machine.old) (standing machine.new) y) }
{
    machine.frames.push(frame)?;
    Ok(next)
}

// ---- names that are declared

/// Gives a local another value.
#[tactic(auto, using(js_locals::proofs::ScopeLemmas::put_scopes))]
fn puts(
    machine: &mut Machine,
    tree: &Tree,
    name: &Text,
    writable: bool,
    value: Value,
    next: Next,
) -> Result<Next, NoMemory>
    ensures { IfOk result (λ y. Puts (laid tree.now) name.now (alive writable value) next (standing machine.old) (standing machine.new) y) }
{
    put(&mut machine.locals, tree, name, writable, value)?;
    Ok(next)
}

/// A throw in place of what would come next with this value.
fn in_place_of(next: Next, value: Value, cause: Cause) -> Next
    ensures { result ≡ Next.Ended (Evaluated.Threw cause) }
{
    let _next = next;
    let _value = value;
    threw(cause)
}

/// Assigns to a local.
pub fn writes(
    machine: &mut Machine,
    tree: &Tree,
    name: &Text,
    value: Value,
    next: Next,
) -> Result<Next, NoMemory>
    ensures { IfOk result (λ y. Writes (laid tree.now) name.now value next (standing machine.old) (standing machine.new) y) }
{
    match writable_in(&machine.locals, tree, name)? {
        Writable::Yes => puts(machine, tree, name, true, value, next),
        Writable::Readonly => Ok(in_place_of(next, value, Cause::Readonly)),
        Writable::Nothing => Ok(in_place_of(next, value, Cause::Name)),
    }
}

/// Whether names may be assigned that are declared so.
fn is_let(kind: Declaration) -> bool
    ensures { result ≡ is_let kind }
{
    match kind {
        Declaration::Var | Declaration::Let => true,
        Declaration::Const => false,
    }
}

/// Declares the name at a place with a value.
fn var_set(
    machine: &mut Machine,
    tree: &Tree,
    kind: Declaration,
    place: usize,
    part: usize,
    value: Value,
) -> Result<Next, NoMemory>
    ensures { IfOk result (λ y. VarSets (laid tree.now) kind (is_var kind) place part value (standing machine.old) (standing machine.new) y) }
{
    let name = name_of(tree, place)?;
    let next = Next::Vars(kind, part);
    if is_var(kind) {
        writes(machine, tree, name, value, next)
    } else {
        puts(machine, tree, name, is_let(kind), value, next)
    }
}

/// Declares the name at a place without one.
fn var_left(
    machine: &mut Machine,
    tree: &Tree,
    kind: Declaration,
    place: usize,
) -> Result<Next, NoMemory>
    ensures { IfOk result (λ y. VarLeaves (laid tree.now) kind (is_var kind) place (standing machine.old) (standing machine.new) y) }
{
    let next = Next::Vars(kind, place);
    if is_var(kind) {
        return Ok(next);
    }
    let name = name_of(tree, place)?;
    puts(machine, tree, name, is_let(kind), Value::Undefined, next)
}

/// Where the value of the name at a place stands, if it has one.
fn value_place(tree: &Tree, place: usize) -> Result<Option<usize>, NoMemory>
    ensures { IfOk result (λ o. MatchOption o (NoValue (laid tree.now) place) (λ q. ((laid tree.now).rest place ≡ (laid tree.now).item q ∷ (laid tree.now).rest q) × (is_expr_node (node_of ((laid tree.now).item q)) ≡ true))) }
{
    let Some(next) = next_part(tree, place) else {
        return Ok(None);
    };
    let Some(node) = node_at(tree, next) else {
        return Err(NoMemory);
    };
    if is_expression(node) {
        Ok(Some(next))
    } else {
        Ok(None)
    }
}

/// Begins the name at a place.
fn var_begun(
    machine: &mut Machine,
    tree: &Tree,
    kind: Declaration,
    place: usize,
) -> Result<Next, NoMemory>
    ensures { IfOk result (λ y. VarBegins (laid tree.now) kind place (standing machine.old) (standing machine.new) y) }
{
    match value_place(tree, place)? {
        None => var_left(machine, tree, kind, place),
        Some(value) => pushed(machine, Frame::Var(kind, place, value), value),
    }
}

/// Declares the names behind a place.
pub fn declared(
    machine: &mut Machine,
    tree: &Tree,
    kind: Declaration,
    part: usize,
) -> Result<Next, NoMemory>
    ensures { IfOk result (λ y. Declares (laid tree.now) kind part (standing machine.old) (standing machine.new) y) }
{
    let Some(place) = next_part(tree, part) else {
        return Ok(Next::Done);
    };
    let Some(node) = node_at(tree, place) else {
        return Err(NoMemory);
    };
    if is_var_node(node) {
        var_begun(machine, tree, kind, place)
    } else {
        Err(NoMemory)
    }
}

// ---- loops

/// Begins a round of a `while`.
pub fn looped(machine: &mut Machine, left: u32, test: usize) -> Result<Next, NoMemory>
    ensures { IfOk result (λ y. Loops left test (standing machine.old) (standing machine.new) y) }
{
    if left == 0 {
        Ok(threw(Cause::Nodes))
    } else {
        pushed(machine, Frame::Test(left - 1, test), test)
    }
}

/// Whether it is the node of an expression that may be absent, and is there.
fn is_present(node: &Node) -> bool
    ensures { result ≡ is_present node.now }
{
    match node {
        Node::Present => true,
        _ => false,
    }
}

/// Begins the test of a `for`, or its statement.
fn for_tested(
    machine: &mut Machine,
    tree: &Tree,
    left: u32,
    at: usize,
    test: usize,
    body: usize,
) -> Result<Next, NoMemory>
    ensures { IfOk result (λ y. ForTests (laid tree.now) left at test body (is_present (node_of ((laid tree.now).item test))) (standing machine.old) (standing machine.new) y) }
{
    let Some(node) = node_at(tree, test) else {
        return Err(NoMemory);
    };
    if is_present(node) {
        match first_part(tree, test) {
            Some(inside) => pushed(machine, Frame::ForTest(left, at), inside),
            None => Err(NoMemory),
        }
    } else {
        added(machine, Frame::ForRound(left, at), Next::Run(body))
    }
}

/// Begins a round of a `for`.
pub fn for_looped(
    machine: &mut Machine,
    tree: &Tree,
    left: u32,
    at: usize,
) -> Result<Next, NoMemory>
    ensures { IfOk result (λ y. ForLoops (laid tree.now) left at (standing machine.old) (standing machine.new) y) }
{
    if left == 0 {
        return Ok(threw(Cause::Nodes));
    }
    let (test, _update, body) = for_parts(tree, at)?;
    for_tested(machine, tree, left - 1, at, test, body)
}

/// Begins the update of a `for`, or its next round.
pub fn for_updated(
    machine: &mut Machine,
    tree: &Tree,
    left: u32,
    at: usize,
) -> Result<Next, NoMemory>
    ensures { IfOk result (λ y. ForUpdates (laid tree.now) left at (standing machine.old) (standing machine.new) y) }
{
    let (_test, update, _body) = for_parts(tree, at)?;
    let Some(node) = node_at(tree, update) else {
        return Err(NoMemory);
    };
    if is_present(node) {
        match first_part(tree, update) {
            Some(inside) => pushed(machine, Frame::ForUpdate(left, at), inside),
            None => Err(NoMemory),
        }
    } else {
        for_looped(machine, tree, left, at)
    }
}

/// Begins the first round of a `for`, in a scope of its own.
fn for_entered(machine: &mut Machine, tree: &Tree, at: usize) -> Result<Next, NoMemory>
    ensures { IfOk result (λ y. Takes (laid tree.now) (Frame.ForFirst at) Value.Undefined (standing machine.old) (standing machine.new) y) }
{
    machine.frames.push(Frame::Scope)?;
    machine.locals.push(Local::Scope)?;
    for_looped(machine, tree, MOST, at)
}

/// Opens the scope of a `for` that begins with names.
#[tactic(auto, using(js_locals::proofs::ScopeLemmas::opened_scopes))]
fn for_declared(
    machine: &mut Machine,
    alloc: Global,
    tree: &Tree,
    kind: Declaration,
    at: usize,
    mark: usize,
) -> Result<Next, NoMemory>
    ensures { IfOk result (λ y. ForDeclares (laid tree.now) kind at mark (standing machine.old) (standing machine.new) y) }
{
    let room = machine.frames.take_names(alloc);
    let names = first_names(tree, is_var(kind), mark, room)?;
    machine.locals.push(Local::Scope)?;
    let room = declare(&mut machine.locals, false, names)?;
    machine.frames.keep_names(room);
    machine.frames.push(Frame::Scope)?;
    machine.frames.push(Frame::ForStart(at))?;
    Ok(Next::Vars(kind, mark))
}

/// Begins a `for`.
fn for_begun(
    machine: &mut Machine,
    alloc: Global,
    tree: &Tree,
    node: &Node,
    at: usize,
) -> Result<Next, NoMemory>
    ensures { IfOk result (λ y. BeginsFor (laid tree.now) node.now at (standing machine.old) (standing machine.new) y) }
{
    match node {
        Node::NoFirst => for_entered(machine, tree, at),
        Node::FirstExpression => match first_part(tree, at) {
            Some(inside) => pushed(machine, Frame::ForFirst(at), inside),
            None => Err(NoMemory),
        },
        Node::FirstDeclare(_, kind) => {
            if machine.left == 0 {
                return Ok(threw(Cause::Nodes));
            }
            machine.left -= 1;
            match first_part(tree, at) {
                Some(mark) => for_declared(machine, alloc, tree, *kind, at, mark),
                None => Err(NoMemory),
            }
        }
        _ => Err(NoMemory),
    }
}

// ---- statements

/// Opens a block.
#[tactic(auto, using(js_locals::proofs::ScopeLemmas::opened_scopes))]
fn opened(machine: &mut Machine, alloc: Global, tree: &Tree, mark: usize) -> Result<Next, NoMemory>
    ensures { IfOk result (λ y. Opens (laid tree.now) mark (standing machine.old) (standing machine.new) y) }
{
    let room = machine.frames.take_names(alloc);
    let names = let_names(tree, row_behind(tree, mark), room)?;
    machine.locals.push(Local::Scope)?;
    let room = declare(&mut machine.locals, false, names)?;
    machine.frames.keep_names(room);
    machine.frames.push(Frame::Scope)?;
    Ok(Next::Rest(mark))
}

/// Runs a statement whose first part stands at a place.
fn run_with(
    machine: &mut Machine,
    alloc: Global,
    tree: &Tree,
    node: &Node,
    first: usize,
) -> Result<Next, NoMemory>
    ensures { IfOk result (λ y. RunsWith (laid tree.now) node.now first (standing machine.old) (standing machine.new) y) }
{
    match node {
        Node::Block(_) => opened(machine, alloc, tree, first),
        Node::Declare(_, kind, _) => Ok(Next::Vars(*kind, first)),
        Node::When(_) => pushed(machine, Frame::When(first), first),
        Node::Either(_) => pushed(machine, Frame::When(first), first),
        Node::While(_) => looped(machine, MOST, first),
        Node::For(_) => match node_at(tree, first) {
            Some(begin) => for_begun(machine, alloc, tree, begin, first),
            None => Err(NoMemory),
        },
        Node::GiveValue(_, _) => pushed(machine, Frame::Returned, first),
        _ => Err(NoMemory),
    }
}

/// What comes behind a statement without parts.
fn plain_next(node: &Node) -> Option<Next>
    ensures { result ≡ plain_next node.now }
{
    match node {
        Node::Empty(_) => Some(Next::Done),
        Node::Give(_, _) => Some(Next::Give(Value::Undefined)),
        Node::Stop(_, _) => Some(Next::Stop),
        Node::Again(_, _) => Some(Next::Again),
        _ => None,
    }
}

/// Runs a statement that is counted already.
fn run_node(
    machine: &mut Machine,
    alloc: Global,
    tree: &Tree,
    node: &Node,
    at: usize,
) -> Result<Next, NoMemory>
    ensures { IfOk result (λ y. Runs (laid tree.now) node.now at (standing machine.old) (standing machine.new) y) }
{
    match plain_next(node) {
        Some(next) => Ok(next),
        None => match first_part(tree, at) {
            Some(first) => run_with(machine, alloc, tree, node, first),
            None => Err(NoMemory),
        },
    }
}

/// Whether a node is that of an expression that is a statement.
pub fn is_expression_statement(node: &Node) -> bool
    ensures { result ≡ is_expr_stmt node.now }
{
    match node {
        Node::Expression(_) => true,
        _ => false,
    }
}

/// Runs a statement that counts one.
fn run_counted(
    machine: &mut Machine,
    alloc: Global,
    tree: &Tree,
    node: &Node,
    at: usize,
) -> Result<Next, NoMemory>
    ensures { IfOk result (λ y. RunsCounted (laid tree.now) node.now at (standing machine.old) (standing machine.new) y) }
{
    if machine.left == 0 {
        return Ok(threw(Cause::Nodes));
    }
    machine.left -= 1;
    run_node(machine, alloc, tree, node, at)
}

/// Runs an expression that is a statement.
fn run_expression(machine: &mut Machine, tree: &Tree, at: usize) -> Result<Next, NoMemory>
    ensures { IfOk result (λ y. RunsBy (laid tree.now) true at (standing machine.old) (standing machine.new) y) }
{
    match first_part(tree, at) {
        Some(first) => pushed(machine, Frame::Dropped, first),
        None => Err(NoMemory),
    }
}

/// Runs the statement at a place, of which each but an expression counts one.
pub fn run_at(
    machine: &mut Machine,
    alloc: Global,
    tree: &Tree,
    at: usize,
) -> Result<Next, NoMemory>
    ensures { IfOk result (λ y. RunsAt (laid tree.now) at (standing machine.old) (standing machine.new) y) }
{
    let Some(node) = node_at(tree, at) else {
        return Err(NoMemory);
    };
    if is_expression_statement(node) {
        run_expression(machine, tree, at)
    } else {
        run_counted(machine, alloc, tree, node, at)
    }
}

/// Runs the statements behind a place.
pub fn rested(machine: &mut Machine, tree: &Tree, part: usize) -> Result<Next, NoMemory>
    ensures { IfOk result (λ y. Rests (laid tree.now) part (standing machine.old) (standing machine.new) y) }
{
    match next_part(tree, part) {
        None => Ok(Next::Done),
        Some(next) => added(machine, Frame::Statements(next), Next::Run(next)),
    }
}

// ---- behind a value that a statement awaits

/// Goes on behind the condition of an `if`.
fn when_on(machine: &Machine, tree: &Tree, holds: bool, test: usize) -> Result<Next, NoMemory>
    ensures { IfOk result (λ y. WhenOn (laid tree.now) holds test (standing machine.now) (standing machine.now) y) }
{
    let Some(then) = next_part(tree, test) else {
        return Err(NoMemory);
    };
    if holds {
        return Ok(Next::Run(then));
    }
    match next_part(tree, then) {
        None => Ok(Next::Done),
        Some(other) => Ok(Next::Run(other)),
    }
}

/// Goes on behind the condition of a `while`.
fn test_on(
    machine: &mut Machine,
    tree: &Tree,
    holds: bool,
    left: u32,
    test: usize,
) -> Result<Next, NoMemory>
    ensures { IfOk result (λ y. TestOn (laid tree.now) holds left test (standing machine.old) (standing machine.new) y) }
{
    if !holds {
        return Ok(Next::Done);
    }
    match next_part(tree, test) {
        Some(body) => added(machine, Frame::Round(left, test), Next::Run(body)),
        None => Err(NoMemory),
    }
}

/// Goes on behind the test of a `for`.
fn for_test_on(
    machine: &mut Machine,
    tree: &Tree,
    holds: bool,
    left: u32,
    at: usize,
) -> Result<Next, NoMemory>
    ensures { IfOk result (λ y. ForTestOn (laid tree.now) holds left at (standing machine.old) (standing machine.new) y) }
{
    if !holds {
        return Ok(Next::Done);
    }
    let (_test, _update, body) = for_parts(tree, at)?;
    added(machine, Frame::ForRound(left, at), Next::Run(body))
}

/// Goes on with the value that a statement awaits and doesn't keep.
fn looked_at(
    machine: &mut Machine,
    tree: &Tree,
    frame: &Frame,
    value: &Value,
) -> Result<Next, NoMemory>
    ensures { IfOk result (λ y. Takes (laid tree.now) frame.now value.now (standing machine.old) (standing machine.new) y) }
{
    match frame {
        Frame::Dropped => Ok(Next::Done),
        Frame::When(test) => when_on(machine, tree, truth(value), *test),
        Frame::Test(left, test) => test_on(machine, tree, truth(value), *left, *test),
        Frame::ForFirst(at) => for_entered(machine, tree, *at),
        Frame::ForTest(left, at) => for_test_on(machine, tree, truth(value), *left, *at),
        Frame::ForUpdate(left, at) => for_looped(machine, tree, *left, *at),
        _ => Err(NoMemory),
    }
}

/// Goes on with the value that a statement awaits.
pub fn taken(
    machine: &mut Machine,
    tree: &Tree,
    frame: Frame,
    value: Value,
) -> Result<Next, NoMemory>
    ensures { IfOk result (λ y. Takes (laid tree.now) frame value (standing machine.old) (standing machine.new) y) }
{
    match frame {
        Frame::Returned => Ok(Next::Give(value)),
        Frame::Var(kind, place, part) => {
            let next = var_set(machine, tree, kind, place, part, value)?;
            Ok(next)
        }
        other => {
            let next = looked_at(machine, tree, &other, &value)?;
            Ok(next)
        }
    }
}
