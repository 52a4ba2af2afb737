//! What a machine has still to do.

ghost use Rattle.std.specs.Prelude.{◌≡◌, [], ◌∷◌, reverse, OnOk, MatchOption};
ghost use Rattle.js_frames.specs.Awaiting.{awaits_spot};

use evaluation::{Args, Evaluated};
use js_fields::Entries;
use js_locals::{DeclaredNames, Locals};
use js_meaning::Rounding;
use qml_base::{CellNo, ExprNo, Found, Home, ObjNo, Place, UnitNo};
use qml_syntax::{Declaration, Operator, Prefix};
use qml_value::Value;
use std::alloc::{AllocFailed, Global};
use std::marker::Model;
use std::mem;

/// What stands before a step. Names are told by the places of their nodes.
#[derive(Drop)]
pub enum Before {
    Value(Value),
    Name(usize),
    /// The member at a place, of a value.
    OfValue(Value, usize),
    /// The member at the second place, of the object that the name at the first one finds.
    OfNamed(Value, ObjNo, usize, usize),
    /// The member at a place, of a script.
    OfScript(UnitNo, usize),
    /// The member at the second place, of the global whose name stands at the first one.
    OfGlobal(usize, usize),
    /// `Qt.binding`.
    Binding,
}

/// What a call calls.
#[derive(Drop)]
pub enum Callee {
    Body(ExprNo, ObjNo),
    Signal(ObjNo, u32),
    /// A method that reads a hidden cell, with the place of its name.
    Reading(ObjNo, CellNo, usize),
    /// A method that does something outside, with the place of its name.
    Doing(ObjNo, usize),
    /// A reading method of a value, with the place of its name.
    Method(Value, usize),
    /// A function of `Math`, with the place of its name.
    Math(usize),
    /// `String`.
    Text,
    /// `console.log`.
    Log,
    /// A `Qt.binding` that isn't assigned.
    Binding,
    /// What can't be called.
    Nothing,
}

/// What is assigned to. Names are told by the places of their nodes.
#[derive(Drop)]
pub enum Spot {
    /// The local of the name at a place.
    Local(usize),
    /// What the name at a place finds.
    Named(usize, Found),
    /// The member of a value, with the place of its name.
    Member(Value, usize),
    /// The element of a value.
    Element(Value, Value),
}

/// Which value `++` and `--` give.
#[derive(Clone, Copy)]
pub enum Gives {
    /// The one that was there.
    Old,
    /// The new one.
    New,
}

/// Where code stands: where its names are looked for, which text it is of, and how many calls may still be opened.
#[derive(Clone, Copy)]
pub struct Here {
    pub home: Home,
    pub text: ExprNo,
    pub calls: u32,
}

/// What values in a row are for.
#[derive(Drop)]
pub enum Purpose {
    List,
    /// The arguments of the call that stands at a place.
    Call(Callee, usize),
}

/// What is done with the value that is awaited, or behind the statement that is run.
#[derive(Drop)]
pub enum Frame {
    /// Of the chain at the first place it is the value of what ends with the part at the second; the last quotient is
    /// rounded, or not.
    Chain(Option<Rounding>, usize, usize),
    /// It is the right operand of this operator behind this value, in the part at the second place of the chain at the first.
    Right(Option<Rounding>, Operator, Value, usize, usize),
    /// It is the condition at the second place, of the choice at the first.
    Choose(usize, usize),
    /// It stands behind this prefix.
    Sign(Prefix),
    /// It stands before the steps behind a place.
    First(usize),
    /// It is the place of an element of this value, in the step at a place.
    Index(Value, usize),
    /// It is the value of the part at a place, behind these in their row.
    All(Purpose, Args, usize),
    /// It is the value of the field whose key stands at the first place, of the expression at the second, behind these.
    Field(Entries, usize, usize),
    /// It is the place of the element of this value that is assigned to.
    At(Value),
    /// It is what stands in this spot, before the target at a place is assigned to.
    Updated(Spot, usize),
    /// It is what is assigned to this spot, or with an operator the operand behind what stood there.
    Assigned(Option<Operator>, Value, Spot),
    /// It is what stands in this spot, to which a number is added.
    Bumped(i64, Gives, Spot),
    /// Of the target at a place the spot is awaited.
    Target(usize),
    /// The spot is awaited to which a number is added.
    Bump(i64, Gives),
    /// It is that of an expression statement.
    Dropped,
    /// It is the condition at a place, of an `if`.
    When(usize),
    /// It is the condition at a place, of a `while` with this many rounds left.
    Test(u32, usize),
    /// It is that of the expression at this place with which a `for` begins.
    ForFirst(usize),
    /// It is the test of the `for` that begins at this place, with this many rounds left.
    ForTest(u32, usize),
    /// It is that of the update of the `for` that begins at this place, with this many rounds left.
    ForUpdate(u32, usize),
    /// It is that of a `return`.
    Returned,
    /// It is that of the expression at the second place, of the name declared at the first.
    Var(Declaration, usize, usize),
    /// The statement at a place is run, of several.
    Statements(usize),
    /// A scope is open.
    Scope,
    /// The statement is run of the `while` whose condition stands at a place, with this many rounds left.
    Round(u32, usize),
    /// The names are declared with which the `for` begins at this place.
    ForStart(usize),
    /// The statement is run of the `for` that begins at this place, with this many rounds left.
    ForRound(u32, usize),
    /// A body is run for the call at a place, of code that stands there and has these locals.
    Call(Here, Locals, usize),
}

/// What goes by whether effects are done. Calls stand at the place that comes last.
#[derive(Drop)]
pub enum Deed {
    /// The function of a document is called as a member, where it may be or effects are done.
    Reach(ExprNo, ObjNo, bool, usize),
    /// A signal is called.
    Emit(ObjNo, u32, Args, usize),
    /// A method is called that reads a hidden cell, with the place of its name.
    Read(ObjNo, CellNo, usize, Args, usize),
    /// A method is called that does something outside, with the place of its name.
    Do(ObjNo, usize, Args, usize),
    /// `console.log` is called.
    Log(Args, usize),
    /// A value is put outside, in the spot of the latest frame; the value in that frame goes on.
    Write(Value),
    /// The function of the `Qt.binding` whose call stands at a place of the text is put there.
    Rebind(Place),
}

/// What comes next.
#[derive(Drop)]
pub enum Next {
    /// The part at a place is begun.
    Begin(usize),
    /// A value goes back to what awaits it.
    Back(Value),
    /// The steps behind a place, with what stands before them.
    Step(Before, usize),
    /// The prefixes and the operand from a place on, before the last prefix.
    Signs(Prefix, usize),
    /// The arguments of the call at a place.
    Args(Callee, usize),
    /// A body is called with an object as its scope and these arguments, by the call at a place.
    Enter(ExprNo, ObjNo, Args, usize),
    /// The target at a place is begun, or the value behind the last target.
    Targets(usize),
    /// The expression at a place is begun as what is assigned to.
    Spot(usize),
    /// A spot goes back to what awaits it.
    Found(Spot),
    /// The statement at a place is run.
    Run(usize),
    /// The statements behind a place are run.
    Rest(usize),
    /// The names behind a place are declared.
    Vars(Declaration, usize),
    /// A statement has been run.
    Done,
    /// A value is returned.
    Give(Value),
    /// A loop is left.
    Stop,
    /// A loop goes on with its next round.
    Again,
    /// What goes by whether effects are done.
    Deed(Deed),
    /// All has ended.
    Ended(Evaluated),
}

/// Room that was used before: what the next call or block needs takes no memory as long as some is kept.
#[derive(Drop)]
struct Room {
    arguments: Vec<Args>,
    locals: Vec<Locals>,
    names: DeclaredNames,
}

/// Frames, of which the latest awaits a value. Contracts see it in front. Room that calls and blocks no longer need is kept
/// beside them for the next ones; no contract speaks of it.
#[derive(Drop)]
pub struct Stack {
    frames: Vec<Frame>,
    room: Room,
}

impl Model for Stack {
    ghost use Rattle.std.specs.Prelude.{List, reverse};
    ghost use Rattle.js_frames.specs.declared.frames.Frame as f;
    ghost use Rattle.qml_value.specs.contracts.value.Value as v;
    ghost use Rattle.std.specs.Coded.{codes};

    ghost Value = { List f.Frame };

    ghost coded = { Prim.hlevel (codes, v.the_row.coded) };

    ghost view = { λ o. reverse o.frames.items };
}

impl Stack {
    /// No frame, and no room yet. It takes no memory.
    pub fn new(alloc: Global) -> Stack
        ensures { result ≡ [] }
    {
        Stack {
            frames: Vec::new(alloc),
            room: Room {
                arguments: Vec::new(alloc),
                locals: Vec::new(alloc),
                names: DeclaredNames::new(alloc),
            },
        }
    }

    /// Adds a frame.
    pub fn push(&mut self, frame: Frame) -> Result<(), AllocFailed<Frame>>
        ensures { OnOk result (self.new ≡ frame ∷ self.old) }
    {
        self.frames.push(frame)
    }

    /// Whether the latest frame awaits what is assigned to.
    pub fn awaits_spot(&self) -> bool
        ensures { result ≡ awaits_spot self.now }
    {
        awaiting(self.frames.as_slice())
    }

    /// Takes the latest frame.
    pub fn pop(&mut self) -> Option<Frame>
        ensures { MatchOption result ((self.old ≡ []) × (self.new ≡ self.old)) (λ f. self.old ≡ f ∷ self.new) }
    {
        self.frames.pop()
    }

    /// No argument, in room that was kept.
    pub fn take_arguments(&mut self, alloc: Global) -> Args
        ensures none { result ≡ [] }
        ensures frames { self.new ≡ self.old }
    {
        match self.room.arguments.pop() {
            Some(arguments) => emptied(arguments),
            None => Args::of_vec(Vec::new(alloc)),
        }
    }

    /// Keeps the room of these arguments, where there is memory for its place.
    pub fn keep_arguments(&mut self, arguments: Args)
        ensures { self.new ≡ self.old }
    {
        let _kept = self.room.arguments.push(emptied(arguments));
    }

    /// No local, in room that was kept.
    pub fn take_locals(&mut self, alloc: Global) -> Locals
        ensures none { result ≡ [] }
        ensures frames { self.new ≡ self.old }
    {
        match self.room.locals.pop() {
            Some(locals) => cleared(locals),
            None => Locals::new(alloc),
        }
    }

    /// Keeps the room of these locals, where there is memory for its place.
    pub fn keep_locals(&mut self, locals: Locals)
        ensures { self.new ≡ self.old }
    {
        let _kept = self.room.locals.push(cleared(locals));
    }

    /// The room in which names that are declared were gathered.
    pub fn take_names(&mut self, alloc: Global) -> DeclaredNames
        ensures { self.new ≡ self.old }
    {
        mem::replace(&mut self.room.names, DeclaredNames::new(alloc))
    }

    /// Keeps the room in which names that are declared were gathered.
    pub fn keep_names(&mut self, names: DeclaredNames)
        ensures { self.new ≡ self.old }
    {
        self.room.names = names;
    }
}

/// No argument, in the room of these.
fn emptied(arguments: Args) -> Args
    ensures { result ≡ [] }
{
    let mut values = arguments.into_values();
    values.clear();
    Args::of_vec(values)
}

/// No local, in the room of these.
fn cleared(locals: Locals) -> Locals
    ensures { result ≡ [] }
{
    let mut locals = locals;
    locals.clear();
    locals
}

/// Whether the last of these frames awaits what is assigned to.
fn awaiting(frames: &[Frame]) -> bool
    ensures { result ≡ awaits_spot (reverse frames.now) }
{
    match frames.last() {
        Some(Frame::Target(_)) => true,
        Some(Frame::Bump(_, _)) => true,
        _ => false,
    }
}

/// Where a value goes that is found.
#[derive(Clone, Copy)]
pub enum To {
    /// To what awaits it.
    Back,
    /// Before the steps behind a place.
    Step(usize),
    /// Before the steps behind a place, of which the step there asks for its member.
    Member(usize),
    /// To what awaits a spot: its member is assigned to, whose name stands at a place.
    Spot(usize),
    /// Nowhere: it is called at a place, and can't be.
    Nothing(usize),
}
