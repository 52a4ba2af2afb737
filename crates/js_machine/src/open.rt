//! What is open, as the code keeps it beside the nodes that are made so far.

use qml_base::Place;
use qml_syntax::{Declaration, Operator, Prefix};

/// Where a declaration stands: as a statement, or in the header of the `for` at a place.
#[derive(Clone, Copy, Debug, PartialEq, Eq)]
pub enum Stands {
    Body,
    Header(Place),
}

/// What is awaited. Where a frame says that it is the first, no part of its chain is a node yet.
#[derive(Clone, Copy, Debug, PartialEq, Eq)]
pub enum Frame {
    Alone,
    One,
    List,
    Paren(Place),
    Items(Place),
    Field(Place),
    /// With whether the callee is `Qt.binding`.
    Args(Place, bool),
    Element(Place),
    Sign(bool, Prefix, Place),
    Chain(bool, Operator, Place),
    Then(bool),
    Else,
    Assign,
    Expression,
    Give(Place),
    Value(Stands, Place, Declaration),
    If(Place),
    While(Place),
    First(Place),
    Test(Place),
    Next(Place),
    When(Place),
    Either(Place),
    Loop(Place),
    For(Place),
    Block(Place),
    Function(Place),
}

/// Whether an expression is `Qt` or `Qt.binding`.
#[derive(Clone, Copy, Debug, PartialEq, Eq)]
pub enum Reach {
    Qt,
    Binding,
    Elsewhere,
}

/// What is known of an expression that has been read.
#[derive(Clone, Copy, Debug, PartialEq, Eq)]
pub struct Have {
    /// A step may follow it.
    pub primary: bool,
    /// Steps stand behind it that no node has taken.
    pub stepped: bool,
    /// How tightly it binds.
    pub tight: u8,
    /// It may be assigned to.
    pub target: bool,
    /// A call or an element may follow what stands last in it.
    pub callable: bool,
    pub reach: Reach,
}

/// What has been read.
#[derive(Clone, Copy, Debug, PartialEq, Eq)]
pub enum Now {
    Need,
    Have(Have),
    Dotted(Have),
    Key(Place),
    Begin,
    Did,
    Give(Place),
    Break(Place),
    Continue(Place),
    Name(Stands, Place, Declaration),
    Named(Stands, Place, Declaration),
    First(Place),
    Test(Place),
    Next(Place),
    /// `(` before the condition of an `if` or a `while`.
    Condition,
    /// `(` behind `for`.
    Header(Place),
    /// `:` behind a key.
    Colon,
    /// `(`, `)` and `{` behind `function`.
    Function,
    FunctionClose,
    FunctionBlock,
    /// `)` behind the block of a function.
    BindingClose(Have),
}
