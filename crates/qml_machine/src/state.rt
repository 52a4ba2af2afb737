//! States of the machine as code keeps them, beside the nodes of what has been read.

use qml_base::Place;
use qml_syntax::{Adjective, Version};

/// What is open. The place is that of the first token.
#[derive(Clone, Copy, Debug, PartialEq, Eq)]
pub enum Frame {
    /// A document.
    Root,
    /// A script file, with `.pragma library` or not.
    Script(bool),
    /// An object whose members are read.
    Object,
    /// A group whose members are read.
    Group,
    /// A path whose value is read.
    Path,
    /// A property whose value is read.
    Property(Place, Adjective),
    /// A list of objects.
    List(Place),
}

/// Whose kind is read; the place is that of the member or the function.
#[derive(Clone, Copy, Debug, PartialEq, Eq)]
pub enum Whose {
    Declared(Place, Adjective),
    SignalParameter(Place),
    Parameter(Place),
    Result(Place),
}

/// How many names stand behind the first of a path.
#[derive(Clone, Copy, Debug, PartialEq, Eq)]
pub enum Count {
    Zero,
    One,
    More,
}

/// What is imported.
#[derive(Clone, Copy, Debug, PartialEq, Eq)]
pub enum Imported {
    Module(Version),
    /// Whether the text names a script file.
    Text(bool),
}

/// Which word the first name of a member is.
#[derive(Clone, Copy, Debug, PartialEq, Eq)]
pub enum FirstWord {
    Property,
    ReadOnly,
    Signal,
    Other,
}

/// What has just been read, outside of values and of the blocks of functions. Each place is that of the first token of the
/// member or the function.
#[derive(Clone, Copy, Debug, PartialEq, Eq)]
pub enum Now {
    Import(ImportNow),
    Object(ObjectNow),
    Member(MemberNow),
    Kind(KindNow),
    Function(FunctionNow),
    Script(ScriptNow),
}

/// Before and in an import.
#[derive(Clone, Copy, Debug, PartialEq, Eq)]
pub enum ImportNow {
    /// An import or the root object is to come.
    Imports,
    AtImport,
    ModuleNamed,
    ModuleDotted,
    Sourced(Imported),
    AtQualifier(Imported),
    Qualified(Imported),
}

/// Before the members of an object, and behind one.
#[derive(Clone, Copy, Debug, PartialEq, Eq)]
pub enum ObjectNow {
    AtObject,
    /// Whether it may name a type.
    ObjectNamed(bool),
    ObjectDotted,
    Typed,
    /// The root object has been read.
    Rooted,
    /// An object of a list has been read.
    Objects,
}

/// Among members.
#[derive(Clone, Copy, Debug, PartialEq, Eq)]
pub enum MemberNow {
    /// A member or `}` is to come.
    Members,
    /// A member has been read, which `;` may follow.
    Done,
    /// Names behind the first, which word the first is, whether it is `id` alone, and whether the path may name a type.
    Path(Place, Count, FirstWord, bool, bool),
    PathDotted(Place, Count),
    AtId(Place),
    IdNamed(Place),
    /// The word `property` is to come.
    AtProperty(Place, Adjective),
    PropertyNamed(Place, Adjective),
    /// Whether it stands behind `default`.
    AliasNamed(Place, bool),
    AtTarget(Place, bool),
    Target(Place, bool, Count),
    TargetDotted(Place, bool, Count),
}

/// In a kind.
#[derive(Clone, Copy, Debug, PartialEq, Eq)]
pub enum KindNow {
    AtKind(Whose),
    /// Whether it is `alias`, and whether it is `list`.
    KindNamed(Whose, bool, bool),
    KindDotted(Whose),
    /// The name of the kind of a list is to come.
    AtElement(Whose),
    ElementNamed(Whose),
    Kinded(Whose),
}

/// In a signal, or in a function before its block.
#[derive(Clone, Copy, Debug, PartialEq, Eq)]
pub enum FunctionNow {
    SignalNamed(Place),
    /// A parameter or `)` is to come.
    SignalOpened(Place),
    SignalParNamed(Place),
    SignalClosed(Place),
    AtFunction(Place),
    FunctionNamed(Place),
    /// A parameter or `)` is to come.
    FunctionOpened(Place),
    AtPar(Place),
    ParNamed(Place),
    /// A kind or the block is to come.
    FunctionClosed(Place),
}

/// In a script file, between functions.
#[derive(Clone, Copy, Debug, PartialEq, Eq)]
pub enum ScriptNow {
    ScriptBegun,
    AtPragma,
    AtLibrary,
    PragmaRead,
    Functions,
}
