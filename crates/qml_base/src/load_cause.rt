//! Why a document isn't loaded.

/// Why a document or a script file isn't loaded. The trace prints the variant's name.
#[derive(Clone, Copy, Debug, PartialEq, Eq)]
pub enum LoadCause {
    /// The root or an imported script file is no file.
    Missing,
    /// A file is too large, or a document has too many objects or bindings.
    TooMany,
    /// The file has no tree.
    Syntax,
    /// A node of the file's tree stands too deep.
    TooDeep,
    /// There is no module of the name.
    UnknownModule,
    /// No import and no document beside it has the type.
    UnknownType,
    /// A document uses itself as a type, through others too.
    UnitCycle,
    /// Two objects of a component have one id.
    DuplicateId,
    /// Two members of an object have one name, or a property is given two values.
    DuplicateName,
    /// The object has no such property, handler or group.
    UnknownProperty,
    /// A value stands for a property that can only be read.
    ReadOnly,
    /// A value stands where a literal is asked for.
    NotLiteral,
    /// A literal or an object has no conversion to the property's kind.
    BadKind,
    /// An alias names no id or property.
    BadAlias,
    /// Aliases name one another.
    AliasCycle,
    /// A PropertyChanges has no id as target.
    BadTarget,
    /// A state extends one that its list hasn't.
    UnknownState,
    /// A state extends itself, through others too.
    ExtendCycle,
    /// `Qt.binding` stands where it can't.
    BadBinding,
    /// A binding has an effect.
    SideEffect,
    /// The document uses a form that isn't built yet.
    NotYet,
}
