//! The words of causes.

ghost use Rattle.std.specs.Prelude.{◌≡◌};
ghost use Rattle.trace_print.specs.Shown.{shown_cause, shown_load_cause};

use qml_base::{Cause, LoadCause};

/// The word of a cause.
pub fn word_of(cause: Cause) -> &'static [u8]
    ensures { result.now ≡ shown_cause cause }
{
    match cause {
        Cause::Name => b"name",
        Cause::Null => b"null",
        Cause::Kind => b"kind",
        Cause::Zero => b"zero",
        Cause::Inexact => b"inexact",
        Cause::Range => b"range",
        Cause::Size => b"size",
        Cause::Nodes => b"nodes",
        Cause::Depth => b"depth",
        Cause::Call => b"call",
        Cause::Readonly => b"readonly",
        Cause::Static => b"static",
        Cause::Gone => b"gone",
        Cause::Host => b"host",
        Cause::Nohost => b"nohost",
    }
}

/// The word of why a file isn't loaded.
pub fn load_word_of(cause: LoadCause) -> &'static [u8]
    ensures { result.now ≡ shown_load_cause cause }
{
    match cause {
        LoadCause::Missing => b"Missing",
        LoadCause::TooMany => b"TooMany",
        LoadCause::Syntax => b"Syntax",
        LoadCause::TooDeep => b"TooDeep",
        LoadCause::UnknownModule => b"UnknownModule",
        LoadCause::UnknownType => b"UnknownType",
        LoadCause::UnitCycle => b"UnitCycle",
        LoadCause::DuplicateId => b"DuplicateId",
        LoadCause::DuplicateName => b"DuplicateName",
        LoadCause::UnknownProperty => b"UnknownProperty",
        LoadCause::ReadOnly => b"ReadOnly",
        LoadCause::NotLiteral => b"NotLiteral",
        LoadCause::BadKind => b"BadKind",
        LoadCause::BadAlias => b"BadAlias",
        LoadCause::AliasCycle => b"AliasCycle",
        LoadCause::BadTarget => b"BadTarget",
        LoadCause::UnknownState => b"UnknownState",
        LoadCause::ExtendCycle => b"ExtendCycle",
        LoadCause::BadBinding => b"BadBinding",
        LoadCause::SideEffect => b"SideEffect",
        LoadCause::NotYet => b"NotYet",
    }
}
