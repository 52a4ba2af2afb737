//! The first fault of those that were told.

ghost use Rattle.std.specs.Prelude.{◌≡◌, None};
ghost use Rattle.program_names.specs.Components.{is_before as before_place};
ghost use Rattle.load_faults.specs.Faults.{comes_before, first_of_two, rank as rank_of};

use program_names::Fault;
use qml_base::{LoadCause, Place};

/// Keeps the first of the faults that it is told: by place, and at one place by cause.
#[derive(Clone, Copy, Debug)]
pub struct Best {
    /// The first fault so far.
    pub fault: Option<Fault>,
}

impl Best {
    /// No fault yet.
    pub fn new() -> Best
        ensures { result.fault ≡ None }
    {
        Best { fault: None }
    }

    /// Tells a fault.
    pub fn tell(&mut self, fault: Fault)
        ensures { self.new.fault ≡ first_of_two self.old.fault fault }
    {
        match self.fault {
            None => self.fault = Some(fault),
            Some(kept) => {
                if is_first(fault, kept) {
                    self.fault = Some(fault);
                }
            }
        }
    }
}

/// Whether one place stands before another.
fn is_before(a: Place, b: Place) -> bool
    ensures { result ≡ before_place a b }
{
    a.line < b.line || (a.line == b.line && a.column < b.column)
}

/// Whether one fault is told before another.
fn is_first(a: Fault, b: Fault) -> bool
    ensures { result ≡ comes_before a b }
{
    is_before(a.at, b.at) || (!is_before(b.at, a.at) && rank(a.cause) < rank(b.cause))
}

/// The place of a cause in their order.
fn rank(cause: LoadCause) -> u8
    ensures { result ≡ rank_of cause }
{
    match cause {
        LoadCause::Missing => 0,
        LoadCause::TooMany => 1,
        LoadCause::Syntax => 2,
        LoadCause::TooDeep => 3,
        LoadCause::UnknownModule => 4,
        LoadCause::UnknownType => 5,
        LoadCause::UnitCycle => 6,
        LoadCause::DuplicateId => 7,
        LoadCause::DuplicateName => 8,
        LoadCause::UnknownProperty => 9,
        LoadCause::ReadOnly => 10,
        LoadCause::NotLiteral => 11,
        LoadCause::BadKind => 12,
        LoadCause::BadAlias => 13,
        LoadCause::AliasCycle => 14,
        LoadCause::BadTarget => 15,
        LoadCause::UnknownState => 16,
        LoadCause::ExtendCycle => 17,
        LoadCause::BadBinding => 18,
        LoadCause::SideEffect => 19,
        LoadCause::NotYet => 20,
    }
}
