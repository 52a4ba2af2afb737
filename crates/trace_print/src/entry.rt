//! The entries of the trace.

ghost use Rattle.std.specs.Prelude.{◌≡◌};

use qml_base::{Cause, LoadCause, ObjNo, Place};
use qml_text::Text;
use qml_value::Value;
use std::marker::Model;

/// A cell as the trace names it: `#n.name`, and `#n@name` where the name is one that a delegate has from its row.
#[derive(Debug, Drop)]
pub struct Named {
    pub object: ObjNo,
    pub delegate: bool,
    pub name: Text,
}

/// Where something threw, or came past the limit of numbers.
#[derive(Debug, Drop)]
pub enum Site {
    /// The binding of a cell.
    Cell(Named),
    /// The handler of an object, by its name as it is written.
    Handler(ObjNo, Text),
    /// The statements of a `do` line.
    Do,
    /// The path of a `print` line.
    Print,
}

/// Texts in order, which contracts see as the list of them.
#[derive(Debug, Drop)]
pub struct Texts {
    texts: Vec<Text>,
}

impl Model for Texts {
    ghost use Rattle.std.specs.Prelude.{ℕ, List};

    ghost Value = { List (List ℕ) };

    ghost view = { λ t. t.texts.items };
}

impl Texts {
    /// These texts.
    pub fn of_vec(texts: Vec<Text>) -> Texts
        ensures { result ≡ texts.items }
    {
        Texts { texts }
    }

    /// The texts, in order.
    pub fn texts(&self) -> &[Text]
        ensures { result.now ≡ self.now }
    {
        self.texts.as_slice()
    }
}

/// An entry of the trace. Each is one line.
#[derive(Debug, Drop)]
pub enum Entry {
    /// The opening, or a script line: what stands behind `> `.
    Line {
        shown: Text,
    },
    /// An object was made, of the type as it is written.
    Make {
        object: ObjNo,
        shown: Text,
    },
    /// An object was condemned.
    Condemn(ObjNo),
    /// A condemned object was removed.
    Gone(ObjNo),
    /// A cell holds another value.
    Change {
        cell: Named,
        value: Value,
    },
    /// An object reacts: `start`, `rows`, or the name of the property that changed.
    React {
        object: ObjNo,
        what: Text,
    },
    /// A handler is run.
    Call {
        object: ObjNo,
        handler: Text,
    },
    /// A timer fires, at its due time in milliseconds of engine time.
    Fire {
        object: ObjNo,
        due: u64,
    },
    /// `console.log` was called, with the texts of its arguments.
    Log {
        texts: Texts,
    },
    /// A binding reads itself, through others too.
    LoopReport(Named),
    /// A binding, a handler or a line threw.
    ThrewReport {
        site: Site,
        cause: Cause,
    },
    /// The host of an object is held by another, or there is none.
    HostReport {
        object: ObjNo,
        taken: bool,
    },
    /// The file of a Loader isn't loaded.
    LoadReport {
        object: ObjNo,
        file: Text,
        place: Place,
        cause: LoadCause,
    },
    /// A `print` line shows the value of its path.
    PrintPath {
        path: Text,
        value: Value,
    },
    /// A `print` line shows a cell.
    PrintCell {
        cell: Named,
        value: Value,
    },
    /// The run stops, since a number came past the limit. The site is never that of a `print` line.
    StopPast(Site),
    /// The run stops, since too many deliveries are under way: at a handler, or at a reaction where there is none.
    StopNesting {
        object: ObjNo,
        handler: Option<Text>,
    },
    /// The run stops, since the line has had this many deliveries.
    StopTurns(u32),
    /// The run stops, since there would be more than this many objects.
    StopObjects(u32),
    /// A document is refused.
    RefusedDocument {
        file: Text,
        place: Place,
        cause: LoadCause,
    },
    /// A script is refused, at a line, or as a whole at 0; and whether that is since a form isn't built yet.
    RefusedScript {
        file: Text,
        line: u32,
        not_yet: bool,
    },
    /// A file could not be read.
    ReadFailed {
        file: Text,
    },
    /// How many objects are live at the end, and how many entries, deliveries and reports there were.
    Stats {
        objects: u64,
        events: u64,
        turns: u64,
        reports: u64,
    },
    /// The end, with the status.
    End(u8),
}
