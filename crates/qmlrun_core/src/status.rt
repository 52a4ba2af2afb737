//! How a run ended.
ghost use Rattle.std.specs.Prelude.{◌≡◌};
ghost use Rattle.qmlrun_core.specs.Ran.{exit_code_of};
ghost use Rattle.qmlrun_core.specs.Ran as ran;

use qml_model::Ending;

/// How a run ended. The exit status stands beside each.
#[derive(Clone, Copy, Debug, PartialEq, Eq)]
pub enum Status {
    /// 0: the script was run to its end.
    Done,
    /// 2: the words were refused.
    Words,
    /// 3: a cell came past the limit, which the last entry but one names.
    Stopped,
    /// 4: the root's document was refused.
    Document,
    /// 5: the script was refused.
    Script,
    /// 6: a file could not be read.
    ReadFailed,
    /// 7: the sink did not take all that was told.
    SinkFailed,
    /// 8: there was no memory.
    NoMemory,
}

/// The status of an ending.
pub(crate) fn status_of(ending: Ending) -> Status
    ensures { result ≡ ran.status_of ending }
{
    match ending {
        Ending::Done => Status::Done,
        Ending::Words => Status::Words,
        Ending::Stopped => Status::Stopped,
        Ending::Document => Status::Document,
        Ending::Script => Status::Script,
    }
}

/// The exit status.
pub fn exit_code(status: Status) -> u8
    ensures { result ≡ exit_code_of status }
{
    match status {
        Status::Done => 0,
        Status::Words => 2,
        Status::Stopped => 3,
        Status::Document => 4,
        Status::Script => 5,
        Status::ReadFailed => 6,
        Status::SinkFailed => 7,
        Status::NoMemory => 8,
    }
}
