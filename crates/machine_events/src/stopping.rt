//! Stops.

ghost use Rattle.std.specs.Prelude.{◌≡◌, IfOk, OnOk};
ghost use Rattle.machine_model.specs.Acts.{goes};
ghost use Rattle.machine_model.specs.Lines.{stop_entry};
ghost use Rattle.machine_state.specs.Keeping.{machine_of};

use machine_model::Stop;
use machine_state::State;
use qml_base::NoMemory;
use qml_text::Text;
use std::alloc::Global;
use trace_print::{Entry, Named, Site};

/// How many objects may be live.
const OBJECTS: u32 = 100_000;

/// Tells a stop, where a line has so many deliveries.
pub fn tell_stop<'a>(state: &mut State<'a>, most: u32, stop: Stop) -> Result<(), NoMemory>
    ensures tells { OnOk result (stop_entry most stop (machine_of state.old) ≡ goes tt (machine_of state.new)) }
{
    match stop {
        Stop::Past(at) => state.tell(Entry::StopPast(at)),
        Stop::Nesting(object, handler) => state.tell(Entry::StopNesting { object, handler }),
        Stop::Turns => state.tell(Entry::StopTurns(most)),
        Stop::Objects => state.tell(Entry::StopObjects(OBJECTS)),
        Stop::Unanswered => Ok(()),
    }
}

/// A copy of a text.
fn copied(alloc: Global, text: &Text) -> Result<Text, NoMemory>
    ensures { IfOk result (λ copy. copy ≡ text.now) }
{
    match text.copy(alloc) {
        Ok(copy) => Ok(copy),
        Err(_) => Err(NoMemory),
    }
}

/// A copy of the name of a cell.
fn copied_name(alloc: Global, cell: &Named) -> Result<Named, NoMemory>
    ensures { IfOk result (λ copy. copy ≡ cell.now) }
{
    Ok(Named {
        object: cell.object,
        delegate: cell.delegate,
        name: copied(alloc, &cell.name)?,
    })
}

/// A copy of a place that threw or came past the limit.
fn copied_site(alloc: Global, site: &Site) -> Result<Site, NoMemory>
    ensures { IfOk result (λ copy. copy ≡ site.now) }
{
    match site {
        Site::Cell(cell) => Ok(Site::Cell(copied_name(alloc, cell)?)),
        Site::Handler(o, handler) => Ok(Site::Handler(*o, copied(alloc, handler)?)),
        Site::Do => Ok(Site::Do),
        Site::Print => Ok(Site::Print),
    }
}

/// A copy of the name of a handler, if there is one.
fn copied_handler(alloc: Global, handler: &Option<Text>) -> Result<Option<Text>, NoMemory>
    ensures { IfOk result (λ copy. copy ≡ handler.now) }
{
    match handler {
        Some(name) => Ok(Some(copied(alloc, name)?)),
        None => Ok(None),
    }
}

/// A copy of why a run stops.
pub fn copied_stop(alloc: Global, stop: &Stop) -> Result<Stop, NoMemory>
    ensures { IfOk result (λ copy. copy ≡ stop.now) }
{
    match stop {
        Stop::Past(at) => Ok(Stop::Past(copied_site(alloc, at)?)),
        Stop::Nesting(o, handler) => Ok(Stop::Nesting(*o, copied_handler(alloc, handler)?)),
        Stop::Turns => Ok(Stop::Turns),
        Stop::Objects => Ok(Stop::Objects),
        Stop::Unanswered => Ok(Stop::Unanswered),
    }
}
