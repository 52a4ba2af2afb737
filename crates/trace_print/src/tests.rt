//! The line of each entry, as the trace's format gives it.

use crate::{Entry, Named, Site, Texts, print_entry};
use qml_base::{Cause, LoadCause, ObjNo, Place};
use qml_text::{NoMemory, Text};
use qml_value::{List, Num, Row, Value};
use std::alloc::Global;
use std::process::Abort;
use std::test::Fail;

fn text(alloc: Global, characters: &str) -> Result<Text, NoMemory> {
    Text::from_str(alloc, characters)
}

/// `#2.a`, or `#2@a`.
fn cell(alloc: Global, delegate: bool) -> Result<Named, NoMemory> {
    Ok(Named {
        object: ObjNo(2),
        delegate,
        name: text(alloc, "a")?,
    })
}

/// The entry's line is `wanted`.
fn prints(rt: &impl Abort, alloc: Global, entry: &Entry, wanted: &str) -> Result<(), Fail> {
    let bytes = print_entry(alloc, entry)?;
    assert_eq!(rt; bytes.as_slice(), wanted.as_bytes());
    Ok(())
}

/// A number, a text with units that are escaped and one above 127, and null.
fn list(alloc: Global) -> Result<List, Fail> {
    let mut values = Vec::new(alloc);
    values.push(Value::Num(Num::small(1)))?;
    values.push(Value::Text(text(alloc, "a\"\u{1}\n\u{dc}")?))?;
    values.push(Value::Null)?;
    Ok(Row::from_vec(values)?)
}

#[test]
fn prints_values(rt: HostRuntime) -> Result<(), Fail> {
    let alloc = rt.alloc();
    let shown = Entry::Change {
        cell: cell(alloc, false)?,
        value: Value::List(list(alloc)?),
    };
    prints(
        &rt,
        alloc,
        &shown,
        "change #2.a [1, \"a\\\"\\u0001\\n\u{dc}\", null]\n",
    )?;
    let shown = Entry::PrintCell {
        cell: cell(alloc, true)?,
        value: Value::Component(ObjNo(7)),
    };
    prints(&rt, alloc, &shown, "#2@a component #7\n")?;
    let shown = Entry::PrintPath {
        path: text(alloc, "a.b")?,
        value: Value::Num(Num::new(-3)?),
    };
    prints(&rt, alloc, &shown, "print a.b -3\n")
}

#[test]
fn prints_what_runs(rt: HostRuntime) -> Result<(), Fail> {
    let alloc = rt.alloc();
    let o = ObjNo(1);
    let shown = text(alloc, "do a = 5")?;
    prints(&rt, alloc, &Entry::Line { shown }, "> do a = 5\n")?;
    let shown = text(alloc, "Q.Item")?;
    prints(
        &rt,
        alloc,
        &Entry::Make { object: o, shown },
        "make #1 Q.Item\n",
    )?;
    prints(&rt, alloc, &Entry::Condemn(o), "condemn #1\n")?;
    prints(&rt, alloc, &Entry::Gone(o), "gone #1\n")?;
    let what = text(alloc, "start")?;
    prints(
        &rt,
        alloc,
        &Entry::React { object: o, what },
        "react #1 start\n",
    )?;
    let handler = text(alloc, "onGo")?;
    prints(
        &rt,
        alloc,
        &Entry::Call { object: o, handler },
        "call #1 onGo\n",
    )?;
    prints(
        &rt,
        alloc,
        &Entry::Fire {
            object: o,
            due: 100,
        },
        "fire #1 at 100\n",
    )?;
    let mut texts = Vec::new(alloc);
    texts.push(text(alloc, "a")?)?;
    texts.push(text(alloc, "7")?)?;
    prints(
        &rt,
        alloc,
        &Entry::Log {
            texts: Texts::of_vec(texts),
        },
        "log a 7\n",
    )
}

#[test]
fn prints_reports(rt: HostRuntime) -> Result<(), Fail> {
    let alloc = rt.alloc();
    let o = ObjNo(3);
    let place = Place { line: 1, column: 2 };
    prints(
        &rt,
        alloc,
        &Entry::LoopReport(cell(alloc, false)?),
        "report loop #2.a\n",
    )?;
    let site = Site::Handler(o, text(alloc, "onGo")?);
    let thrown = Entry::ThrewReport {
        site,
        cause: Cause::Nohost,
    };
    prints(&rt, alloc, &thrown, "report threw #3.onGo nohost\n")?;
    let thrown = Entry::ThrewReport {
        site: Site::Do,
        cause: Cause::Readonly,
    };
    prints(&rt, alloc, &thrown, "report threw do readonly\n")?;
    prints(
        &rt,
        alloc,
        &Entry::HostReport {
            object: o,
            taken: true,
        },
        "report host #3 taken\n",
    )?;
    let file = text(alloc, "C.qml")?;
    let unloaded = Entry::LoadReport {
        object: o,
        file,
        place,
        cause: LoadCause::Missing,
    };
    prints(&rt, alloc, &unloaded, "report load #3 C.qml 1:2 Missing\n")
}

#[test]
fn prints_ends(rt: HostRuntime) -> Result<(), Fail> {
    let alloc = rt.alloc();
    let o = ObjNo(3);
    let place = Place {
        line: 4,
        column: 21,
    };
    let site = Site::Cell(cell(alloc, false)?);
    prints(&rt, alloc, &Entry::StopPast(site), "stop past #2.a\n")?;
    let handler = Some(text(alloc, "onGo")?);
    let nested = Entry::StopNesting { object: o, handler };
    prints(&rt, alloc, &nested, "stop nesting #3 onGo\n")?;
    let nested = Entry::StopNesting {
        object: o,
        handler: None,
    };
    prints(&rt, alloc, &nested, "stop nesting #3 react\n")?;
    prints(
        &rt,
        alloc,
        &Entry::StopTurns(100_000),
        "stop turns 100000\n",
    )?;
    prints(
        &rt,
        alloc,
        &Entry::StopObjects(100_000),
        "stop objects 100000\n",
    )?;
    let file = text(alloc, "main.qml")?;
    let refused = Entry::RefusedDocument {
        file,
        place,
        cause: LoadCause::SideEffect,
    };
    prints(&rt, alloc, &refused, "refused main.qml 4:21 SideEffect\n")?;
    let file = text(alloc, "s.txt")?;
    let refused = Entry::RefusedScript {
        file,
        line: 2,
        not_yet: true,
    };
    prints(&rt, alloc, &refused, "refused s.txt 2 NotYet\n")?;
    let file = text(alloc, "s.txt")?;
    prints(
        &rt,
        alloc,
        &Entry::ReadFailed { file },
        "read failed s.txt\n",
    )?;
    let stats = Entry::Stats {
        objects: 1,
        events: 2,
        turns: 3,
        reports: 0,
    };
    prints(
        &rt,
        alloc,
        &stats,
        "stats objects 1 events 2 turns 3 reports 0\n",
    )?;
    prints(&rt, alloc, &Entry::End(3), "end 3\n")
}
