//! Documents that end before their end, that stand too deep, and that are as large as a file may be.

use qml_base::Place;
use qml_lexer::{LexFault, lex};
use qml_parser::{ParseFault, parse_document};
use std::alloc::Global;
use std::test::Fail;

/// The bytes that a file may have.
const LARGEST: usize = 4_194_304;

/// A page with most forms of members, a byte order mark, characters of two bytes, and CR LF as line ends.
const PAGE: &[u8] = b"\xef\xbb\xbfimport QtQuick 2.15\r
// Z\xc3\xa4hler\r
Item {\r
    id: page\r
    property int clicks: 0\r
    property string title: \"\xc3\x9cbersicht: \" + tasks.count\r
    signal clicked()\r
    onClicked: clicks++\r
    ListModel { id: tasks; ListElement { name: \"Milch\"; done: false } }\r
    Repeater {\r
        model: tasks\r
        delegate: Item { property string line: (index + 1) + \". \" + name }\r
    }\r
    Timer { interval: 500; running: true; onTriggered: tasks.append({name: \"\xc3\x96l\", done: true}) }\r
    states: [\r
        State { name: \"empty\"; when: tasks.count === 0 },\r
        State { name: \"full\"; when: tasks.count > 1\r
            PropertyChanges { target: page; title: \"voll\" } }\r
    ]\r
}\r
";

/// What reading bytes as a document comes to.
#[derive(Clone, Copy, Debug, PartialEq, Eq)]
enum Told {
    Read,
    NoTokens(Place),
    Syntax(Place),
    TooDeep(Place),
    NoMemory,
}

/// What reading these bytes as a document comes to.
fn answer_of(alloc: Global, bytes: &[u8]) -> Told {
    if bytes.len() > LARGEST {
        return Told::NoMemory;
    }
    match lex(alloc, bytes) {
        Ok(tokens) => match parse_document(alloc, &tokens) {
            Ok(_) => Told::Read,
            Err(ParseFault::Syntax { place }) => Told::Syntax(place),
            Err(ParseFault::TooDeep { place }) => Told::TooDeep(place),
            Err(ParseFault::NoMemory) => Told::NoMemory,
        },
        Err(LexFault::Bad { place, .. }) => Told::NoTokens(place),
        Err(LexFault::NoMemory) => Told::NoMemory,
    }
}

/// The place behind the last of these bytes, whose line ends are CR LF or a CR at their end.
fn end_of(bytes: &[u8]) -> Place {
    let mut end = Place { line: 1, column: 1 };
    for byte in bytes {
        match *byte {
            b'\r' => {
                end.line = end.line.saturating_add(1);
                end.column = 1;
            }
            b'\n' => {}
            _ => end.column = end.column.saturating_add(1),
        }
    }
    end
}

/// Whether a place is this one or stands before it.
fn is_until(place: Place, end: Place) -> bool {
    place.line < end.line || place.line == end.line && place.column <= end.column
}

#[test]
fn each_cut_of_a_page_is_refused_within_it(rt: HostRuntime) -> Result<(), Fail> {
    let alloc = rt.alloc();
    let whole = answer_of(alloc, PAGE);
    assert_eq!(rt; whole, Told::Read);
    for size in 0..PAGE.len() - 2 {
        let cut = &PAGE[..size];
        let within = match answer_of(alloc, cut) {
            Told::NoTokens(place) | Told::Syntax(place) => is_until(place, end_of(cut)),
            _ => false,
        };
        assert!(rt; within, "the first {size} bytes");
    }
    Ok(())
}

/// These texts so many times each, one behind the other.
fn pieces(alloc: Global, texts: &[(&str, usize)]) -> Result<Vec<u8>, Fail> {
    let mut all = Vec::new(alloc);
    for (text, count) in texts {
        for _ in 0..*count {
            all.extend_from_slice(text.as_bytes())?;
        }
    }
    Ok(all)
}

/// A place on the first line.
fn column(column: u32) -> Place {
    Place { line: 1, column }
}

#[test]
fn the_first_node_deeper_than_100_is_told(rt: HostRuntime) -> Result<(), Fail> {
    let alloc = rt.alloc();
    let children = pieces(alloc, &[("A{", 100), ("}", 100)])?;
    assert_eq!(rt; answer_of(alloc, &children), Told::Read);
    let children = pieces(alloc, &[("A{", 101), ("}", 101)])?;
    assert_eq!(rt; answer_of(alloc, &children), Told::TooDeep(column(201)));
    let open = pieces(alloc, &[("A{", 101), ("}", 100)])?;
    assert_eq!(rt; answer_of(alloc, &open), Told::Syntax(column(303)));
    let groups = pieces(alloc, &[("A{", 1), ("a.b{", 99), ("}", 100)])?;
    assert_eq!(rt; answer_of(alloc, &groups), Told::Read);
    let groups = pieces(alloc, &[("A{", 1), ("a.b{", 100), ("}", 101)])?;
    assert_eq!(rt; answer_of(alloc, &groups), Told::TooDeep(column(399)));
    let values = pieces(alloc, &[("A{", 1), ("a:A{", 99), ("}", 100)])?;
    assert_eq!(rt; answer_of(alloc, &values), Told::Read);
    let values = pieces(alloc, &[("A{", 1), ("a:A{", 99), ("a:1", 1), ("}", 100)])?;
    assert_eq!(rt; answer_of(alloc, &values), Told::TooDeep(column(401)));
    let lists = pieces(
        alloc,
        &[("A{", 1), ("a:[A{", 49), ("a:1", 1), ("}]", 49), ("}", 1)],
    )?;
    assert_eq!(rt; answer_of(alloc, &lists), Told::Read);
    let lists = pieces(alloc, &[("A{", 1), ("a:[A{", 50), ("}]", 50), ("}", 1)])?;
    assert_eq!(rt; answer_of(alloc, &lists), Told::TooDeep(column(251)));
    Ok(())
}

#[test]
fn the_largest_file_of_opened_objects_is_refused_at_its_end(rt: HostRuntime) -> Result<(), Fail> {
    let alloc = rt.alloc();
    let bytes = pieces(alloc, &[("A{", 2_097_152)])?;
    assert_eq!(rt; answer_of(alloc, &bytes), Told::Syntax(column(4_194_305)));
    Ok(())
}

#[test]
fn the_largest_file_of_nested_objects_is_too_deep(rt: HostRuntime) -> Result<(), Fail> {
    let alloc = rt.alloc();
    let bytes = pieces(alloc, &[("A{", 1_398_101), ("}", 1_398_101)])?;
    assert_eq!(rt; answer_of(alloc, &bytes), Told::TooDeep(column(201)));
    Ok(())
}

#[test]
fn the_largest_file_of_a_list_is_refused_at_its_end(rt: HostRuntime) -> Result<(), Fail> {
    let alloc = rt.alloc();
    let bytes = pieces(alloc, &[("A{a:[ ", 1), ("A{},", 1_048_574)])?;
    assert_eq!(rt; answer_of(alloc, &bytes), Told::Syntax(column(4_194_303)));
    Ok(())
}
