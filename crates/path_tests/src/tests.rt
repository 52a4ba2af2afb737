//! Aliases of one document: the root has the id `r`, and object 1, an Item in it, the id `i`.

use alias_faults::{target_seen, tell_bad_aliases};
use alias_tables::{component_ids, object_of_id};
use document_components::document_ids;
use document_members::{Member, NamePath};
use document_rows::{MemberRow, ObjectRow};
use document_tables::DocumentTable;
use file_sources::Content;
use load_passes::Best;
use path_ends::{
    PathEnd, SeenObject, UnitAliases, UnitEnds, UnitIds, alias_ends, end_of_path, unit_aliases,
};
use program_names::Fault;
use program_paths::program_paths;
use program_tables::{BuiltInNames, Names, UnitRow, unit_names};
use qml_base::{LoadCause, Place};
use qml_text::Text;
use qml_types::{PropKind, TypeNo, TypeRef};
use std::alloc::Global;
use std::rc::Rc;
use std::test::Fail;

fn place() -> Place {
    Place { line: 1, column: 1 }
}

fn row(object: usize, member: Member) -> UnitRow {
    UnitRow {
        row: MemberRow {
            node: 0,
            object,
            group: None,
            first: 1,
        },
        member,
        kind: PropKind::Int,
    }
}

fn id(alloc: Global, object: usize, name: &[u8]) -> Result<UnitRow, Fail> {
    let name = Text::from_utf8(alloc, name)?;
    Ok(row(
        object,
        Member::Id {
            word: place(),
            name,
            at: place(),
        },
    ))
}

/// An alias of the root.
fn alias(alloc: Global, name: &[u8], first: &[u8], rest: &[&[u8]]) -> Result<UnitRow, Fail> {
    let name = Text::from_utf8(alloc, name)?;
    let first = Text::from_utf8(alloc, first)?;
    let mut names = Vec::new(alloc);
    for part in rest {
        names.push(Text::from_utf8(alloc, part)?)?;
    }
    let target = NamePath {
        first,
        at: place(),
        rest: names,
    };
    Ok(row(
        0,
        Member::Alias {
            at: place(),
            default: false,
            name,
            name_at: place(),
            target,
        },
    ))
}

/// The tables of one document.
#[derive(Drop)]
struct Tables {
    names: Names,
    ids: Vec<UnitIds>,
    aliases: Vec<UnitAliases>,
}

fn make_tables(alloc: Global, rows: &[UnitRow]) -> Result<Tables, Fail> {
    let item = TypeRef::Builtin(TypeNo::Item);
    let mut units = Vec::new(alloc);
    units.push(unit_names(alloc, &[item, item], rows)?)?;
    let roots = Vec::from_slice(alloc, &[0, 0])?;
    let own = component_ids(alloc, rows, &roots)?;
    let mut ids = Vec::new(alloc);
    ids.push(UnitIds { roots, ids: own })?;
    let mut aliases = Vec::new(alloc);
    aliases.push(unit_aliases(alloc, rows)?)?;
    let names = Names {
        built_in: BuiltInNames::new(alloc)?,
        units,
    };
    Ok(Tables {
        names,
        ids,
        aliases,
    })
}

fn known(alloc: Global, tables: &Tables) -> Result<Vec<UnitEnds>, Fail> {
    Ok(alias_ends(alloc, &tables.names, &tables.ids, &tables.aliases)?)
}

/// Where a path from the root ends.
fn end(alloc: Global, rows: &[UnitRow], path: &[&[u8]]) -> Result<PathEnd, Fail> {
    let tables = make_tables(alloc, rows)?;
    let known = known(alloc, &tables)?;
    let mut names = Vec::new(alloc);
    for part in path {
        names.push(Text::from_utf8(alloc, part)?)?;
    }
    let root = PathEnd::Object(SeenObject {
        holder: None,
        document: 0,
        object: 0,
    });
    Ok(end_of_path(alloc, &tables.names, &known, root, &names)?)
}

fn rows(alloc: Global) -> Result<Vec<UnitRow>, Fail> {
    let mut rows = Vec::new(alloc);
    rows.push(id(alloc, 0, b"r")?)?;
    rows.push(id(alloc, 1, b"i")?)?;
    rows.push(alias(alloc, b"a", b"r", &[b"b"])?)?;
    rows.push(alias(alloc, b"b", b"r", &[b"c", b"width"])?)?;
    rows.push(alias(alloc, b"c", b"i", &[])?)?;
    rows.push(alias(alloc, b"d", b"r", &[b"e"])?)?;
    rows.push(alias(alloc, b"e", b"r", &[b"f"])?)?;
    rows.push(alias(alloc, b"f", b"r", &[b"e"])?)?;
    rows.push(alias(alloc, b"g", b"r", &[b"h"])?)?;
    Ok(rows)
}

#[test]
fn an_alias_of_an_alias_of_an_object_ends_at_its_cell(rt: HostRuntime) -> Result<(), Fail> {
    let alloc = rt.alloc();
    let rows = rows(alloc)?;
    let base = base_of_int(&end(alloc, &rows, &[b"a"])?);
    assert!(rt; base == Some(1));
    Ok(())
}

/// The object of whose cell this is the end, where the cell is an int.
fn base_of_int(end: &PathEnd) -> Option<usize> {
    match end {
        PathEnd::Cell {
            way,
            place: _,
            kind: PropKind::Int,
            access: _,
        } => Some(way.base),
        _ => None,
    }
}

#[test]
fn circles_and_what_leads_into_them_are_told(rt: HostRuntime) -> Result<(), Fail> {
    let alloc = rt.alloc();
    let rows = rows(alloc)?;
    assert!(rt; matches!(end(alloc, &rows, &[b"d"])?, PathEnd::Circle));
    assert!(rt; matches!(end(alloc, &rows, &[b"f", b"x"])?, PathEnd::Circle));
    assert!(rt; matches!(end(alloc, &rows, &[b"g"])?, PathEnd::Nothing));
    assert!(rt; matches!(end(alloc, &rows, &[b"c"])?, PathEnd::Object(_)));
    Ok(())
}

#[test]
fn an_alias_that_ends_at_nothing_is_told(rt: HostRuntime) -> Result<(), Fail> {
    let alloc = rt.alloc();
    let rows = rows(alloc)?;
    let tables = make_tables(alloc, &rows)?;
    let known = known(alloc, &tables)?;
    let mut best = Best::new();
    for unit in tables.aliases.as_slice() {
        tell_bad_aliases(&known, 0, &unit.rows, &mut best);
    }
    let told = Fault {
        at: place(),
        cause: LoadCause::BadAlias,
    };
    assert_eq!(rt; best.fault, Some(told));
    Ok(())
}

#[test]
fn a_target_is_an_id_that_no_name_hides(rt: HostRuntime) -> Result<(), Fail> {
    let alloc = rt.alloc();
    let rows = rows(alloc)?;
    let tables = make_tables(alloc, &rows)?;
    let owners = [None, Some(0)];
    let i = Text::from_utf8(alloc, b"i")?;
    let x = Text::from_utf8(alloc, b"x")?;
    let mut found = None;
    let mut hidden = Some(0);
    for ids in tables.ids.as_slice() {
        found = target_seen(&tables.names, ids, &owners, 0, 1, &i)?;
        hidden = target_seen(&tables.names, ids, &owners, 0, 1, &x)?;
    }
    assert!(rt; found == Some(1));
    assert!(rt; hidden == None);
    Ok(())
}

#[test]
fn what_a_component_holds_has_ids_of_its_own(rt: HostRuntime) -> Result<(), Fail> {
    let alloc = rt.alloc();
    let mut rows = Vec::new(alloc);
    rows.push(id(alloc, 0, b"r")?)?;
    rows.push(row(0, Member::Child { object: 0 }))?;
    rows.push(id(alloc, 1, b"i")?)?;
    let component = TypeRef::Builtin(TypeNo::Component);
    let item = TypeRef::Builtin(TypeNo::Item);
    let mut units = Vec::new(alloc);
    units.push(unit_names(alloc, &[component, item], &rows)?)?;
    let names = Names {
        built_in: BuiltInNames::new(alloc)?,
        units,
    };
    let objects = [
        ObjectRow { node: 0, row: None },
        ObjectRow {
            node: 0,
            row: Some(1),
        },
    ];
    let made = document_ids(alloc, &names, 0, &objects, &rows)?;
    let i = Text::from_utf8(alloc, b"i")?;
    let mut inner = None;
    let mut outer = Some(0);
    if let Some(ids) = made {
        inner = object_of_id(&ids.ids, 1, &i);
        outer = object_of_id(&ids.ids, 0, &i);
    }
    assert!(rt; inner == Some(1));
    assert!(rt; outer == None);
    Ok(())
}

#[test]
fn paths_of_a_program_are_followed_by_its_rows(rt: HostRuntime) -> Result<(), Fail> {
    let alloc = rt.alloc();
    let mut rows = Vec::new(alloc);
    rows.push(id(alloc, 0, b"r")?)?;
    rows.push(alias(alloc, b"a", b"r", &[b"width"])?)?;
    let item = TypeRef::Builtin(TypeNo::Item);
    let mut units = Vec::new(alloc);
    units.push(unit_names(alloc, &[item], &rows)?)?;
    let names = Names {
        built_in: BuiltInNames::new(alloc)?,
        units,
    };
    let mut objects = Vec::new(alloc);
    objects.push(ObjectRow { node: 0, row: None })?;
    let mut documents = Vec::new(alloc);
    documents.push(DocumentTable {
        content: Rc::new(alloc, Content::Missing)?,
        objects,
        rows,
        inside: Vec::new(alloc),
    })?;
    let mut base = None;
    if let Some(paths) = program_paths(alloc, &names, &documents)? {
        base = end_of_alias(alloc, &names, &paths.ends)?;
    }
    assert!(rt; base == Some(0));
    Ok(())
}

/// The object of whose int the alias `a` of the first document's root is.
fn end_of_alias(alloc: Global, names: &Names, ends: &[UnitEnds]) -> Result<Option<usize>, Fail> {
    let mut path = Vec::new(alloc);
    path.push(Text::from_utf8(alloc, b"a")?)?;
    let root = PathEnd::Object(SeenObject {
        holder: None,
        document: 0,
        object: 0,
    });
    let end = end_of_path(alloc, names, ends, root, &path)?;
    Ok(base_of_int(&end))
}
