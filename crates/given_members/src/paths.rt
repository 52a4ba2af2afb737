//! The whole paths of rows.

ghost use Rattle.std.specs.Prelude.{◌≡◌, ◌++◌, map, IfOk, OnOk};
ghost use Rattle.document_rows.specs.WholePaths.{path_at};
ghost use Rattle.document_members.specs.Members.{added_by, names_of};
ghost use Rattle.given_members.specs.Paths.{names_in_path};

use document_members::{Member, NamePath};
use qml_base::NoMemory;
use qml_text::Text;
use std::alloc::Global;
use type_uses::copied;

/// The names of the groups around a row, where these are the whole paths of the rows before it.
pub(crate) fn names_before(paths: &[Vec<Text>], group: Option<usize>) -> &[Text]
    ensures { result.now ≡ path_at (map names_in_path paths.now) group }
{
    match group {
        Some(row) => path_of_row(paths, row),
        None => &[],
    }
}

fn path_of_row(paths: &[Vec<Text>], row: usize) -> &[Text]
    ensures { result.now ≡ path_at (map names_in_path paths.now) (Some row) }
{
    match paths.get(row) {
        Some(path) => path.as_slice(),
        None => &[],
    }
}

/// Adds copies of some names.
#[tactic(auto, using(crate::proofs::PathLemmas::one_more, crate::proofs::PathLemmas::all_done))]
fn push_names(alloc: Global, names: &[Text], path: &mut Vec<Text>) -> Result<(), NoMemory>
    ensures { OnOk result (path.new.items ≡ path.old.items ++ names.now) }
{
    'names: for name in names {
        let name = copied(alloc, name)?;
        path.push(name)?;
    }
    Ok(())
}

fn push_path(alloc: Global, added: &NamePath, path: &mut Vec<Text>) -> Result<(), NoMemory>
    ensures { OnOk result (path.new.items ≡ path.old.items ++ names_of added.now) }
{
    let first = copied(alloc, &added.first)?;
    path.push(first)?;
    push_names(alloc, &added.rest, path)?;
    Ok(())
}

/// Adds the names that a member adds for those in it.
fn push_added(alloc: Global, member: &Member, path: &mut Vec<Text>) -> Result<(), NoMemory>
    ensures { OnOk result (path.new.items ≡ path.old.items ++ added_by member.now) }
{
    match member {
        Member::Group { path: added } => push_path(alloc, added, path),
        _ => Ok(()),
    }
}

/// The whole path of a member behind these names.
pub(crate) fn whole_path(
    alloc: Global,
    before: &[Text],
    member: &Member,
) -> Result<Vec<Text>, NoMemory>
    ensures { IfOk result (λ path. names_in_path path ≡ before.now ++ added_by member.now) }
{
    let mut path = Vec::new(alloc);
    push_names(alloc, before, &mut path)?;
    push_added(alloc, member, &mut path)?;
    Ok(path)
}
