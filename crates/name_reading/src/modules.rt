//! Modules and scripts that are imported.

ghost use Rattle.std.specs.Prelude.{◌≡◌, ◌++◌, IfOk, OnOk};
ghost use Rattle.std.specs.Option.{option_to_list};
ghost use Rattle.qml_types.specs.Table.{is_offering, offers};
ghost use Rattle.document_imports.specs.Imports.{row_value, row_values};
ghost use Rattle.read_order.specs.Order.{files_of};
ghost use Rattle.name_reading.specs.NamesRead.{fault_of_row, module_fault as fault_by, script_of_row, scripts_of as scripts_by};

use document_imports::{ImportRow, ImportSource};
use file_paths::ascii_name;
use program_names::Fault;
use qml_base::{LoadCause, NoMemory};
use qml_text::Text;
use qml_types::is_module;
use read_order::File;
use std::alloc::Global;

fn is_offered(alloc: Global, name: &Text) -> Result<bool, NoMemory>
    ensures { IfOk result (λ b. b ≡ is_offering offers name.now) }
{
    match ascii_name(alloc, name)? {
        Some(ascii) => Ok(is_module(&ascii)),
        None => Ok(false),
    }
}

fn row_fault(alloc: Global, row: &ImportRow) -> Result<Option<Fault>, NoMemory>
    ensures { IfOk result (λ f. f ≡ fault_of_row (row_value row.now)) }
{
    match &row.source {
        ImportSource::Module(name) => {
            if is_offered(alloc, name)? {
                Ok(None)
            } else {
                Ok(Some(Fault {
                    at: row.at,
                    cause: LoadCause::UnknownModule,
                }))
            }
        }
        ImportSource::Directory(_) => Ok(None),
        ImportSource::Script(_) => Ok(None),
    }
}

/// The fault of the first import of a module that isn't there.
pub fn module_fault(alloc: Global, rows: &[ImportRow]) -> Result<Option<Fault>, NoMemory>
    ensures { IfOk result (λ f. f ≡ fault_by (row_values rows.now)) }
{
    'rows: for row in rows {
        if let Some(fault) = row_fault(alloc, row)? {
            return Ok(Some(fault));
        }
    }
    Ok(None)
}

fn push_script(alloc: Global, row: &ImportRow, scripts: &mut Vec<File>) -> Result<(), NoMemory>
    ensures { OnOk result (files_of scripts.new.items ≡
        files_of scripts.old.items ++ option_to_list (script_of_row (row_value row.now))) }
{
    if let ImportSource::Script(path) = &row.source {
        scripts.push(File {
            is_script: true,
            path: Vec::from_slice(alloc, path)?,
        })?;
    }
    Ok(())
}

/// The scripts that are imported.
pub fn scripts_of(alloc: Global, rows: &[ImportRow]) -> Result<Vec<File>, NoMemory>
    ensures { IfOk result (λ scripts. files_of scripts.items ≡ scripts_by (row_values rows.now)) }
{
    let mut scripts = Vec::new(alloc);
    'rows: for row in rows {
        push_script(alloc, row, &mut scripts)?;
    }
    Ok(scripts)
}
