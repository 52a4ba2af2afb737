//! Paths that a document spells.

ghost use Rattle.std.specs.Prelude.{◌≡◌, ◌++◌, codes, IfOk};
ghost use Rattle.program_names.specs.Paths.{joined_to as joined};
ghost use Rattle.program_names.specs.Types.{is_script_text as names_script};
ghost use Rattle.program_names.specs.Utf8.{utf8_of};
ghost use Rattle.file_paths.specs.Ascii.{SpellsAscii};

use crate::paths::joined_to;
use qml_base::NoMemory;
use qml_text::Text;
use std::alloc::Global;

/// Whether the text of an import names a script file: one that ends in `.js`.
pub fn is_script_text(text: &Text) -> bool
    ensures { result ≡ names_script text.now }
{
    text.units().ends_with(&[46, 106, 115])
}

/// The file or the directory that the text of an import names, from the directory of its document.
pub fn path_of_text(alloc: Global, from: &[u8], text: &Text) -> Result<Vec<u8>, NoMemory>
    ensures { IfOk result (λ path. path.items ≡ joined from.now (utf8_of text.now)) }
{
    let Ok(spelt) = text.to_utf8(alloc) else {
        return Err(NoMemory);
    };
    joined_to(alloc, from, &spelt)
}

/// The file of a type in a directory.
pub fn path_of_type(alloc: Global, directory: &[u8], name: &Text) -> Result<Vec<u8>, NoMemory>
    ensures { IfOk result (λ path. path.items ≡ joined directory.now (utf8_of name.now ++ codes ".qml")) }
{
    let Ok(mut file) = name.to_utf8(alloc) else {
        return Err(NoMemory);
    };
    file.extend_from_slice(b".qml")?;
    joined_to(alloc, directory, &file)
}

/// The characters of a text, where all of them are below 128.
pub fn ascii_name(alloc: Global, text: &Text) -> Result<Option<String>, NoMemory>
    ensures { IfOk result (λ name. SpellsAscii text.now name) }
{
    let mut name = String::new(alloc);
    'units: for unit in text.units() {
        if *unit >= 128 {
            return Ok(None);
        }
        name.push(char::from(*unit as u8))?;
    }
    Ok(Some(name))
}
