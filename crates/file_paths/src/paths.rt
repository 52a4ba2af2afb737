//! Directories, and paths that are found from them.

ghost use Rattle.std.specs.Prelude.{◌≡◌, [], ◌∷◌, ◌++◌, codes, if◌then◌else◌, IfOk};
ghost use Rattle.std.specs.Str.{bytes_eq};
ghost use Rattle.program_names.specs.Paths.{is_absolute as begins_at_root, resolved as resolved_path, directory_of as directory, joined_to as joined};

use crate::segments::entered;
use qml_base::NoMemory;
use std::alloc::Global;

const ROOT: &[u8] = b"/";

fn is_absolute(path: &[u8]) -> bool
    ensures { result ≡ begins_at_root path.now }
{
    match path.first() {
        Some(byte) => *byte == b'/',
        None => false,
    }
}

/// The path without `.`, and without `..` as far as something stands before it.
fn resolved(alloc: Global, path: &[u8]) -> Result<Vec<u8>, NoMemory>
    ensures { IfOk result (λ found. found.items ≡ resolved_path path.now) }
{
    if !is_absolute(path) {
        return entered(alloc, path, false);
    }
    let behind = entered(alloc, &path[1..], true)?;
    let mut found = Vec::from_slice(alloc, ROOT)?;
    found.extend_from_slice(&behind)?;
    Ok(found)
}

/// The directory of a file: what stands before the last `/` of its path, `/` itself where that is nothing, and nothing
/// where there is no `/`.
pub fn directory_of(path: &[u8]) -> &[u8]
    ensures { result.now ≡ directory path.now }
{
    let mut rest = path;
    'bytes: while let Some((last, front)) = rest.split_last() {
        if *last == b'/' {
            return if front.is_empty() { ROOT } else { front };
        }
        rest = front;
    }
    rest
}

/// What stands before the `/` that joins a path to a directory.
fn stem(directory: &[u8]) -> &[u8]
    ensures { result.now ≡ (if bytes_eq directory.now (codes "/") then [] else directory.now) }
{
    if directory == ROOT { b"" } else { directory }
}

/// A path behind a directory and `/`.
fn behind(alloc: Global, from: &[u8], path: &[u8]) -> Result<Vec<u8>, NoMemory>
    ensures { IfOk result (λ whole. whole.items ≡
        (if bytes_eq from.now (codes "/") then [] else from.now) ++ 47 ∷ path.now) }
{
    let mut whole = Vec::from_slice(alloc, stem(from))?;
    whole.extend_from_slice(ROOT)?;
    whole.extend_from_slice(path)?;
    Ok(whole)
}

/// A path as it is found from a directory: joined to it by `/`, and alone where it begins with `/`. Segments `.` are
/// dropped, and `..` with what stands before it; an empty segment stays.
pub fn joined_to(alloc: Global, from: &[u8], path: &[u8]) -> Result<Vec<u8>, NoMemory>
    ensures { IfOk result (λ found. found.items ≡ joined from.now path.now) }
{
    if is_absolute(path) || from.is_empty() {
        return resolved(alloc, path);
    }
    let whole = behind(alloc, from, path)?;
    resolved(alloc, &whole)
}
