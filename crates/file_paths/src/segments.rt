//! Segments of a path, and what is entered by them.

ghost use Rattle.std.specs.Prelude.{◌≡◌, ◌∷◌, ◌<◌, length, map, reverse, codes, IfOk, IfSome, OnOk, option_copied};
ghost use Rattle.program_names.specs.Paths.{segments, joined as joined_by_slashes};
ghost use Rattle.file_paths.specs.Segments.{segments_behind, up as gone_up, enter as entering, resolved_from};

use qml_base::NoMemory;
use std::alloc::Global;

const SLASH: u8 = b'/';

const HERE: &[u8] = b".";

const UP: &[u8] = b"..";

/// What stands before the first slash, and what stands behind it, if there is one.
fn first_segment(path: &[u8]) -> (&[u8], Option<&[u8]>)
    ensures cut { segments path.now ≡ result.0.now ∷ segments_behind (option_copied result.1) }
    ensures shorter { IfSome result.1 (λ behind. length behind.now < length path.now) }
{
    'bytes: for (at, byte) in path.iter().enumerate() {
        if *byte == SLASH {
            return (&path[..at], Some(&path[at + 1..]));
        }
    }
    (path, None)
}

/// Leaves the nearest segment by `..`.
fn go_up<'a>(before: &mut Vec<&'a [u8]>, is_absolute: bool) -> Result<(), NoMemory>
    ensures { OnOk result (reverse (map (λ s. s.now) before.new.items) ≡
        gone_up is_absolute (reverse (map (λ s. s.now) before.old.items))) }
{
    match before.pop() {
        None => {
            if !is_absolute {
                before.push(UP)?;
            }
        }
        Some(nearest) => {
            if nearest == UP {
                before.push(nearest)?;
                before.push(UP)?;
            }
        }
    }
    Ok(())
}

/// Enters a segment.
fn enter<'a>(
    before: &mut Vec<&'a [u8]>,
    is_absolute: bool,
    segment: &'a [u8],
) -> Result<(), NoMemory>
    ensures { OnOk result (reverse (map (λ s. s.now) before.new.items) ≡
        entering is_absolute segment.now (reverse (map (λ s. s.now) before.old.items))) }
{
    if segment == HERE {
        return Ok(());
    }
    if segment == UP {
        return go_up(before, is_absolute);
    }
    before.push(segment)?;
    Ok(())
}

/// The segments with a slash between two of them.
fn joined(alloc: Global, parts: &[&[u8]]) -> Result<Vec<u8>, NoMemory>
    ensures { IfOk result (λ path. path.items ≡ joined_by_slashes (map (λ s. s.now) parts.now)) }
{
    let Some((first, rest)) = parts.split_first() else {
        return Ok(Vec::new(alloc));
    };
    let mut path = Vec::from_slice(alloc, first)?;
    'parts: for part in rest {
        path.push(SLASH)?;
        path.extend_from_slice(part)?;
    }
    Ok(path)
}

/// The path without `.`, and without `..` as far as something stands before it.
pub fn entered(alloc: Global, path: &[u8], is_absolute: bool) -> Result<Vec<u8>, NoMemory>
    ensures { IfOk result (λ entered. entered.items ≡ resolved_from is_absolute (segments path.now)) }
{
    let mut before: Vec<&[u8]> = Vec::new(alloc);
    let mut rest = Some(path);
    'segments: while let Some(piece) = rest {
        let (segment, behind) = first_segment(piece);
        enter(&mut before, is_absolute, segment)?;
        rest = behind;
    }
    joined(alloc, &before)
}
