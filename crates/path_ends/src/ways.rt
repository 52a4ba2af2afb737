//! Ways, and ends seen through an object.

ghost use Rattle.std.specs.Prelude.{◌≡◌, ◌++◌, IfOk};
ghost use Rattle.std.specs.Option.{option_map};
ghost use Rattle.program_names.specs.PathMeanings.{holder_in, way_to as way_to_object};
ghost use Rattle.path_ends.specs.Said.{way_of, seen_of, end_of};
ghost use Rattle.path_ends.specs.Ends as s;

use crate::ends::{Hop, PathEnd, SeenObject, Way};
use qml_base::NoMemory;
use std::alloc::Global;

fn copy_way(alloc: Global, way: &Way) -> Result<Way, NoMemory>
    ensures { IfOk result (λ w. way_of w ≡ way_of way.now) }
{
    let hops = Vec::from_slice(alloc, &way.hops)?;
    Ok(Way {
        base: way.base,
        hops,
    })
}

fn copy_holder(alloc: Global, holder: &Option<Way>) -> Result<Option<Way>, NoMemory>
    ensures { IfOk result (λ h. option_map way_of h ≡ option_map way_of holder.now) }
{
    match holder {
        Some(way) => {
            let copy = copy_way(alloc, way)?;
            Ok(Some(copy))
        }
        None => Ok(None),
    }
}

/// The hops of a way, and one more where the object isn't the root of its document.
fn hops_to(alloc: Global, way: &Way, document: usize, object: usize) -> Result<Vec<Hop>, NoMemory>
    ensures { IfOk result (λ hops. hops.items ≡ way.now.hops.items ++ s.hop_to document object) }
{
    let mut hops = Vec::from_slice(alloc, &way.hops)?;
    if object != 0 {
        hops.push((document, object))?;
    }
    Ok(hops)
}

/// The way to an object.
#[tactic(auto, using(crate::proofs::WayLemmas::way_here, crate::proofs::WayLemmas::way_inside))]
pub(crate) fn way_to(alloc: Global, seen: &SeenObject) -> Result<Way, NoMemory>
    ensures { IfOk result (λ w. way_of w ≡ way_to_object (seen_of seen.now)) }
{
    match &seen.holder {
        Some(holder) => {
            let hops = hops_to(alloc, holder, seen.document, seen.object)?;
            Ok(Way {
                base: holder.base,
                hops,
            })
        }
        None => Ok(Way {
            base: seen.object,
            hops: Vec::new(alloc),
        }),
    }
}

/// What an object is in the document of one of its layers.
#[tactic(auto, using(crate::proofs::WayLemmas::other_holder))]
pub(crate) fn holder_in(
    alloc: Global,
    seen: &SeenObject,
    document: usize,
) -> Result<Option<Way>, NoMemory>
    ensures { IfOk result (λ h. option_map way_of h ≡ holder_in (seen_of seen.now) document) }
{
    if document == seen.document {
        let holder = copy_holder(alloc, &seen.holder)?;
        Ok(holder)
    } else {
        let way = way_to(alloc, seen)?;
        Ok(Some(way))
    }
}

/// A way of a document, seen through the object that has the document as a type.
#[tactic(auto, using(crate::proofs::WayLemmas::through_none, crate::proofs::WayLemmas::through_some))]
fn way_through(
    alloc: Global,
    holder: &Option<Way>,
    document: usize,
    way: &Way,
) -> Result<Way, NoMemory>
    ensures { IfOk result (λ w.
        way_of w ≡ s.way_through (option_map way_of holder.now) document (way_of way.now)) }
{
    match holder {
        Some(holder) => {
            let mut hops = hops_to(alloc, holder, document, way.base)?;
            hops.extend_from_slice(&way.hops)?;
            Ok(Way {
                base: holder.base,
                hops,
            })
        }
        None => copy_way(alloc, way),
    }
}

fn holder_through(
    alloc: Global,
    holder: &Option<Way>,
    document: usize,
    inner: &Option<Way>,
) -> Result<Option<Way>, NoMemory>
    ensures { IfOk result (λ h. option_map way_of h ≡
        s.holder_through (option_map way_of holder.now) document (option_map way_of inner.now)) }
{
    match inner {
        Some(way) => {
            let way = way_through(alloc, holder, document, way)?;
            Ok(Some(way))
        }
        None => copy_holder(alloc, holder),
    }
}

fn seen_through(
    alloc: Global,
    holder: &Option<Way>,
    document: usize,
    seen: &SeenObject,
) -> Result<SeenObject, NoMemory>
    ensures { IfOk result (λ x.
        seen_of x ≡ s.seen_through (option_map way_of holder.now) document (seen_of seen.now)) }
{
    let holder = holder_through(alloc, holder, document, &seen.holder)?;
    Ok(SeenObject {
        holder,
        document: seen.document,
        object: seen.object,
    })
}

/// An end as a document sees it, seen through the object that has the document as a type.
pub(crate) fn end_through(
    alloc: Global,
    holder: &Option<Way>,
    document: usize,
    end: &PathEnd,
) -> Result<PathEnd, NoMemory>
    ensures { IfOk result (λ x.
        end_of x ≡ s.end_through (option_map way_of holder.now) document (end_of end.now)) }
{
    match end {
        PathEnd::Cell {
            way,
            place,
            kind,
            access,
        } => {
            let way = way_through(alloc, holder, document, way)?;
            Ok(PathEnd::Cell {
                way,
                place: *place,
                kind: *kind,
                access: *access,
            })
        }
        PathEnd::Object(seen) => {
            let seen = seen_through(alloc, holder, document, seen)?;
            Ok(PathEnd::Object(seen))
        }
        PathEnd::Nothing => Ok(PathEnd::Nothing),
        PathEnd::Circle => Ok(PathEnd::Circle),
    }
}
