//! Paths in words.
ghost use Rattle.std.specs.Prelude.{◌≡◌, ◌<◌, ◌≤◌, length, All, IfOk, IfErr, MatchResult};
ghost use Rattle.cip_segment.specs.Short.{IsWritable};
ghost use Rattle.cip_tool.specs.Routes.{route_of, Routes, IsPathOf, IsPathFault};

use crate::fault::RouteFault;
use crate::reading::read_words;
use crate::words::parts_of;
use cip_segment::{Path, PathFault, Segment, write_path};
use std::alloc::Global;

/// The segments that a path in words names. Its words have commas between them: `PORT,ADDRESS` is a
/// hop, `@CLASS/INSTANCE/ATTRIBUTE` an object or a part of one, `NAME=VALUE` any other segment; `-`
/// is the empty path. Word is the first word that names nothing, from 1, and why; NoMemory where an
/// allocation is refused.
pub fn read_route(alloc: Global, text: &str) -> Result<Vec<Segment>, RouteFault>
    ensures gives { Routes (λ v. v.items) result (route_of text.now) }
    ensures writable { IfOk result (λ v. All IsWritable v.items) }
{
    if text == "-" {
        return Ok(Vec::new(alloc));
    }
    let words = parts_of(alloc, text, ',')?;
    read_words(alloc, words.as_slice())
}

/// The path that a path in words names, in its shortest spelling: it is read as just those
/// segments. The faults are those of `read_route`, and TooLong where it would have more than 510
/// bytes.
pub fn route_path(alloc: Global, text: &str) -> Result<Path, RouteFault>
    ensures path { IfOk result (λ path. IsPathOf text.now path) }
    ensures fault { IfErr result (IsPathFault text.now) }
{
    let segments = read_route(alloc, text)?;
    match write_path(alloc, segments.as_slice()) {
        Ok(path) => Ok(path),
        Err(PathFault::NoMemory) => Err(RouteFault::NoMemory),
        Err(_) => Err(RouteFault::TooLong),
    }
}
