//! What is written of a path is read as the path.
ghost use Rattle.std.specs.Prelude.{◌≡◌, List, All, Ok};
ghost use Rattle.cip_segment.specs.declared.segment.Segment.{Segment as Piece};
ghost use Rattle.cip_segment.specs.Short.{IsRanged, IsWritable};
ghost use Rattle.cip_tool.specs.Routes.{route_of};
ghost use Rattle.cip_tool.specs.Spelling.{spelling_of, HasBytes};

/// Segments that can be written, of numbers and bytes within their types, are read in their
/// spelling.
pub fn spelled_paths_are_read()
    ensures { (s : List Piece) → All IsRanged s → All HasBytes s → All IsWritable s
        → route_of (spelling_of s) ≡ Ok s }
{}
