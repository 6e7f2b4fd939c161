//! The names of frames.

/// The name of a frame: the entry that sent it, and its place among that entry's outputs, both from
/// 0. Frames are ordered by entry, then by place.
#[derive(Clone, Copy, Debug, PartialEq, Eq, PartialOrd, Ord)]
pub struct FrameName {
    pub entry: usize,
    pub output: usize,
}
