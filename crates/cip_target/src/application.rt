//! The application path of an open.
ghost use Rattle.std.specs.Prelude.{◌≡◌};
ghost use Rattle.cip_segment.specs.Reading.{segments_of};
ghost use Rattle.cip_target.specs.ApplicationPath.{behind_key, bytes_in, application_with};
ghost use Rattle.cip_target.specs.ApplicationPath.{points_in, application_of};
ghost use Rattle.cip_target.specs.Seen.{bytes_seen};
ghost use Rattle.cip_target.specs.Viewed.{application_found, parts_of, first_seen, point_seen};
ghost use Rattle.cip_target.specs.Viewed.{IsFirst, IsFirstPoint};

use cip_segment::{PathView, SegmentView, split_first};

/// The Assembly class.
const ASSEMBLY: u16 = 4;

/// What an application path names (Volume 1, chapter 3, Forward_Open, connection path): the
/// instances for configuration, O→T and T→O, and the configuration bytes, borrowed.
#[derive(Clone, Copy)]
pub(crate) struct ApplicationView<'a> {
    pub(crate) config: u32,
    pub(crate) consume: u32,
    pub(crate) produce: u32,
    pub(crate) bytes: &'a [u8],
}

// The path behind a leading key, if there is one.
fn behind_key(path: PathView<'_>) -> PathView<'_>
    ensures { segments_of result.bytes.now ≡ behind_key (segments_of path.entry.bytes.now) }
{
    match split_first(path) {
        None => path,
        Some((first, rest)) => match first {
            SegmentView::Key(_) => rest,
            _ => path,
        },
    }
}

// The first segment that is no production inhibit, and what stands behind it.
fn split(path: PathView<'_>) -> Option<(SegmentView<'_>, PathView<'_>)>
    ensures { IsFirst (parts_of path.entry) (first_seen result) }
{
    let mut left = path;
    while let Some((first, rest)) = split_first(left) {
        match first {
            SegmentView::Inhibit(_) => left = rest,
            _ => return Some((first, rest)),
        }
    }
    None
}

// The point that stands first, if it is an instance or a connection point, and what stands behind
// it.
fn split_point(path: PathView<'_>) -> Option<(Option<u32>, PathView<'_>)>
    ensures { IsFirstPoint (parts_of path.entry) (point_seen result) }
{
    match split(path) {
        None => None,
        Some((first, rest)) => match first {
            SegmentView::Instance(number) => Some((Some(number), rest)),
            SegmentView::Point(number) => Some((Some(number), rest)),
            _ => Some((None, rest)),
        },
    }
}

// What stands behind the three points: nothing, or one simple data segment.
fn bytes_in(path: PathView<'_>) -> Option<&[u8]>
    ensures { bytes_seen result ≡ bytes_in (parts_of path.entry) }
{
    match split(path) {
        None => Some(&[]),
        Some((first, rest)) => match first {
            SegmentView::Words(bytes) => match split(rest) {
                None => Some(bytes),
                Some(_) => None,
            },
            _ => None,
        },
    }
}

fn application_with(
    config: Option<u32>,
    consume: Option<u32>,
    produce: Option<u32>,
    bytes: Option<&[u8]>,
) -> Option<ApplicationView<'_>>
    ensures { application_found result
        ≡ application_with config consume produce (bytes_seen bytes.entry) }
{
    Some(ApplicationView {
        config: config?,
        consume: consume?,
        produce: produce?,
        bytes: bytes?,
    })
}

// Behind the class: the three points, and what stands behind them.
fn points_in(path: PathView<'_>) -> Option<ApplicationView<'_>>
    ensures { application_found result ≡ points_in (parts_of path.entry) }
{
    let Some((config, rest)) = split_point(path) else {
        return None;
    };
    let Some((consume, rest)) = split_point(rest) else {
        return None;
    };
    let Some((produce, rest)) = split_point(rest) else {
        return None;
    };
    application_with(config, consume, produce, bytes_in(rest))
}

/// What a path names, if it is an application path: after a leading key, class 4, three points,
/// each an instance or a connection point, and perhaps one simple data segment. Production inhibit
/// segments are skipped wherever they stand.
pub(crate) fn application(path: PathView<'_>) -> Option<ApplicationView<'_>>
    ensures { application_found result ≡ application_of (segments_of path.entry.bytes.now) }
{
    match split(behind_key(path)) {
        None => None,
        Some((first, rest)) => match first {
            SegmentView::Class(ASSEMBLY) => points_in(rest),
            _ => None,
        },
    }
}
