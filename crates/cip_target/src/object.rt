//! The object that a request names.
ghost use Rattle.std.specs.Prelude.{◌≡◌, ◌≤◌, length, IfSome};
ghost use Rattle.cip_segment.specs.Reading.{segments_of};
ghost use Rattle.cip_target.specs.Object.{attribute_in, instance_in, object_of};

use cip_segment::{PathView, SegmentView, split_first};

/// A class, an instance and perhaps an attribute (Volume 1, Appendix C, logical segments).
#[derive(Clone, Copy, Debug, PartialEq, Eq)]
pub struct ObjectPath {
    pub class_: u16,
    pub instance: u32,
    pub attribute: Option<u16>,
}

// What stands behind class and instance: nothing, or one attribute.
fn attribute_in(path: PathView<'_>) -> Option<Option<u16>>
    ensures { result ≡ attribute_in (segments_of path.entry.bytes.now) }
{
    match split_first(path) {
        None => Some(None),
        Some((first, rest)) => match first {
            SegmentView::Attribute(attribute) => match split_first(rest) {
                None => Some(Some(attribute)),
                Some(_) => None,
            },
            _ => None,
        },
    }
}

// What stands behind the class: an instance, and perhaps an attribute.
fn instance_in(class_: u16, path: PathView<'_>) -> Option<ObjectPath>
    ensures least { IfSome result (λ _. 2 ≤ length path.entry.bytes.now) }
    ensures value { result ≡ instance_in class_ (segments_of path.entry.bytes.now) }
{
    match split_first(path) {
        None => None,
        Some((first, rest)) => match first {
            SegmentView::Instance(instance) => match attribute_in(rest) {
                None => None,
                Some(attribute) => Some(ObjectPath {
                    class_,
                    instance,
                    attribute,
                }),
            },
            _ => None,
        },
    }
}

/// The object that a path names: exactly a class, an instance and perhaps an attribute, in any
/// spelling.
#[inline(always)]
pub fn object_path(path: PathView<'_>) -> Option<ObjectPath>
    ensures least { IfSome result (λ _. 4 ≤ length path.entry.bytes.now) }
    ensures value { result ≡ object_of (segments_of path.entry.bytes.now) }
{
    match split_first(path) {
        None => None,
        Some((first, rest)) => match first {
            SegmentView::Class(class_) => instance_in(class_, rest),
            _ => None,
        },
    }
}
