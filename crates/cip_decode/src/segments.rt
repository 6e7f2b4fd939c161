//! The segments of a path as a text.
use crate::bytes::Pairs;
use crate::fields::write_field;
use cip_base::{KeyFields, PortNumber};
use cip_segment::{PathView, SegmentView, split_first};
use std::fmt::{self, Display};

// Whether each byte is a visible character but the quotation mark.
fn is_printable(bytes: &[u8]) -> bool {
    bytes
        .iter()
        .all(|byte| 0x21 <= *byte && *byte <= 0x7E && *byte != 0x22)
}

// Visible characters, all at once.
fn write_characters<W: fmt::Write>(bytes: &[u8], f: &mut fmt::Formatter<W>) -> fmt::Result {
    if let Ok(text) = std::str::from_utf8(bytes) {
        return f.write_str(text);
    }
    for byte in bytes {
        write!(f, "{}", char::from(*byte))?;
    }
    Ok(())
}

/// A link address or a symbol: one byte as its digits, more of them as a text in quotation marks
/// where each is a visible character.
#[derive(Clone, Copy)]
pub(crate) struct Characters<'a>(pub &'a [u8]);

impl fmt::Display for Characters<'_> {
    fn fmt<W: fmt::Write>(&self, f: &mut fmt::Formatter<W>) -> fmt::Result {
        if self.0.len() < 2 || !is_printable(self.0) {
            return write!(f, "{}", Pairs(self.0));
        }
        f.write_str("\"")?;
        write_characters(self.0, f)?;
        f.write_str("\"")
    }
}

// An electronic key.
#[derive(Clone, Copy)]
struct KeyText(KeyFields);

// What stands behind the revision of a key that a compatible device fits.
fn compatible_text(compatible: bool) -> &'static str {
    if compatible { " compatible" } else { "" }
}

impl fmt::Display for KeyText {
    fn fmt<W: fmt::Write>(&self, f: &mut fmt::Formatter<W>) -> fmt::Result {
        let KeyFields {
            vendor,
            device_type,
            product,
            major,
            minor,
        } = self.0;
        let revision = major % 128;
        let compatible = compatible_text(128 <= major);
        write!(
            f,
            "key vendor {vendor} type {device_type} product {product} \
            revision {revision}.{minor}{compatible}"
        )
    }
}

// A port and the address behind it.
fn write_hop<W: fmt::Write>(
    port: PortNumber,
    address: &[u8],
    f: &mut fmt::Formatter<W>,
) -> fmt::Result {
    write!(f, "port {} address {}", port.get(), Characters(address))
}

fn write_inhibit<W: fmt::Write>(time: u8, f: &mut fmt::Formatter<W>) -> fmt::Result {
    write!(f, "inhibit {time} ms")
}

// A segment.
#[derive(Clone, Copy)]
struct SegmentText<'a>(SegmentView<'a>);

impl fmt::Display for SegmentText<'_> {
    fn fmt<W: fmt::Write>(&self, f: &mut fmt::Formatter<W>) -> fmt::Result {
        match self.0 {
            SegmentView::Port(port, address) => write_hop(port, address, f),
            SegmentView::Class(number) => write_field("class ", number, f),
            SegmentView::Instance(number) => write_field("instance ", number, f),
            SegmentView::Member(number) => write_field("member ", number, f),
            SegmentView::Point(number) => write_field("point ", number, f),
            SegmentView::Attribute(number) => write_field("attribute ", number, f),
            SegmentView::Key(key) => KeyText(key).fmt(f),
            SegmentView::Words(bytes) => write_field("data ", Pairs(bytes), f),
            SegmentView::Symbol(name) => write_field("symbol ", Characters(name), f),
            SegmentView::Inhibit(time) => write_inhibit(time, f),
        }
    }
}

/// A path, segment by segment.
#[derive(Clone, Copy)]
pub struct PathText<'a>(pub PathView<'a>);

impl fmt::Display for PathText<'_> {
    fn fmt<W: fmt::Write>(&self, f: &mut fmt::Formatter<W>) -> fmt::Result {
        if self.0.bytes.is_empty() {
            return f.write_str("nothing");
        }
        let mut rest = self.0;
        while let Some((first, after)) = split_first(rest) {
            if rest.bytes.len() < self.0.bytes.len() {
                f.write_str(", ")?;
            }
            SegmentText(first).fmt(f)?;
            rest = after;
        }
        Ok(())
    }
}
