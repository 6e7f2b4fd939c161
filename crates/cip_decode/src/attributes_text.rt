//! What the bytes of attributes say, as a text and as JSON.
use crate::attributes::{AttributeView, AttributesView, IdentityView};
use crate::bytes::{Pairs, front};
use cip_base::NoMemory;
use cip_text::Draft;
use std::fmt;

// A product name, whose characters are from 20 to 7E.
fn name_text(name: &[u8]) -> &str {
    match std::str::from_utf8(name) {
        Ok(text) => text,
        Err(_) => "?",
    }
}

#[derive(Clone, Copy)]
struct IdentityText<'a>(IdentityView<'a>);

impl fmt::Display for IdentityText<'_> {
    fn fmt<W: fmt::Write>(&self, f: &mut fmt::Formatter<W>) -> fmt::Result {
        let view = self.0;
        let (vendor, device_type, product) = (view.vendor, view.device_type, view.product);
        let (major, minor, status) = (view.major, view.minor, view.status);
        let serial = view.serial;
        let name = name_text(view.name);
        write!(
            f,
            "vendor {vendor}, device type {device_type}, product code {product}, "
        )?;
        write!(f, "revision {major}.{minor}, status {status:04X}, ")?;
        write!(f, "serial number {serial}, product name \"{name}\"")
    }
}

#[derive(Clone, Copy)]
struct OneText<'a>(AttributeView<'a>);

impl fmt::Display for OneText<'_> {
    fn fmt<W: fmt::Write>(&self, f: &mut fmt::Formatter<W>) -> fmt::Result {
        match self.0 {
            AttributeView::Vendor(number) => write!(f, "vendor {number}"),
            AttributeView::DeviceType(number) => write!(f, "device type {number}"),
            AttributeView::Product(number) => write!(f, "product code {number}"),
            AttributeView::Revision(major, minor) => write!(f, "revision {major}.{minor}"),
            AttributeView::Status(status) => write!(f, "status {status:04X}"),
            AttributeView::Serial(number) => write!(f, "serial number {number}"),
            AttributeView::Name(name) => write!(f, "product name \"{}\"", name_text(name)),
        }
    }
}

impl fmt::Display for AttributesView<'_> {
    fn fmt<W: fmt::Write>(&self, f: &mut fmt::Formatter<W>) -> fmt::Result {
        match *self {
            AttributesView::Identity(view) => write!(f, "Identity: {}", IdentityText(view)),
            AttributesView::OfIdentity(view) => write!(f, "Identity: {}", OneText(view)),
            AttributesView::Assembly(instance, bytes) => {
                let length = bytes.len();
                let shown = front(bytes);
                let more = if shown.len() < length { ".." } else { "" };
                write!(
                    f,
                    "assembly {instance}: {length} bytes {}{more}",
                    Pairs(shown)
                )
            }
        }
    }
}

// A product name as the member `name`, the last of an object.
fn put_product_name(text: &mut Draft, before: &str, name: &[u8]) -> Result<(), NoMemory> {
    text.put(before)?;
    text.put_quoted(name_text(name))
}

fn put_identity(text: &mut Draft, view: IdentityView<'_>) -> Result<(), NoMemory> {
    text.put_count(
        "{\"identity\":{\"device_type\":",
        u64::from(view.device_type),
    )?;
    text.put_count(",\"major\":", u64::from(view.major))?;
    text.put_count(",\"minor\":", u64::from(view.minor))?;
    put_product_name(text, ",\"name\":", view.name)?;
    text.put_count(",\"product\":", u64::from(view.product))?;
    text.put_count(",\"serial\":", u64::from(view.serial))?;
    text.put_count(",\"status\":", u64::from(view.status))?;
    text.put_count(",\"vendor\":", u64::from(view.vendor))?;
    text.put("}}")
}

fn put_one(text: &mut Draft, view: AttributeView<'_>) -> Result<(), NoMemory> {
    text.put("{\"identity\":{\"")?;
    match view {
        AttributeView::Vendor(number) => text.put_count("vendor\":", u64::from(number))?,
        AttributeView::DeviceType(number) => text.put_count("device_type\":", u64::from(number))?,
        AttributeView::Product(number) => text.put_count("product\":", u64::from(number))?,
        AttributeView::Revision(major, minor) => {
            text.put_count("major\":", u64::from(major))?;
            text.put_count(",\"minor\":", u64::from(minor))?;
        }
        AttributeView::Status(status) => text.put_count("status\":", u64::from(status))?,
        AttributeView::Serial(number) => text.put_count("serial\":", u64::from(number))?,
        AttributeView::Name(name) => put_product_name(text, "name\":", name)?,
    }
    text.put("}}")
}

/// Puts what attributes say behind a text: an object with `identity`, and in it the members of one
/// attribute or of all, or with `assembly`, its `data` and `instance`. NoMemory where an allocation
/// is refused.
pub fn put_attributes_json(text: &mut Draft, view: &AttributesView<'_>) -> Result<(), NoMemory> {
    match *view {
        AttributesView::Identity(view) => put_identity(text, view),
        AttributesView::OfIdentity(view) => put_one(text, view),
        AttributesView::Assembly(instance, bytes) => {
            text.put("{\"assembly\":{\"data\":\"")?;
            text.put_pairs(bytes)?;
            text.put_count("\",\"instance\":", u64::from(instance))?;
            text.put("}}")
        }
    }
}
