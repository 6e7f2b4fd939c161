//! The attributes of Identity and Assembly: which of them a request asks for or sets, and what
//! their bytes say.
ghost use Rattle.std.specs.Prelude.{◌≡◌, option_map};
ghost use Rattle.cip_decode.specs.Attributes.{got_of, got_by, got_at, carried};
ghost use Rattle.cip_decode.specs.Attributes.{asked_attributes, set_by, set_instance};
ghost use Rattle.cip_decode.specs.Identities.{identity_at, identity_of, word_of, double_of};
ghost use Rattle.cip_decode.specs.Identities.{revision_of, name_of};
ghost use Rattle.cip_decode.specs.Identities.{IsWordAttribute, ReadsAttribute};
ghost use Rattle.cip_decode.specs.Answered.{ReadsAttributes, has_attributes, IsAnswered};

use crate::reply::Reply;
use crate::request::{Meaning, Request};
use cip_message::{double_at, read_request, word_at};
use cip_segment::PathView;
use cip_target::{ObjectPath, is_product_name, object_path};
use cip_unconnected::inner;

/// What a request asks an object of a module for (Volume 1, chapter 5, Identity and Assembly).
#[derive(Clone, Copy)]
pub enum Attributes {
    /// Attributes 1 to 7 of the Identity, one after the other.
    Identity,
    /// This attribute of the Identity, 1 to 7.
    OfIdentity(u16),
    /// The data of the assembly of this instance.
    Assembly(u32),
}

// What is got by one attribute of an object.
fn got_of(object: ObjectPath, attribute: u16) -> Option<Attributes>
    ensures { result ≡ got_of object attribute }
{
    if object.class_ == 1 && object.instance == 1 && 1 <= attribute && attribute <= 7 {
        Some(Attributes::OfIdentity(attribute))
    } else if object.class_ == 4 && attribute == 3 {
        Some(Attributes::Assembly(object.instance))
    } else {
        None
    }
}

// What a service gets of an object.
fn got_by(service: u8, object: ObjectPath) -> Option<Attributes>
    ensures { result ≡ got_by service object }
{
    match (service, object.attribute) {
        (0x01, None) if object.class_ == 1 && object.instance == 1 => Some(Attributes::Identity),
        (0x0E, Some(attribute)) => got_of(object, attribute),
        _ => None,
    }
}

// What a service gets of what a path names.
fn got_at(service: u8, path: PathView<'_>) -> Option<Attributes>
    ensures { result ≡ got_at service path.entry.bytes.now }
{
    match object_path(path) {
        Some(object) => got_by(service, object),
        None => None,
    }
}

// The request that bytes are, and that gets attributes.
fn carried(bytes: &[u8]) -> Option<Attributes>
    ensures { result ≡ carried bytes.now }
{
    match read_request(bytes) {
        Ok(view) => got_at(view.service, view.path),
        Err(_) => None,
    }
}

/// The attributes that the data of a successful reply to this request has: by Get_Attributes_All
/// those of the Identity, by Get_Attribute_Single one of them or the data of an assembly; of an
/// Unconnected_Send those that the request in it asks for. None for any other.
pub fn asked_attributes(request: &Request<'_>) -> Option<Attributes>
    ensures { result ≡ asked_attributes request.now }
{
    match request.meaning {
        Meaning::Data => got_at(request.view.service, request.view.path),
        Meaning::Unconnected(view) => carried(inner(&view)),
        _ => None,
    }
}

// The assembly whose data a service sets.
fn set_by(service: u8, object: ObjectPath) -> Option<u32>
    ensures { result ≡ set_by service object }
{
    match object.attribute {
        Some(3) if service == 0x10 && object.class_ == 4 => Some(object.instance),
        _ => None,
    }
}

/// The instance of the assembly whose data a request sets to its own: by Set_Attribute_Single of
/// attribute 3. None for any other; an Unconnected_Send sets none itself.
pub fn set_instance(request: &Request<'_>) -> Option<u32>
    ensures { result ≡ set_instance request.now }
{
    match (request.meaning, object_path(request.view.path)) {
        (Meaning::Data, Some(object)) => set_by(request.view.service, object),
        _ => None,
    }
}

/// Attributes 1 to 7 of the Identity, as read.
#[derive(Clone, Copy)]
pub struct IdentityView<'a> {
    pub vendor: u16,
    pub device_type: u16,
    pub product: u16,
    /// The major revision, 0 to 127.
    pub major: u8,
    pub minor: u8,
    pub status: u16,
    pub serial: u32,
    /// The product name: 0 to 32 characters from 20 to 7E.
    pub name: &'a [u8],
}

/// Attributes 1 to 7 of the Identity that the data is, all of it (Volume 1, chapter 5): vendor,
/// device type, product code, revision, status, serial number, and the product name behind its
/// length. None where bytes are missing or are left, where the major revision passes 127, and
/// where the name is longer than 32 characters or has one that is not from 20 to 7E. It takes no
/// memory.
#[tactic(auto, unfolding(crate::specs::Identities::identity_at))]
pub fn read_identity(data_: &[u8]) -> Option<IdentityView<'_>>
    ensures { option_map identity_of result ≡ identity_at data_.now }
{
    if data_.len() < 15 {
        return None;
    }
    let name = &data_[15..];
    if usize::from(data_[14]) != name.len() || 127 < data_[6] || !is_product_name(name) {
        return None;
    }
    Some(IdentityView {
        vendor: word_at(data_, 0),
        device_type: word_at(data_, 2),
        product: word_at(data_, 4),
        major: data_[6],
        minor: data_[7],
        status: word_at(data_, 8),
        serial: double_at(data_, 10),
        name,
    })
}

/// One attribute of the Identity, as read.
#[derive(Clone, Copy)]
pub enum AttributeView<'a> {
    Vendor(u16),
    DeviceType(u16),
    Product(u16),
    /// The major revision, 0 to 127, and the minor.
    Revision(u8, u8),
    Status(u16),
    Serial(u32),
    /// The product name: 0 to 32 characters from 20 to 7E.
    Name(&'a [u8]),
}

// A word alone.
fn word_of(data_: &[u8]) -> Option<u16>
    ensures { result ≡ word_of data_.now }
{
    if data_.len() == 2 {
        Some(word_at(data_, 0))
    } else {
        None
    }
}

// A double word alone.
fn double_of(data_: &[u8]) -> Option<u32>
    ensures { result ≡ double_of data_.now }
{
    if data_.len() == 4 {
        Some(double_at(data_, 0))
    } else {
        None
    }
}

// A revision alone.
fn revision_of(data_: &[u8]) -> Option<(u8, u8)>
    ensures { result ≡ revision_of data_.now }
{
    match data_ {
        [major, minor] if *major <= 127 => Some((*major, *minor)),
        _ => None,
    }
}

// A product name behind its length.
fn name_of(data_: &[u8]) -> Option<&[u8]>
    ensures { option_map (λ name. name.now) result ≡ name_of data_.now }
{
    match data_ {
        [length, name @ ..] if usize::from(*length) == name.len() && is_product_name(name) => {
            Some(name)
        }
        _ => None,
    }
}

fn word_attribute(attribute: u16, data_: &[u8]) -> Option<AttributeView<'_>>
    ensures { IsWordAttribute attribute data_.now result }
{
    match (attribute, word_of(data_)) {
        (1, Some(number)) => Some(AttributeView::Vendor(number)),
        (2, Some(number)) => Some(AttributeView::DeviceType(number)),
        (3, Some(number)) => Some(AttributeView::Product(number)),
        (5, Some(number)) => Some(AttributeView::Status(number)),
        _ => None,
    }
}

/// The attribute of the Identity that the data is, all of it: 1 vendor, 2 device type, 3 product
/// code, 4 revision, 5 status, 6 serial number, 7 product name (Volume 1, chapter 5). None for
/// another, and where the data is none of it. It takes no memory.
pub fn read_attribute(attribute: u16, data_: &[u8]) -> Option<AttributeView<'_>>
    ensures { ReadsAttribute attribute data_.now result }
{
    match attribute {
        4 => match revision_of(data_) {
            Some((major, minor)) => Some(AttributeView::Revision(major, minor)),
            None => None,
        },
        6 => match double_of(data_) {
            Some(number) => Some(AttributeView::Serial(number)),
            None => None,
        },
        7 => match name_of(data_) {
            Some(name) => Some(AttributeView::Name(name)),
            None => None,
        },
        _ => word_attribute(attribute, data_),
    }
}

/// What the attributes that were asked for say.
#[derive(Clone, Copy)]
pub enum AttributesView<'a> {
    /// Attributes 1 to 7 of the Identity.
    Identity(IdentityView<'a>),
    /// One attribute of the Identity.
    OfIdentity(AttributeView<'a>),
    /// The data of the assembly of this instance.
    Assembly(u32, &'a [u8]),
}

// What data says of the attributes that were asked for.
fn attributes_in(asked: Attributes, data_: &[u8]) -> Option<AttributesView<'_>>
    ensures { ReadsAttributes asked data_.now result }
{
    match asked {
        Attributes::Identity => match read_identity(data_) {
            Some(view) => Some(AttributesView::Identity(view)),
            None => None,
        },
        Attributes::OfIdentity(attribute) => match read_attribute(attribute, data_) {
            Some(view) => Some(AttributesView::OfIdentity(view)),
            None => None,
        },
        Attributes::Assembly(instance) => Some(AttributesView::Assembly(instance, data_)),
    }
}

// Whether a reply of this service and general status has the attributes that were asked for.
fn has_attributes(asked: Attributes, service: u8, general: u8) -> bool
    ensures { result ≡ has_attributes asked service general }
{
    let wanted = match asked {
        Attributes::Identity => 0x81,
        _ => 0x8E,
    };
    service == wanted && general == 0
}

/// What a reply says of the attributes that were asked for: what its data reads as, where it is a
/// success of the service that gives them; else None. It takes no memory.
pub fn answered_attributes<'a>(asked: Attributes, reply: &Reply<'a>) -> Option<AttributesView<'a>>
    ensures { IsAnswered asked reply.now result }
{
    let view = reply.view;
    if has_attributes(asked, view.service, view.general) {
        attributes_in(asked, view.data_)
    } else {
        None
    }
}
