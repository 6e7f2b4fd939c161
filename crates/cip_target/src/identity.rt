//! What a module says of itself.
ghost use Rattle.std.specs.Prelude.{◌≡◌, ◌≤◌, ◌++◌, ◌↔◌, length, IfOk, IfSome, IsSome, IsTrue};
ghost use Rattle.std.specs.Prelude.{OnOk};
ghost use Rattle.std.specs.List.{list_all};
ghost use Rattle.cip_target.specs.Identity.{is_printable, is_product_name, is_identity};
ghost use Rattle.cip_target.specs.Identity.{number_bytes, identity_bytes};

use cip_base::{Bytes, MAX_DATUM, NoMemory, put_double, put_word};
use std::alloc::{AllocError, Global};
use std::marker::Model;

/// The fields of the Identity object (Volume 1, chapter 5, Identity object, class attributes 1 to 7
/// of instance 1).
#[derive(Debug, Drop, PartialEq, Eq)]
pub struct IdentityFields {
    pub vendor: u16,
    pub device_type: u16,
    pub product: u16,
    /// The major revision, 0 to 127.
    pub major: u8,
    pub minor: u8,
    pub status: u16,
    pub serial: u32,
    /// The product name: 0 to 32 characters from 20 to 7E.
    pub name: Bytes,
}

/// An identity, whose fields are in their ranges.
#[derive(Debug)]
pub struct Identity {
    fields: IdentityFields,
}

// (A derive would be written, and proved, anew in each crate above.)
impl Drop for Identity {
    fn drop(self) {
        let Identity { fields: _ } = self;
    }
}

impl Model for Identity {
    ghost use Rattle.std.specs.Prelude.{IsTrue};
    ghost use Rattle.cip_target.specs.declared.identity.IdentityFields.{IdentityFields};
    ghost use Rattle.cip_target.specs.Identity.{is_identity};

    ghost Value = { IdentityFields };

    ghost view = { λ i. i.fields };

    ghost invariant = { λ i. IsTrue (is_identity i.fields) };
}

fn are_printable(bytes: &[u8]) -> bool
    ensures { result ≡ list_all is_printable bytes.now }
{
    bytes.iter().all(|byte| 0x20 <= *byte && *byte <= 0x7E)
}

/// Whether the bytes are a product name: at most 32 characters from 20 to 7E.
pub fn is_product_name(bytes: &[u8]) -> bool
    ensures { result ≡ is_product_name bytes.now }
{
    bytes.len() <= 32 && are_printable(bytes)
}

impl Identity {
    /// The identity of these fields; None where the major revision passes 127, or the name is
    /// longer than 32 characters or has one that is not from 20 to 7E.
    pub fn new(fields: IdentityFields) -> Option<Identity>
        ensures legal { IsSome result ↔ IsTrue (is_identity fields) }
        ensures value { IfSome result (λ identity. identity ≡ fields) }
    {
        if fields.major <= 127 && is_product_name(fields.name.as_slice()) {
            Some(Identity { fields })
        } else {
            None
        }
    }

    /// The fields.
    pub fn fields(&self) -> &IdentityFields
        ensures value { result.now ≡ self.now }
        ensures legal { IsTrue (is_identity result.now) }
    {
        &self.fields
    }

    /// A copy, on memory of its own.
    pub fn copy(&self, alloc: Global) -> Result<Identity, NoMemory>
        ensures { IfOk result (λ identity. identity ≡ self.now) }
    {
        let name = Vec::from_slice(alloc, self.fields.name.as_slice())?;
        Ok(Identity {
            fields: IdentityFields {
                vendor: self.fields.vendor,
                device_type: self.fields.device_type,
                product: self.fields.product,
                major: self.fields.major,
                minor: self.fields.minor,
                status: self.fields.status,
                serial: self.fields.serial,
                name: Bytes::of(name),
            },
        })
    }

    /// Attributes 1 to 7, one after the other: what Get_Attributes_All answers.
    pub(crate) fn to_bytes(&self, alloc: Global) -> Result<Bytes, NoMemory>
        ensures is { IfOk result (λ bytes. bytes ≡ identity_bytes self.now) }
        ensures fits { IfOk result (λ bytes. length bytes ≤ MAX_DATUM) }
    {
        let mut bytes = Vec::new(alloc);
        put_numbers(&mut bytes, &self.fields)?;
        let name = self.fields.name.as_slice();
        bytes.push(name.len() as u8)?;
        bytes.extend_from_slice(name)?;
        Ok(Bytes::of(bytes))
    }
}

fn put_numbers(out: &mut Vec<u8>, fields: &IdentityFields) -> Result<(), AllocError>
    ensures { OnOk result (out.new.items ≡ out.old.items ++ number_bytes fields.now) }
{
    put_word(out, fields.vendor)?;
    put_word(out, fields.device_type)?;
    put_word(out, fields.product)?;
    out.push(fields.major)?;
    out.push(fields.minor)?;
    put_word(out, fields.status)?;
    put_double(out, fields.serial)?;
    Ok(())
}
