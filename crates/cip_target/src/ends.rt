//! The rows of an open that is to end here, from an application path on, in the order of the
//! routing table (Volume 1, chapter 3, Forward_Open).
ghost use Rattle.std.specs.Prelude.{◌≡◌};
ghost use Rattle.cip_target.specs.Ends.{is_configuration, datum_size, are_sizes, end_status};
ghost use Rattle.cip_target.specs.Viewed.{row_joined};

use crate::config::AssemblyConfig;
use crate::link::EndLink;
use cip_base::Status;
use cip_open::{OpenFields, open_params};

/// Why an open cannot end here.
#[derive(Clone, Copy, Debug, PartialEq, Eq)]
pub enum EndRefusal {
    NotAnApplicationPath,
    /// One of the three instances does not exist, or the configuration bytes do not fit.
    NoSuchInstanceOrConfiguration,
    /// A transport class other than 0 and 1.
    TransportClassNotSupported,
    /// A size is not that of its assembly, with 2 more in class 1.
    SizeMismatch,
    /// Another connection writes the O→T instance.
    OutputOwned,
}

impl EndRefusal {
    /// The status that the row answers: general status 01 and an extended status (Volume 1,
    /// chapter 3, Forward_Open).
    pub fn status(self) -> Status
        ensures { result ≡ end_status self }
    {
        let extra = match self {
            EndRefusal::NotAnApplicationPath => 0x0315,
            EndRefusal::NoSuchInstanceOrConfiguration => 0x0117,
            EndRefusal::TransportClassNotSupported => 0x0103,
            EndRefusal::SizeMismatch => 0x0109,
            EndRefusal::OutputOwned => 0x0106,
        };
        Status {
            general: 0x01,
            extra: Some(extra),
        }
    }
}

/// The assemblies that an application path names, and the configuration bytes that come with it.
#[derive(Clone, Copy)]
pub(crate) struct Joined<'a> {
    pub(crate) config: AssemblyConfig,
    pub(crate) consume: AssemblyConfig,
    pub(crate) produce: AssemblyConfig,
    pub(crate) bytes: &'a [u8],
}

// Whether the configuration bytes fit an assembly of this size.
fn is_configuration(size: u16, bytes: &[u8]) -> bool
    ensures { result ≡ is_configuration size bytes.now }
{
    let size = usize::from(size);
    bytes.len() == size || (size % 2 == 1 && (bytes.len() == size + 1 && bytes[size] == 0))
}

// The size of a datum: in class 1 with its sequence count.
fn datum_size(class: u8, size: u16) -> u32
    ensures { result ≡ datum_size class size }
{
    let size = u32::from(size);
    if class == 1 { size + 2 } else { size }
}

// Whether both directions have the sizes of their assemblies.
fn are_sizes(fields: &OpenFields, consume: u16, produce: u16) -> bool
    ensures { result ≡ are_sizes fields.now consume produce }
{
    let class = fields.transport % 16;
    let large = fields.large;
    u32::from(open_params(large, fields.ot_params).size) == datum_size(class, consume)
        && u32::from(open_params(large, fields.to_params).size) == datum_size(class, produce)
}

/// The row of an open whose three assemblies exist; `owned` says whether the O→T instance has an
/// owner.
pub(crate) fn joined_row(
    fields: &OpenFields,
    joined: &Joined<'_>,
    owned: bool,
) -> Result<EndLink, EndRefusal>
    ensures { result ≡ row_joined owned fields.now joined.now }
{
    let class = fields.transport % 16;
    if !is_configuration(joined.config.size, joined.bytes) {
        return Err(EndRefusal::NoSuchInstanceOrConfiguration);
    }
    if class > 1 {
        return Err(EndRefusal::TransportClassNotSupported);
    }
    if !are_sizes(fields, joined.consume.size, joined.produce.size) {
        return Err(EndRefusal::SizeMismatch);
    }
    if joined.consume.size > 0 && owned {
        return Err(EndRefusal::OutputOwned);
    }
    Ok(EndLink {
        config: joined.config.instance,
        consume: joined.consume.instance,
        produce: joined.produce.instance,
        class,
    })
}
