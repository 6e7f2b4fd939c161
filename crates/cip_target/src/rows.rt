//! The rows of a request to the target, in the order of the routing table.
ghost use Rattle.std.specs.Prelude.{◌≡◌};
ghost use Rattle.cip_target.specs.Rows.{refusal_status};

/// The rows that refuse.
#[derive(Clone, Copy, Debug, PartialEq, Eq)]
pub enum TargetRefusal {
    /// The path is not a class, an instance and perhaps an attribute.
    PathFormNotSupported,
    /// A class other than Identity and Assembly.
    ClassNotSupported,
    NoSuchInstance,
    ServiceNotSupported,
    NoSuchAttribute,
    /// An attribute of the Identity is to be set.
    NotSettable,
    /// Less data than the assembly has.
    DataShort,
    /// More data than the assembly has, any data where an attribute is read, or more than one byte
    /// for a reset.
    DataLong,
}

impl TargetRefusal {
    /// The general status that the row answers (Volume 1, Appendix B).
    pub fn status(self) -> u8
        ensures { result ≡ refusal_status self }
    {
        match self {
            TargetRefusal::PathFormNotSupported => 0x05,
            TargetRefusal::ClassNotSupported => 0x05,
            TargetRefusal::NoSuchInstance => 0x16,
            TargetRefusal::ServiceNotSupported => 0x08,
            TargetRefusal::NoSuchAttribute => 0x14,
            TargetRefusal::NotSettable => 0x0E,
            TargetRefusal::DataShort => 0x13,
            TargetRefusal::DataLong => 0x15,
        }
    }
}

/// A row, with what it reads or where it writes; or a reset of the whole device.
#[derive(Clone, Copy)]
pub(crate) enum Row<'a> {
    Refused(TargetRefusal),
    Read(&'a [u8]),
    Written(u32),
    Reset,
}
