//! The rows of the routing table that refuse, in the order of the table.
ghost use Rattle.std.specs.Prelude.{◌≡◌};
ghost use Rattle.cip_routing.specs.Statuses.{key_status, link_status, request_status};
ghost use Rattle.cip_routing.specs.Statuses.{unconnected_status, open_status, close_status};

use cip_base::Status;
use cip_target::EndRefusal;

/// The rows of any request that answer with a failure.
#[derive(Clone, Copy, Debug, PartialEq, Eq)]
pub enum RequestRefusal {
    PathPastTheEnd,
    PathUnreadable,
    PathFormNotSupported,
    NoSuchManagerInstance,
    ServiceNotSupported,
}

/// The rows on sending a message on by a link, which the groups below share.
#[derive(Clone, Copy, Debug, PartialEq, Eq)]
pub enum LinkRefusal {
    NoSuchPort,
    LinkAddressNotLegal,
    TicksSpent,
    NoPendingLeft,
}

/// The rows of an Unconnected_Send that answer with a failure. A key mismatch says which part of
/// the key differs.
#[derive(Clone, Copy, Debug, PartialEq, Eq)]
pub enum UnconnectedRefusal {
    CutBeforeTheRouteSize,
    CutInTheRoute,
    BytesAfterTheRoute,
    RouteUnreadable,
    EmbeddedRequestNotAllowed,
    KeyMismatch(KeyPart),
    NoPortSegment,
    NotSentOn(LinkRefusal),
}

/// The rows of a Forward_Open that answer with a failure.
#[derive(Clone, Copy, Debug, PartialEq, Eq)]
pub enum OpenRefusal {
    CutInTheFixedPart,
    CutInThePath,
    BytesAfterThePath,
    PathUnreadable,
    ConnectionTypeNotSupported,
    RpiOfZero,
    TriadInUse,
    KeyMismatch(KeyPart),
    NotSentOn(LinkRefusal),
    NoRoomToPassOn,
    NotAccepted(EndRefusal),
    NoRoomToEndHere,
}

/// The rows of a Forward_Close that answer with a failure.
#[derive(Clone, Copy, Debug, PartialEq, Eq)]
pub enum CloseRefusal {
    CutInTheFixedPart,
    CutInThePath,
    BytesAfterThePath,
    PathUnreadable,
    NotThisSendersOpenTriad,
    PathDiffersFromTheHops,
    NotSentOn(LinkRefusal),
}

/// What of an electronic key differs from the module, in the order in which it is looked at.
#[derive(Clone, Copy, Debug, PartialEq, Eq)]
pub enum KeyPart {
    VendorOrProduct,
    DeviceType,
    Revision,
}

pub fn plain_status(general: u8) -> Status
    ensures { result ≡ record { general = general; extra = None } }
{
    Status {
        general,
        extra: None,
    }
}

fn extended_status(extra: u16) -> Status
    ensures { result ≡ record { general = 1; extra = Some extra } }
{
    Status {
        general: 1,
        extra: Some(extra),
    }
}

impl RequestRefusal {
    /// The status that the row answers (Volume 1, Appendix B).
    pub fn status(self) -> Status
        ensures { result ≡ request_status self }
    {
        match self {
            RequestRefusal::PathPastTheEnd => plain_status(0x26),
            RequestRefusal::PathUnreadable => plain_status(0x04),
            RequestRefusal::PathFormNotSupported => plain_status(0x05),
            RequestRefusal::NoSuchManagerInstance => plain_status(0x16),
            RequestRefusal::ServiceNotSupported => plain_status(0x08),
        }
    }
}

impl KeyPart {
    /// The status of a key that does not match in this part.
    pub fn status(self) -> Status
        ensures { result ≡ key_status self }
    {
        match self {
            KeyPart::VendorOrProduct => extended_status(0x0114),
            KeyPart::DeviceType => extended_status(0x0115),
            KeyPart::Revision => extended_status(0x0116),
        }
    }
}

impl LinkRefusal {
    /// The status that the row answers (Volume 1, chapter 3).
    pub fn status(self) -> Status
        ensures { result ≡ link_status self }
    {
        match self {
            LinkRefusal::NoSuchPort => extended_status(0x0311),
            LinkRefusal::LinkAddressNotLegal => extended_status(0x0312),
            LinkRefusal::TicksSpent => extended_status(0x0204),
            LinkRefusal::NoPendingLeft => extended_status(0x0301),
        }
    }
}

impl UnconnectedRefusal {
    /// The status that the row answers (Volume 1, Appendix B, and chapter 3 for the additional
    /// status).
    pub fn status(self) -> Status
        ensures { result ≡ unconnected_status self }
    {
        match self {
            UnconnectedRefusal::CutBeforeTheRouteSize => plain_status(0x13),
            UnconnectedRefusal::CutInTheRoute => plain_status(0x13),
            UnconnectedRefusal::BytesAfterTheRoute => plain_status(0x15),
            UnconnectedRefusal::RouteUnreadable => plain_status(0x04),
            UnconnectedRefusal::EmbeddedRequestNotAllowed => extended_status(0x0205),
            UnconnectedRefusal::KeyMismatch(part) => part.status(),
            UnconnectedRefusal::NoPortSegment => extended_status(0x0315),
            UnconnectedRefusal::NotSentOn(refusal) => refusal.status(),
        }
    }
}

impl OpenRefusal {
    /// The status that the row answers (Volume 1, Appendix B, and chapter 3 for the additional
    /// status).
    pub fn status(self) -> Status
        ensures { result ≡ open_status self }
    {
        match self {
            OpenRefusal::CutInTheFixedPart => plain_status(0x13),
            OpenRefusal::CutInThePath => plain_status(0x13),
            OpenRefusal::BytesAfterThePath => plain_status(0x15),
            OpenRefusal::PathUnreadable => plain_status(0x04),
            OpenRefusal::ConnectionTypeNotSupported => extended_status(0x0108),
            OpenRefusal::RpiOfZero => extended_status(0x0111),
            OpenRefusal::TriadInUse => extended_status(0x0100),
            OpenRefusal::KeyMismatch(part) => part.status(),
            OpenRefusal::NotSentOn(refusal) => refusal.status(),
            OpenRefusal::NoRoomToPassOn => extended_status(0x0113),
            OpenRefusal::NotAccepted(refusal) => refusal.status(),
            OpenRefusal::NoRoomToEndHere => extended_status(0x0113),
        }
    }
}

impl CloseRefusal {
    /// The status that the row answers (Volume 1, Appendix B, and chapter 3 for the additional
    /// status).
    pub fn status(self) -> Status
        ensures { result ≡ close_status self }
    {
        match self {
            CloseRefusal::CutInTheFixedPart => plain_status(0x13),
            CloseRefusal::CutInThePath => plain_status(0x13),
            CloseRefusal::BytesAfterThePath => plain_status(0x15),
            CloseRefusal::PathUnreadable => plain_status(0x04),
            CloseRefusal::NotThisSendersOpenTriad => extended_status(0x0107),
            CloseRefusal::PathDiffersFromTheHops => extended_status(0x0316),
            CloseRefusal::NotSentOn(refusal) => refusal.status(),
        }
    }
}
