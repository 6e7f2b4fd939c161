//! The two services that open a connection.
ghost use Rattle.std.specs.Prelude.{◌≡◌};
ghost use Rattle.cip_open.specs.Kinds as kinds;

/// The service Forward_Open of the Connection Manager.
pub const FORWARD_OPEN: u8 = 0x54;
/// The service Large_Forward_Open of the Connection Manager.
pub const LARGE_FORWARD_OPEN: u8 = 0x5B;
/// The service of the reply to a Forward_Open.
pub const FORWARD_OPEN_REPLY: u8 = 0xD4;
/// The service of the reply to a Large_Forward_Open.
pub const LARGE_FORWARD_OPEN_REPLY: u8 = 0xDB;

/// The service of a request that opens, large or not (Volume 1, chapter 3, Forward_Open and
/// Large_Forward_Open).
pub fn open_service(large: bool) -> u8
    ensures { result ≡ kinds.open_service large }
{
    if large {
        LARGE_FORWARD_OPEN
    } else {
        FORWARD_OPEN
    }
}

/// The service of the reply to an open, large or not (Volume 1, chapter 3, Forward_Open and
/// Large_Forward_Open).
pub fn open_reply_service(large: bool) -> u8
    ensures { result ≡ kinds.open_reply_service large }
{
    if large {
        LARGE_FORWARD_OPEN_REPLY
    } else {
        FORWARD_OPEN_REPLY
    }
}

/// The bytes of an open's data before its path: 36, or 40 of a large one (Volume 1, chapter 3,
/// Forward_Open and Large_Forward_Open).
pub fn open_fixed_part(large: bool) -> usize
    ensures { result ≡ kinds.open_fixed_part large }
{
    if large { 40 } else { 36 }
}

/// Where the path size in words stands in an open's data: byte 35, or 39 of a large one (Volume 1,
/// chapter 3, Forward_Open and Large_Forward_Open).
pub fn words_place(large: bool) -> usize
    ensures { result ≡ kinds.words_place large }
{
    if large { 39 } else { 35 }
}
