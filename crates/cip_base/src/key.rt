//! An electronic key.

/// What an electronic key of format 4 asks of a module (Volume 1, Appendix C, electronic key
/// segment). A field of 0 asks for nothing. Bit 7 of `major` is the compatibility flag, bits 6 to 0
/// are the major revision.
#[derive(Clone, Copy, Debug, PartialEq, Eq)]
pub struct KeyFields {
    pub vendor: u16,
    pub device_type: u16,
    pub product: u16,
    pub major: u8,
    pub minor: u8,
}
