//! The names of services.

/// The name of a service, of a request or of its reply; None for one that has no name here.
pub fn service_name(service: u8) -> Option<&'static str> {
    match service % 128 {
        0x01 => Some("Get_Attributes_All"),
        0x05 => Some("Reset"),
        0x0E => Some("Get_Attribute_Single"),
        0x10 => Some("Set_Attribute_Single"),
        0x4E => Some("Forward_Close"),
        0x52 => Some("Unconnected_Send"),
        0x54 => Some("Forward_Open"),
        0x5B => Some("Large_Forward_Open"),
        _ => None,
    }
}
