//! The names of the statuses of replies.

/// The name of a general status (Volume 1, Appendix B); None for one that has no name here.
pub fn general_status(status: u8) -> Option<&'static str> {
    match status {
        0x00 => Some("success"),
        0x01 => Some("connection failure"),
        0x04 => Some("path segment error"),
        0x05 => Some("path destination unknown"),
        0x08 => Some("service not supported"),
        0x0C => Some("object state conflict"),
        0x0E => Some("attribute not settable"),
        0x13 => Some("not enough data"),
        0x14 => Some("attribute not supported"),
        0x15 => Some("too much data"),
        0x16 => Some("object does not exist"),
        0x26 => Some("path size invalid"),
        _ => None,
    }
}

// The names of additional statuses that end the opening of a connection.
fn opening_status(status: u16) -> Option<&'static str> {
    match status {
        0x0100 => Some("connection in use or duplicate Forward_Open"),
        0x0103 => Some("transport class and trigger combination not supported"),
        0x0106 => Some("ownership conflict"),
        0x0107 => Some("target connection not found"),
        0x0108 => Some("invalid network connection parameter"),
        0x0109 => Some("invalid connection size"),
        0x0111 => Some("RPI not supported"),
        0x0113 => Some("out of connections"),
        0x0114 => Some("vendor ID or product code mismatch"),
        0x0115 => Some("device type mismatch"),
        0x0116 => Some("revision mismatch"),
        0x0117 => Some("invalid produced or consumed application path"),
        _ => None,
    }
}

// The names of additional statuses that end the way along a path.
fn routing_status(status: u16) -> Option<&'static str> {
    match status {
        0x0204 => Some("unconnected request timed out"),
        0x0205 => Some("parameter error in an unconnected request"),
        0x0301 => Some("no buffer memory available"),
        0x0311 => Some("invalid port ID"),
        0x0312 => Some("link address not valid"),
        0x0315 => Some("invalid segment in connection path"),
        0x0316 => Some("error in Forward_Close service connection path"),
        _ => None,
    }
}

/// The name of an additional status, beside the general status 01 (Volume 1, chapter 3 and Appendix
/// B); None for one that has no name here.
pub fn connection_status(status: u16) -> Option<&'static str> {
    match opening_status(status) {
        Some(name) => Some(name),
        None => routing_status(status),
    }
}

/// The name of a status: that of the additional status beside the general status 01 where there is
/// one, else that of the general status; None for one that has no name here.
pub fn status_name(general: u8, extra: Option<u16>) -> Option<&'static str> {
    match (general, extra) {
        (0x01, Some(word)) => connection_status(word),
        _ => general_status(general),
    }
}
