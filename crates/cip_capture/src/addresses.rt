//! The addresses that modules have in a capture.
use cip_base::{ModuleId, NoMemory};
use cip_chassis::Topology;
use cip_config::ModuleConfig;
use std::alloc::Global;

/// Who sends a packet, or whom it goes to.
#[derive(Clone, Copy)]
pub(crate) struct Host {
    pub ip: [u8; 4],
    pub mac: [u8; 6],
}

/// The IPv4 addresses of modules, by their places in the topology.
#[derive(Drop)]
pub(crate) struct Hosts {
    ips: Vec<[u8; 4]>,
}

// The last byte of the made-up addresses of a module; 250 of an address that no module has.
fn last_byte(id: Option<ModuleId>) -> u8 {
    match id {
        Some(id) => u8::try_from(id.0 % 200).unwrap_or(0).saturating_add(1),
        None => 250,
    }
}

// The made-up IPv4 address: 192.0.2.1 of the first module.
fn made_up(id: Option<ModuleId>) -> [u8; 4] {
    [192, 0, 2, last_byte(id)]
}

// The number of one part of a dotted address: 0 to 255 in decimal, with no zero in front.
fn octet_of(part: &str) -> Option<u8> {
    let digits = part.as_bytes();
    if digits.len() > 3 || !digits.iter().all(|byte| byte.is_ascii_digit()) {
        return None;
    }
    if digits.len() > 1 && digits.first() == Some(&b'0') {
        return None;
    }
    part.parse::<u8>().ok()
}

// The address that a text of four numbers between dots is.
fn dotted(text: &str) -> Option<[u8; 4]> {
    let mut ip = [0u8; 4];
    let mut count = 0usize;
    for part in text.split('.') {
        let octet = octet_of(part)?;
        let place = ip.get_mut(count)?;
        *place = octet;
        count = count.saturating_add(1);
    }
    if count == 4 { Some(ip) } else { None }
}

// Whether an address is one of those that are made up, of the block 192.0.2.0/24.
fn is_made_up(ip: [u8; 4]) -> bool {
    matches!(ip, [192, 0, 2, _])
}

// The address of a module on the first of its links where that is the text of an IPv4 address.
fn own(config: &ModuleConfig) -> Option<[u8; 4]> {
    for port in config.settings().ports.as_slice() {
        if let Ok(text) = std::str::from_utf8(port.address.as_slice()) {
            match dotted(text) {
                Some(ip) if !is_made_up(ip) => return Some(ip),
                _ => {}
            }
        }
    }
    None
}

impl Hosts {
    /// The addresses of the modules of a topology: that of a link, where it is the text of an IPv4
    /// address that no module before has, and else a made-up one. NoMemory where an allocation is
    /// refused.
    pub fn new(alloc: Global, topology: &Topology) -> Result<Hosts, NoMemory> {
        let mut ips: Vec<[u8; 4]> = Vec::new(alloc);
        for (place, config) in topology.configs().iter().enumerate() {
            let ip = match own(config) {
                Some(ip) if !ips.contains(&ip) => ip,
                _ => made_up(Some(ModuleId(place))),
            };
            ips.push(ip)?;
        }
        Ok(Hosts { ips })
    }

    /// The IPv4 address of a module, or of an address that no module has.
    pub fn ip_of(&self, id: Option<ModuleId>) -> [u8; 4] {
        match id {
            Some(ModuleId(place)) => match self.ips.get(place) {
                Some(ip) => *ip,
                None => made_up(id),
            },
            None => made_up(None),
        }
    }

    /// The host of a module: its MAC address is 02:00:00:00:00:01 of the first module.
    pub fn of(&self, id: Option<ModuleId>) -> Host {
        Host {
            ip: self.ip_of(id),
            mac: [2, 0, 0, 0, 0, last_byte(id)],
        }
    }
}
