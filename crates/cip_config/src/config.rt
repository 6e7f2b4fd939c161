//! What a module is: its identity, its ports, its assemblies and its rooms.
ghost use Rattle.std.specs.Prelude.{◌≡◌, ◌↔◌, IfSome, IsSome, IsTrue};
ghost use Rattle.cip_config.specs.Config.{is_settings};

use crate::legal::is_settings;
use crate::lists::{Assemblies, Ports};
use cip_base::{Address, Bytes, PortNumber};
use cip_target::Identity;
use std::marker::Model;

/// What a module can do.
#[derive(Clone, Copy, Debug, PartialEq, Eq)]
pub enum ModuleKind {
    /// Originates, routes and answers.
    Plain,
    /// Answers alone: it has one port and sends no request on.
    Adapter,
    /// As a plain one, but what goes on stays in the buffer in which it came.
    Indexed,
}

/// The link addresses that are legal on a link.
#[derive(Clone, Copy, Debug, PartialEq, Eq)]
pub enum LegalAddresses {
    /// One byte, from `first` to `last`.
    Byte { first: u8, last: u8 },
    /// 1 to `longest` bytes from 21 to 7E.
    Text { longest: u8 },
}

/// A port of a module: its number, the place of its link in the topology, the addresses that are
/// legal there, and the module's own address there.
#[derive(Drop, PartialEq, Eq)]
pub struct PortConfig {
    pub number: PortNumber,
    pub link: usize,
    pub legal: LegalAddresses,
    pub address: Address,
}

/// The keys of a module in a topology.
#[derive(Drop)]
pub struct ModuleSettings {
    /// 1 to 16 ASCII letters, digits, `_` or `-`.
    pub name: Bytes,
    pub kind: ModuleKind,
    /// What its Identity object says.
    pub identity: Identity,
    /// The time at which the module begins, in microseconds, below 2^63.
    pub clock: u64,
    /// The first connection id: its incarnation in the high half, and in the low half its count,
    /// from 1.
    pub first_id: u32,
    /// The first pending number, in two halves as well.
    pub first_number: u32,
    /// How many requests may wait at once, 1 to 256.
    pub pending_room: usize,
    /// How many connections may be open or opening at once, 1 to 256.
    pub hop_room: usize,
    /// At least one, at most 8, exactly one of an adapter, with numbers of their own.
    pub ports: Ports,
    /// At most 64, of 1 to 65,535 and with instances of their own, each of at most 65,535 bytes.
    pub assemblies: Assemblies,
}

/// A module's settings, each in its range.
pub struct ModuleConfig {
    settings: ModuleSettings,
}

// (A derive would be written, and proved, anew in each crate above.)
impl Drop for ModuleConfig {
    fn drop(self) {
        let ModuleConfig { settings: _ } = self;
    }
}

impl Model for ModuleConfig {
    ghost use Rattle.std.specs.Prelude.{IsTrue};
    ghost use Rattle.cip_config.specs.declared.config.ModuleSettings.{ModuleSettings};
    ghost use Rattle.cip_config.specs.Config.{is_settings};

    ghost Value = { ModuleSettings };

    ghost view = { λ c. c.settings };

    ghost invariant = { λ c. IsTrue (is_settings c.settings) };
}

impl ModuleConfig {
    /// The config of these settings; None where one of them is out of its range.
    pub fn new(settings: ModuleSettings) -> Option<ModuleConfig>
        ensures legal { IsSome result ↔ IsTrue (is_settings settings) }
        ensures value { IfSome result (λ c. c ≡ settings) }
    {
        if is_settings(&settings) {
            Some(ModuleConfig { settings })
        } else {
            None
        }
    }

    // Of settings that were looked at before.
    pub(crate) fn of(settings: ModuleSettings) -> ModuleConfig
        requires { IsTrue (is_settings settings) }
        ensures { result ≡ settings }
    {
        ModuleConfig { settings }
    }

    /// The settings.
    pub fn settings(&self) -> &ModuleSettings
        ensures value { result.now ≡ self.now }
        ensures legal { IsTrue (is_settings result.now) }
    {
        &self.settings
    }
}
