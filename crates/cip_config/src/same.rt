//! Whether two configs are one.
ghost use Rattle.std.specs.Prelude.{◌≡◌, ◌↔◌, IsTrue};

use crate::config::{ModuleConfig, ModuleSettings, PortConfig};
use cip_target::{AssemblyConfig, IdentityFields};

fn is_same_port(left: &PortConfig, right: &PortConfig) -> bool
    ensures { IsTrue result ↔ (left.now ≡ right.now) }
{
    left == right
}

fn are_same_ports(left: &[PortConfig], right: &[PortConfig]) -> bool
    ensures { IsTrue result ↔ (left.now ≡ right.now) }
{
    if left.len() != right.len() {
        return false;
    }
    for i in 0..left.len() {
        if !is_same_port(&left[i], &right[i]) {
            return false;
        }
    }
    true
}

fn is_same_assembly(left: AssemblyConfig, right: AssemblyConfig) -> bool
    ensures { IsTrue result ↔ (left ≡ right) }
{
    left == right
}

fn are_same_assemblies(left: &[AssemblyConfig], right: &[AssemblyConfig]) -> bool
    ensures { IsTrue result ↔ (left.now ≡ right.now) }
{
    if left.len() != right.len() {
        return false;
    }
    for i in 0..left.len() {
        if !is_same_assembly(left[i], right[i]) {
            return false;
        }
    }
    true
}

fn is_same_identity(left: &IdentityFields, right: &IdentityFields) -> bool
    ensures { IsTrue result ↔ (left.now ≡ right.now) }
{
    left == right
}

fn is_same_name(left: &[u8], right: &[u8]) -> bool
    ensures { IsTrue result ↔ (left.now ≡ right.now) }
{
    left == right
}

fn are_same(left: &ModuleSettings, right: &ModuleSettings) -> bool
    ensures { IsTrue result ↔ (left.now ≡ right.now) }
{
    is_same_name(left.name.as_slice(), right.name.as_slice())
        && left.kind == right.kind
        && is_same_identity(left.identity.fields(), right.identity.fields())
        && left.clock == right.clock
        && left.first_id == right.first_id
        && left.first_number == right.first_number
        && left.pending_room == right.pending_room
        && left.hop_room == right.hop_room
        && are_same_ports(left.ports.as_slice(), right.ports.as_slice())
        && are_same_assemblies(left.assemblies.as_slice(), right.assemblies.as_slice())
}

impl ModuleConfig {
    /// Whether another config is the same.
    pub fn is(&self, other: &ModuleConfig) -> bool
        ensures { IsTrue result ↔ (self.now ≡ other.now) }
    {
        are_same(self.settings(), other.settings())
    }
}
