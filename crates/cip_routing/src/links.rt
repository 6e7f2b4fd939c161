//! Whether a message can be sent on by a link.
ghost use Rattle.std.specs.Prelude.{◌≡◌, ◌≤◌, None};
ghost use Rattle.cip_routing.specs.Links.{wait_refusal, link_refusal, CanWait};

use crate::refusals::LinkRefusal;
use cip_base::{Address, PortNumber, Timing};
use cip_config::{ModuleKind, ModuleSettings, is_legal, port_of};
use cip_pending::PendingTable;

/// Why a message cannot wait for an answer, if it cannot: it needs ticks for this module and for
/// the one below, and then a place among the requests that wait.
pub fn wait_refusal(pendings: &PendingTable, timing: Timing) -> Option<LinkRefusal>
    ensures row { result ≡ wait_refusal pendings.now timing }
    ensures can { CanWait pendings.now timing result }
{
    if timing.ticks < 2 {
        return Some(LinkRefusal::TicksSpent);
    }
    if pendings.can_add().is_some() {
        return Some(LinkRefusal::NoPendingLeft);
    }
    None
}

/// Why a message cannot go on by a port to an address, if it cannot. The port is looked at first,
/// of a module that routes; then the address, the ticks and the room.
#[tactic(auto, unfolding(crate::specs::Links::link_refusal))]
pub fn link_refusal(
    settings: &ModuleSettings,
    pendings: &PendingTable,
    timing: Timing,
    port: PortNumber,
    address: &Address,
) -> Option<LinkRefusal>
    ensures row { result ≡ link_refusal settings.now pendings.now timing port address.now }
    ensures can { CanWait pendings.now timing result }
{
    let Some(own) = port_of(settings, port) else {
        return Some(LinkRefusal::NoSuchPort);
    };
    if settings.kind == ModuleKind::Adapter {
        return Some(LinkRefusal::NoSuchPort);
    }
    if !is_legal(own.legal, address.as_slice()) {
        return Some(LinkRefusal::LinkAddressNotLegal);
    }
    wait_refusal(pendings, timing)
}
