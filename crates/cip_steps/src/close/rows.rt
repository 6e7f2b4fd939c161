//! Which row of the close group answers.
ghost use Rattle.std.specs.Prelude.{◌≡◌};
ghost use Rattle.std.specs.Option.{option_copied};
ghost use Rattle.cip_segment.specs.Reading.{hop_of};
ghost use Rattle.cip_close.specs.Reading.{close_of};
ghost use Rattle.cip_hops.specs.declared.hop.Hop.{Hop as Hops};
ghost use Rattle.cip_routing.specs.CloseRows.{is_sender, below_row, down_row, triad_row, close_row};
ghost use Rattle.cip_steps.specs.Code.Decisions.{close_row_of, CloseLeads};
ghost use Rattle.cip_steps.specs.Code.Device.{state_of_device};

use crate::device::Device;
use cip_base::{Address, PortNumber};
use cip_close::CloseView;
use cip_hops::{Hop, HopDown, HopUp};
use cip_pending::{PendingTable, UpSide};
use cip_routing::{CloseRefusal, wait_refusal};
use cip_segment::{FirstHop, PathView, first_hop, rest};

/// The row that answers a Forward_Close.
#[derive(Drop)]
pub(crate) enum CloseDecision<'a> {
    Refuses(CloseRefusal),
    Forwarded {
        port: PortNumber,
        address: Address,
        rest: PathView<'a>,
    },
    ClosedAtTheEnd,
}

// Whether a request from there is from the connection's up side.
fn is_sender(sender: &UpSide, up: &HopUp) -> bool
    ensures { result ≡ is_sender sender.now up.now }
{
    match (sender, up) {
        (
            UpSide::Link { port, address, .. },
            HopUp::Link {
                port: by,
                address: to,
                ..
            },
        ) => *by == *port && *to == *address,
        (UpSide::Local { op: of }, HopUp::Local { op }) => *op == *of,
        _ => false,
    }
}

// A link below: the path has to lead there.
fn below<'a>(
    pendings: &PendingTable,
    view: &CloseView<'a>,
    port: PortNumber,
    address: &Address,
) -> CloseDecision<'a>
    ensures row { close_row_of result ≡ below_row pendings.now (close_of view.now) port address.now
        (hop_of view.now.path.bytes.now) }
    ensures leads { CloseLeads pendings.now view.now.fields.timing result }
{
    match first_hop(view.path) {
        FirstHop::End => CloseDecision::Refuses(CloseRefusal::PathDiffersFromTheHops),
        FirstHop::Hop {
            key: _,
            port: by,
            address: to,
            rest_words: _,
        } => {
            let behind = rest(view.path);
            if !(by == port && to == *address) {
                return CloseDecision::Refuses(CloseRefusal::PathDiffersFromTheHops);
            }
            match wait_refusal(pendings, view.fields.timing) {
                Some(refusal) => CloseDecision::Refuses(CloseRefusal::NotSentOn(refusal)),
                None => CloseDecision::Forwarded {
                    port,
                    address: address.copy(),
                    rest: behind,
                },
            }
        }
    }
}

// By what is below: a link, or an end, to which the path leads nowhere.
fn by_down<'a>(pendings: &PendingTable, view: &CloseView<'a>, down: &HopDown) -> CloseDecision<'a>
    ensures row { close_row_of result ≡ down_row pendings.now (close_of view.now) down.now }
    ensures leads { CloseLeads pendings.now view.now.fields.timing result }
{
    match down {
        HopDown::Link { port, address } => below(pendings, view, *port, address),
        HopDown::End { .. } => match first_hop(view.path) {
            FirstHop::End => CloseDecision::ClosedAtTheEnd,
            FirstHop::Hop { .. } => { CloseDecision::Refuses(CloseRefusal::PathDiffersFromTheHops) }
        },
    }
}

fn by_hop<'a>(
    pendings: &PendingTable,
    sender: &UpSide,
    view: &CloseView<'a>,
    hop: Option<&Hop>,
) -> CloseDecision<'a>
    ensures row { close_row_of result ≡ triad_row pendings.now sender.now (close_of view.now)
        (option_copied hop.entry) }
    ensures leads { CloseLeads pendings.now view.now.fields.timing result }
{
    let Some(hop) = hop else {
        return CloseDecision::Refuses(CloseRefusal::NotThisSendersOpenTriad);
    };
    if !is_sender(sender, &hop.opening.up) {
        return CloseDecision::Refuses(CloseRefusal::NotThisSendersOpenTriad);
    }
    by_down(pendings, view, &hop.opening.down)
}

impl Device {
    /// The row that answers a Forward_Close which was read (Volume 1, chapter 3, Forward_Close).
    #[tactic(auto, unfolding(cip_routing::specs::CloseRows::close_row))]
    pub(crate) fn close_row<'a>(&self, sender: &UpSide, view: &CloseView<'a>) -> CloseDecision<'a>
        ensures row { close_row_of result
            ≡ close_row (state_of_device self.now) sender.now (close_of view.now) }
        ensures leads { CloseLeads self.now.pendings view.now.fields.timing result }
    {
        let hop = self.hops.by_triad(&view.fields.triad);
        by_hop(&self.pendings, sender, view, hop)
    }
}
