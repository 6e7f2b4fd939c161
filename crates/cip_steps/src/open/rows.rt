//! Which row of the open group answers.
ghost use Rattle.std.specs.Prelude.{◌≡◌};
ghost use Rattle.cip_segment.specs.Reading.{hop_of, segments_of};
ghost use Rattle.cip_open.specs.Reading.{open_of};
ghost use Rattle.cip_target.specs.Ends.{end_row, row_at};
ghost use Rattle.cip_routing.specs.Keys.{leading_mismatch};
ghost use Rattle.cip_routing.specs.OpenRows.{is_supported_direction, is_supported};
ghost use Rattle.cip_routing.specs.OpenRows.{ids_if_forwarded};
ghost use Rattle.cip_routing.specs.OpenRows.{is_consumed, here_row, hop_row, key_row, open_row};
ghost use Rattle.cip_steps.specs.Code.Decisions.{open_row_of, OpenLeads};
ghost use Rattle.cip_steps.specs.Code.Device.{state_of_device};

use crate::device::Device;
use cip_base::{Address, PortNumber};
use cip_hops::HopUp;
use cip_open::{ConnectionKind, OpenView, Params, open_params};
use cip_routing::{OpenRefusal, leading_mismatch, link_refusal};
use cip_segment::{FirstHop, PathView, first_hop, rest};
use cip_target::{EndLink, EndRefusal};

/// The row that answers an open.
#[derive(Drop)]
pub(crate) enum OpenDecision<'a> {
    Refuses(OpenRefusal),
    Forwarded {
        port: PortNumber,
        address: Address,
        rest: PathView<'a>,
    },
    Accepted(EndLink),
}

// Point to point, and no redundant owner.
fn is_supported_direction(params: Params) -> bool
    ensures { result ≡ is_supported_direction params }
{
    params.kind == ConnectionKind::PointToPoint && !params.redundant
}

fn is_supported(view: &OpenView<'_>) -> bool
    ensures { result ≡ is_supported (open_of view.now) }
{
    let fields = &view.fields;
    is_supported_direction(open_params(fields.large, fields.ot_params))
        && is_supported_direction(open_params(fields.large, fields.to_params))
        && view.fields.multiplier <= 7
}

// How many ids a connection that goes on draws.
fn ids_if_forwarded(up: &HopUp) -> u8
    ensures { result ≡ ids_if_forwarded up.now }
{
    if up.is_link() { 2 } else { 1 }
}

impl Device {
    // What the target says to an open, by the connections that end here.
    fn end_row(&self, view: &OpenView<'_>) -> Result<EndLink, EndRefusal>
        ensures row { result ≡ end_row self.now.target.objects.assemblies
            (is_consumed self.now.hops)
            (open_of view.now) }
        ensures fits { result ≡ row_at self.now.target (open_of view.now) }
    {
        self.target.end_row(view)
    }

    // A connection that ends here.
    fn open_here(&self, up: &HopUp, view: &OpenView<'_>) -> OpenDecision<'static>
        ensures row { open_row_of result
            ≡ here_row (state_of_device self.now) up.now (open_of view.now) }
        ensures leads { OpenLeads self.now up.now (open_of view.now) result }
    {
        if !up.is_link() {
            let refusal = EndRefusal::NotAnApplicationPath;
            return OpenDecision::Refuses(OpenRefusal::NotAccepted(refusal));
        }
        let link = match self.end_row(view) {
            Ok(link) => link,
            Err(refusal) => return OpenDecision::Refuses(OpenRefusal::NotAccepted(refusal)),
        };
        if self.hops.can_begin(&view.fields.triad, 1).is_some() {
            return OpenDecision::Refuses(OpenRefusal::NoRoomToEndHere);
        }
        OpenDecision::Accepted(link)
    }

    // A connection that ends here, or goes on.
    fn open_by_hop<'a>(&self, up: &HopUp, view: &OpenView<'a>) -> OpenDecision<'a>
        ensures row { open_row_of result ≡ hop_row self.now.config (state_of_device self.now) up.now
            (open_of view.now) (hop_of view.now.path.bytes.now) }
        ensures leads { OpenLeads self.now up.now (open_of view.now) result }
    {
        match first_hop(view.path) {
            FirstHop::End => self.open_here(up, view),
            FirstHop::Hop {
                key: _,
                port,
                address,
                rest_words: _,
            } => {
                let behind = rest(view.path);
                let settings = self.config.settings();
                let timing = view.fields.timing;
                if let Some(refusal) = link_refusal(
                    settings,
                    &self.pendings,
                    timing,
                    port,
                    &address,
                ) {
                    return OpenDecision::Refuses(OpenRefusal::NotSentOn(refusal));
                }
                if self
                    .hops
                    .can_begin(&view.fields.triad, ids_if_forwarded(up))
                    .is_some()
                {
                    return OpenDecision::Refuses(OpenRefusal::NoRoomToPassOn);
                }
                OpenDecision::Forwarded {
                    port,
                    address,
                    rest: behind,
                }
            }
        }
    }

    fn open_by_key<'a>(&self, up: &HopUp, view: &OpenView<'a>) -> OpenDecision<'a>
        ensures row { open_row_of result ≡ key_row self.now.config (state_of_device self.now) up.now
            (open_of view.now) (leading_mismatch self.now.config
            (segments_of view.now.path.bytes.now)) }
        ensures leads { OpenLeads self.now up.now (open_of view.now) result }
    {
        match leading_mismatch(self.config.settings(), view.path) {
            Some(part) => OpenDecision::Refuses(OpenRefusal::KeyMismatch(part)),
            None => self.open_by_hop(up, view),
        }
    }

    /// The row that answers an open which was read (Volume 1, chapter 3, Forward_Open and
    /// Large_Forward_Open).
    #[tactic(auto, unfolding(cip_routing::specs::OpenRows::open_row))]
    pub(crate) fn open_row<'a>(&self, up: &HopUp, view: &OpenView<'a>) -> OpenDecision<'a>
        ensures row { open_row_of result ≡ open_row self.now.config
            (state_of_device self.now) up.now (open_of view.now) }
        ensures leads { OpenLeads self.now up.now (open_of view.now) result }
    {
        if !is_supported(view) {
            return OpenDecision::Refuses(OpenRefusal::ConnectionTypeNotSupported);
        }
        if view.fields.ot_rpi == 0 || view.fields.to_rpi == 0 {
            return OpenDecision::Refuses(OpenRefusal::RpiOfZero);
        }
        if self.hops.held(&view.fields.triad).is_some() {
            return OpenDecision::Refuses(OpenRefusal::TriadInUse);
        }
        self.open_by_key(up, view)
    }
}
