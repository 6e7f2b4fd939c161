//! Which row of the unconnected send group answers.
ghost use Rattle.std.specs.Prelude.{◌≡◌};
ghost use Rattle.cip_segment.specs.Reading.{hop_of, segments_of};
ghost use Rattle.cip_unconnected.specs.Reading.{unconnected_of};
ghost use Rattle.cip_routing.specs.Keys.{leading_mismatch};
ghost use Rattle.cip_routing.specs.UnconnectedRows.{hop_row, key_row, unconnected_row, unread_row};
ghost use Rattle.cip_routing.specs.Code.Decisions.{unconnected_row_of, Leads};

use crate::keys::leading_mismatch;
use crate::links::link_refusal;
use crate::refusals::UnconnectedRefusal;
use crate::request_rows::begins_with_manager;
use cip_base::{Address, PortNumber};
use cip_config::ModuleSettings;
use cip_message::{RequestView, read_request};
use cip_pending::PendingTable;
use cip_segment::{FirstHop, PathView, first_hop, rest};
use cip_unconnected::{UnconnectedFault, UnconnectedView, route_words};

/// The row that answers an Unconnected_Send.
#[derive(Drop)]
pub enum UnconnectedDecision<'a> {
    /// It is answered with a failure.
    Refuses(UnconnectedRefusal),
    /// The embedded request is one to this module.
    AnsweredHere(RequestView<'a>),
    /// It goes on by the port to the address, with what is left of its route.
    Forwarded {
        port: PortNumber,
        address: Address,
        rest: PathView<'a>,
    },
}

fn by_hop<'a>(
    settings: &ModuleSettings,
    pendings: &PendingTable,
    view: UnconnectedView<'a>,
) -> UnconnectedDecision<'a>
    ensures leads { Leads pendings.now view.entry.timing view.entry.route.bytes.now result }
    ensures row { unconnected_row_of result
        ≡ hop_row settings.now pendings.now (unconnected_of view.entry)
        (hop_of view.entry.route.bytes.now) }
{
    match first_hop(view.route) {
        FirstHop::End => UnconnectedDecision::Refuses(UnconnectedRefusal::NoPortSegment),
        FirstHop::Hop {
            key: _,
            port,
            address,
            rest_words: _,
        } => {
            let behind = rest(view.route);
            match link_refusal(settings, pendings, view.timing, port, &address) {
                Some(refusal) => UnconnectedDecision::Refuses(UnconnectedRefusal::NotSentOn(
                    refusal,
                )),
                None => UnconnectedDecision::Forwarded {
                    port,
                    address,
                    rest: behind,
                },
            }
        }
    }
}

fn by_key<'a>(
    settings: &ModuleSettings,
    pendings: &PendingTable,
    view: UnconnectedView<'a>,
) -> UnconnectedDecision<'a>
    ensures leads { Leads pendings.now view.entry.timing view.entry.route.bytes.now result }
    ensures row { unconnected_row_of result
        ≡ key_row settings.now pendings.now (unconnected_of view.entry)
        (leading_mismatch settings.now (segments_of view.entry.route.bytes.now)) }
{
    match leading_mismatch(settings, view.route) {
        Some(part) => UnconnectedDecision::Refuses(UnconnectedRefusal::KeyMismatch(part)),
        None => by_hop(settings, pendings, view),
    }
}

/// The row that answers an Unconnected_Send which was read (Volume 1, chapter 3, Unconnected_Send).
#[tactic(auto, unfolding(crate::specs::UnconnectedRows::unconnected_row))]
pub fn unconnected_row<'a>(
    settings: &ModuleSettings,
    pendings: &PendingTable,
    view: UnconnectedView<'a>,
) -> UnconnectedDecision<'a>
    ensures leads { Leads pendings.now view.entry.timing view.entry.route.bytes.now result }
    ensures row { unconnected_row_of result ≡ unconnected_row settings.now pendings.now
        (unconnected_of view.entry) }
{
    let embedded = match read_request(view.request) {
        Ok(embedded) => embedded,
        Err(_) => return UnconnectedDecision::Refuses(
            UnconnectedRefusal::EmbeddedRequestNotAllowed,
        ),
    };
    if begins_with_manager(embedded.path) {
        return UnconnectedDecision::Refuses(UnconnectedRefusal::EmbeddedRequestNotAllowed);
    }
    if view.route.bytes.is_empty() {
        return UnconnectedDecision::AnsweredHere(embedded);
    }
    by_key(settings, pendings, view)
}

/// The row of data that cannot be read as an Unconnected_Send.
pub fn unread_row(data_: &[u8], fault: UnconnectedFault) -> UnconnectedRefusal
    ensures { result ≡ unread_row data_.now fault }
{
    match fault {
        UnconnectedFault::Short => match route_words(data_) {
            None => UnconnectedRefusal::CutBeforeTheRouteSize,
            Some(_) => UnconnectedRefusal::CutInTheRoute,
        },
        UnconnectedFault::Long => UnconnectedRefusal::BytesAfterTheRoute,
        UnconnectedFault::Route(_) => UnconnectedRefusal::RouteUnreadable,
    }
}
