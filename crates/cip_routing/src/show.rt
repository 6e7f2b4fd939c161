//! The tables of a module, as they are shown: their rows.
ghost use Rattle.std.specs.Prelude.{◌≡◌, map, filter_map, IfOk};
ghost use Rattle.std.specs.FinMap as finite;
ghost use Rattle.cip_hops.specs.Hops.{as_hop};
ghost use Rattle.cip_routing.specs.Views.{row_of, hop_row_of, assembly_row_of};

use crate::tables::{AssemblyRow, HopRow, PendingRow};
use cip_base::{Bytes, NoMemory};
use cip_hops::{Hop, HopTable};
use cip_pending::PendingTable;
use cip_target::Target;
use std::alloc::Global;

/// The requests that wait, in rising number; NoMemory where an allocation is refused.
pub fn pending_rows(alloc: Global, pendings: &PendingTable) -> Result<Vec<PendingRow>, NoMemory>
    ensures { IfOk result (λ rows. rows.items ≡ map row_of (finite.entries pendings.now.entries)) }
{
    let mut rows = Vec::new(alloc);
    let mut after = None;
    while let Some((number, entry)) = pendings.next_after(after) {
        rows.push(PendingRow {
            number,
            entry: entry.copy(),
        })?;
        after = Some(number);
    }
    Ok(rows)
}

/// A connection, as it is shown; NoMemory where an allocation is refused.
pub fn hop_row(alloc: Global, hop: &Hop) -> Result<HopRow, NoMemory>
    ensures { IfOk result (λ row. row ≡ hop_row_of hop.now) }
{
    let path = hop.opening.path.copy(alloc)?;
    Ok(HopRow {
        triad: hop.opening.triad,
        up: hop.opening.up.copy(),
        down: hop.opening.down.copy(),
        ids: hop.ids,
        their_id: hop.their_id,
        path,
        ot_size: hop.opening.ot_size,
        to_size: hop.opening.to_size,
        ot_rpi: hop.opening.ot_rpi,
        to_rpi: hop.opening.to_rpi,
        class: hop.opening.class,
        up_deadline: hop.up_deadline,
        down_deadline: hop.down_deadline,
    })
}

/// The connections that are open, in rising triad; NoMemory where an allocation is refused.
pub fn hop_rows(alloc: Global, hops: &HopTable) -> Result<Vec<HopRow>, NoMemory>
    ensures { IfOk result (λ rows. rows.items ≡ map hop_row_of
        (filter_map (λ e. as_hop e.1) (finite.entries hops.now.held))) }
{
    hops.is_within();
    let mut rows = Vec::new(alloc);
    let mut after = None;
    while let Some(hop) = hops.next_after(after.as_ref()) {
        rows.push(hop_row(alloc, hop)?)?;
        after = Some(hop.opening.triad);
    }
    Ok(rows)
}

/// The assemblies, in rising instance; NoMemory where an allocation is refused.
pub fn assembly_rows(alloc: Global, target: &Target) -> Result<Vec<AssemblyRow>, NoMemory>
    ensures { IfOk result (λ rows. rows.items ≡ map assembly_row_of
        (finite.entries target.now.objects.assemblies)) }
{
    let mut rows = Vec::new(alloc);
    let mut after = None;
    while let Some((instance, held)) = target.next_after(after) {
        let bytes = Bytes::of(Vec::from_slice(alloc, held)?);
        rows.push(AssemblyRow { instance, bytes })?;
        after = Some(instance);
    }
    Ok(rows)
}
