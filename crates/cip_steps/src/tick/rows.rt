//! Which pendings and connections a tick finds due, and what it tells of them.
ghost use Rattle.std.specs.Prelude.{◌≡◌, ◌++◌, IfOk, OnOk};
ghost use Rattle.cip_steps.specs.Code.Ticks.{late_reply, pendings_timed_out, hops_timed_out};

use cip_base::NoMemory;
use cip_event::Output;
use cip_hops::HopTable;
use cip_pending::{Entry, PendingTable};
use cip_routing::{reply_to, timed_out_failure};
use std::alloc::Global;

// What goes up when the time of a pending ran out.
fn timed_out(alloc: Global, entry: &Entry) -> Result<Output, NoMemory>
    ensures { IfOk result (λ o. o ≡ late_reply entry.now) }
{
    let bytes = timed_out_failure(alloc, entry.kind, entry.words)?;
    Ok(reply_to(entry.up.copy(), bytes))
}

// What goes up of all pendings whose time ran out, in rising number.
fn pendings_out(
    outputs: &mut Vec<Output>,
    alloc: Global,
    pendings: &PendingTable,
    now: u64,
) -> Result<(), NoMemory>
    ensures { OnOk result (outputs.new.items ≡ outputs.old.items
        ++ pendings_timed_out now pendings.now) }
{
    let mut after = None;
    while let Some((number, entry)) = pendings.next_after(after) {
        if entry.deadline <= now {
            outputs.push(timed_out(alloc, entry)?)?;
        }
        after = Some(number);
    }
    Ok(())
}

// The connections that were silent for too long, in rising triad.
fn hops_out(outputs: &mut Vec<Output>, hops: &HopTable, now: u64) -> Result<(), NoMemory>
    ensures { OnOk result (outputs.new.items ≡ outputs.old.items ++ hops_timed_out now hops.now) }
{
    hops.is_within();
    let mut near = 0;
    let mut after = None;
    while let Some(hop) = hops.next_near(after.as_ref(), &mut near) {
        let triad = hop.opening.triad;
        if hop.is_timed_out(now) {
            outputs.push(Output::Expired { triad })?;
        }
        after = Some(triad);
    }
    Ok(())
}

/// What a tick puts out: the pendings whose time ran out, in rising number, then the connections
/// that were silent for too long, in rising triad.
pub(crate) fn timed_out_all(
    alloc: Global,
    pendings: &PendingTable,
    hops: &HopTable,
    now: u64,
) -> Result<Vec<Output>, NoMemory>
    ensures { IfOk result (λ v. v.items ≡ pendings_timed_out now pendings.now
        ++ hops_timed_out now hops.now) }
{
    let mut outputs = Vec::new(alloc);
    pendings_out(&mut outputs, alloc, pendings, now)?;
    hops_out(&mut outputs, hops, now)?;
    Ok(outputs)
}
