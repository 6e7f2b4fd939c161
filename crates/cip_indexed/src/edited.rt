//! What goes on or goes up of a message, in the buffer in which it came.
ghost use Rattle.std.specs.Prelude.{◌≡◌, ◌<◌, [], List};
ghost use Rattle.std.specs.Vec.{vec_capacity};
ghost use Rattle.cip_base.specs.Words.{Octets};
ghost use Rattle.cip_event.specs.declared.event.Body.TheVariants as bodies;
ghost use Rattle.cip_event.specs.declared.event.Output.{Output as Outputs};
ghost use Rattle.cip_event.specs.declared.event.Output.TheVariants as outputs;
ghost use Rattle.cip_steps.specs.Reactions.{Becomes};
ghost use Rattle.cip_indexed.specs.PutOut.{CanPutOut, IsPutOut};

use cip_base::Bytes;
use cip_hops::Onward;
use cip_module::{Body, Edit, Output, Reaction};
use cip_rewrite::{
    forward_close_bytes, forward_open_bytes, forward_unconnected_bytes, success_up_bytes,
    unwrap_bytes,
};

// The bytes that came, edited so.
#[inline(always)]
fn edited(came: Bytes, edit: Edit) -> Bytes
    requires { (b : Octets) × Becomes came edit b }
    ensures { (b : Octets) → Becomes came edit b → result ≡ b }
{
    let mut bytes = came.into_vec();
    match edit {
        Edit::AsTheyCame => {}
        Edit::Unwrapped => unwrap_bytes(&mut bytes),
        Edit::SentOn => forward_unconnected_bytes(&mut bytes),
        Edit::OpenedOn { down_id } => forward_open_bytes(&mut bytes, down_id),
        Edit::ClosedOn => forward_close_bytes(&mut bytes),
        Edit::SuccessUp { up_id, their_id } => success_up_bytes(&mut bytes, up_id, their_id),
    }
    Bytes::of(bytes)
}

/// What a reaction to these bytes puts out, in a place that there is for it. It takes no memory.
#[inline(always)]
pub(crate) fn put_out(mut outputs: Vec<Output>, reaction: Reaction, came: Bytes) -> Vec<Output>
    requires none { outputs.items ≡ [] }
    requires room { 0 < vec_capacity outputs }
    requires possible { CanPutOut came reaction }
    ensures { (list : List Outputs) → IsPutOut came reaction list → result.items ≡ list }
{
    let output = match reaction {
        Reaction::Whole(output) => output,
        Reaction::Edited { output, edit } => output.filled(edited(came, edit)),
        Reaction::Several(all) => return all,
    };
    outputs.push_reserved(output);
    outputs
}

/// A datum, sent on.
#[inline(always)]
pub(crate) fn sent(onward: Onward, bytes: Bytes) -> Output
    ensures { result ≡ outputs.Send onward.port onward.address (bodies.Data onward.id bytes) }
{
    Output::Send {
        port: onward.port,
        to: onward.address,
        body: Body::Data {
            id: onward.id,
            bytes,
        },
    }
}
