//! The target group: a request to an object of the module itself. The target decides its row; a
//! reset of the whole module is carried out here (Volume 1, chapter 5, Identity object).
ghost use Rattle.std.specs.Prelude.{◌≡◌, ◌∷◌, [], IsTrue, IfOk, OnOk, ◌++◌};
ghost use Rattle.cip_message.specs.Reading.{request_of};
ghost use Rattle.cip_message.specs.Request.{Request as Asked};
ghost use Rattle.cip_target.specs.Objects.{reads_reset};
ghost use Rattle.cip_steps.specs.Code.Device.{state_of_device};
ghost use Rattle.cip_steps.specs.Code.Reacts.{ReactsWhole};
ghost use Rattle.cip_routing.specs.Effects.{Answers, objects_of};
ghost use Rattle.cip_routing.specs.Resets.{can_reset, waiting_ops, open_ops, all_noted, held_ops};
ghost use Rattle.cip_routing.specs.Resets.{all_ended};

use crate::device::Device;
use crate::reaction::Reaction;
use cip_base::NoMemory;
use cip_event::Output;
use cip_hops::{HopTable, HopUp};
use cip_message::RequestView;
use cip_pending::{PendingTable, UpSide};
use cip_routing::{SpentOps, answered, failure, plain_status, reply_to};

// The Identity object's service Reset.
const RESET: u8 = 0x05;

// General statuses (Volume 1, Appendix B).
const SUCCESS: u8 = 0x00;

const OBJECT_STATE_CONFLICT: u8 = 0x0C;

// Keeps the ops whose requests wait.
fn note_waiting(ops: &mut SpentOps, pendings: &PendingTable) -> Result<(), NoMemory>
    ensures { OnOk result (ops.new.ops.items
        ≡ all_noted ops.old.ops.items (waiting_ops pendings.now)) }
{
    let mut after = None;
    while let Some((number, entry)) = pendings.next_after(after) {
        if let UpSide::Local { op } = entry.up {
            ops.note(op)?;
        }
        after = Some(number);
    }
    Ok(())
}

// Keeps the ops whose connections are open.
fn note_open(ops: &mut SpentOps, hops: &HopTable) -> Result<(), NoMemory>
    ensures { OnOk result (ops.new.ops.items ≡ all_noted ops.old.ops.items (open_ops hops.now)) }
{
    hops.is_within();
    let mut after = None;
    while let Some(hop) = hops.next_after(after.as_ref()) {
        let triad = hop.opening.triad;
        if let HopUp::Local { op } = hop.opening.up {
            ops.note(op)?;
        }
        after = Some(triad);
    }
    Ok(())
}

// Tells of each op that it ended.
fn tell_ended(outputs: &mut Vec<Output>, ops: &[u32]) -> Result<(), NoMemory>
    ensures { OnOk result (outputs.new.items ≡ outputs.old.items ++ all_ended ops.now) }
{
    for i in 0..ops.len() {
        outputs.push(Output::Ended { op: ops[i] })?;
    }
    Ok(())
}

impl Device {
    // Whether numbers and ids have an incarnation after this.
    fn can_reset(&self) -> bool
        ensures { result ≡ can_reset (state_of_device self.now) }
    {
        self.pendings.can_reset() && self.hops.can_reset()
    }

    // What a reset puts out: its reply, then the ops that it ends, in rising order.
    fn reset_outputs(&self, reply: Output) -> Result<Vec<Output>, NoMemory>
        ensures { IfOk result (λ outputs. outputs.items
            ≡ reply ∷ all_ended (held_ops (state_of_device self.now))) }
    {
        let mut held = SpentOps::new(self.alloc);
        note_waiting(&mut held, &self.pendings)?;
        note_open(&mut held, &self.hops)?;
        let mut outputs = Vec::with_capacity(self.alloc, 1)?;
        outputs.push_reserved(reply);
        tell_ended(&mut outputs, held.ops.as_slice())?;
        Ok(outputs)
    }

    // A reset: all memory is taken before anything changes.
    fn reset_here(&mut self, up: UpSide, asked: RequestView<'_>) -> Result<Reaction, NoMemory>
        requires { IsTrue (reads_reset (objects_of self.old.config (state_of_device self.old))
            (request_of asked)) }
        ensures handled { ReactsWhole self.old self.new (Answers up (request_of asked.entry) ∷ [])
            result }
        ensures ops { self.new.ops ≡ self.old.ops }
    {
        if !self.can_reset() {
            let bytes = failure(self.alloc, RESET, plain_status(OBJECT_STATE_CONFLICT))?;
            return Ok(Reaction::Whole(reply_to(up, bytes)));
        }
        let bytes = answered(self.alloc, RESET, plain_status(SUCCESS), &[])?;
        let outputs = self.reset_outputs(reply_to(up, bytes))?;
        self.resets();
        Ok(Reaction::Several(outputs))
    }

    /// The module's own objects answer a request.
    pub(crate) fn answer_here(
        &mut self,
        up: UpSide,
        request: RequestView<'_>,
    ) -> Result<Reaction, NoMemory>
        ensures handled { ReactsWhole self.old self.new (Answers up (request_of request.entry) ∷ [])
            result }
        ensures ops { self.new.ops ≡ self.old.ops }
    {
        if self.target.reads_reset(request) {
            return self.reset_here(up, request);
        }
        let bytes = self.target.answer(self.alloc, request)?;
        Ok(Reaction::Whole(reply_to(up, bytes)))
    }
}
