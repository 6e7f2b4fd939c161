//! What holds of every message: reading gives exactly what has the layout, and what is written is
//! read back.
ghost use Rattle.std.specs.Prelude.{◌≡◌, ◌<◌, ◌≤◌, ℕ, Ok};
ghost use Rattle.cip_base.specs.Words.{Octets};
ghost use Rattle.cip_segment.specs.Spelling.{IsReadable};
ghost use Rattle.cip_message.specs.Exact.{ReadsEach, Decides, Refuses, RefusesBytes};
ghost use Rattle.cip_message.specs.declared.failure.ConnectionFailure.{ConnectionFailure as Failed};
ghost use Rattle.cip_message.specs.Failure.{ReadsFailure, IsFailureFault, failure_at, failure_data};
ghost use Rattle.cip_message.specs.Failure.{HasTriadForWords};
ghost use Rattle.cip_message.specs.Request.{Request, ReadsRequest, IsRequestFault, request_bytes};
ghost use Rattle.cip_message.specs.RequestAt.{request_at};
ghost use Rattle.cip_message.specs.Manager.{manager_request, manager_bytes};
ghost use Rattle.cip_message.specs.Reply.{Reply, ReadsReply, IsReplyFault, reply_bytes};
ghost use Rattle.cip_message.specs.ReplyAt.{reply_at};

/// Reading bytes as a request gives the one record that has its layout, or the one fault that fits.
pub fn request_is_exact()
    ensures only { ReadsEach request_at ReadsRequest }
    ensures verdict { Decides request_at ReadsRequest IsRequestFault }
    ensures faults { RefusesBytes request_at IsRequestFault }
{}

/// Reading bytes as a reply gives the one record that has its layout, or the one fault that fits.
pub fn reply_is_exact()
    ensures only { ReadsEach reply_at ReadsReply }
    ensures verdict { Decides reply_at ReadsReply IsReplyFault }
    ensures faults { Refuses reply_at IsReplyFault }
{}

/// A request that is written is read back as the same record.
pub fn written_request_is_read()
    ensures { (r : Request) → r.service < 128 → IsReadable r.path
        → request_at (request_bytes r) ≡ Ok r }
{}

/// A request to the Connection Manager that is written is read back as the same record.
pub fn written_manager_request_is_read()
    ensures { (service : ℕ) (d : Octets) → service < 128
        → request_at (manager_bytes service d) ≡ Ok (manager_request service d) }
{}

/// A reply that is written is read back as the same record.
pub fn written_reply_is_read()
    ensures { (r : Reply) → 128 ≤ r.service → reply_at (reply_bytes r) ≡ Ok r }
{}

/// Reading the data of a failure gives the one record that has its layout, or the fault.
pub fn failure_is_exact()
    ensures only { ReadsEach failure_at ReadsFailure }
    ensures verdict { Decides failure_at ReadsFailure IsFailureFault }
    ensures faults { Refuses failure_at IsFailureFault }
{}

/// The data of a failure that is written is read back as the same record.
pub fn written_failure_is_read()
    ensures { (f : Failed) → HasTriadForWords f → failure_at (failure_data f) ≡ Ok f }
{}
