//! What holds of every Forward_Close: reading gives exactly what has the layout, and what is
//! written is read back.
ghost use Rattle.std.specs.Prelude.{◌≡◌, ◌%◌, length, Ok};
ghost use Rattle.cip_base.specs.declared.timing.Status.{Status};
ghost use Rattle.cip_segment.specs.Spelling.{IsReadable};
ghost use Rattle.cip_message.specs.Exact.{ReadsEach, Decides, Refuses, RefusesBytes};
ghost use Rattle.cip_message.specs.declared.failure.ConnectionFailure.{ConnectionFailure as Failed};
ghost use Rattle.cip_message.specs.Failure.{failure_data};
ghost use Rattle.cip_message.specs.Reply.{reply_with};
ghost use Rattle.cip_message.specs.ReplyAt.{reply_at, IsDone};
ghost use Rattle.cip_message.specs.RequestAt.{IsSent};
ghost use Rattle.cip_close.specs.Failed.{close_failure_bytes};
ghost use Rattle.cip_close.specs.Close.{Close, ReadsClose, IsCloseFault, close_data, close_bytes};
ghost use Rattle.cip_close.specs.CloseAt.{close_at};
ghost use Rattle.cip_close.specs.Success.{CloseSuccess, ReadsCloseReply, IsCloseReplyFault};
ghost use Rattle.cip_close.specs.Success.{close_reply_data, close_reply_bytes};
ghost use Rattle.cip_close.specs.SuccessAt.{close_reply_at};

/// Reading data as that of Forward_Close gives the one record that has its layout, or the one fault
/// that fits.
pub fn close_is_exact()
    ensures only { ReadsEach close_at ReadsClose }
    ensures verdict { Decides close_at ReadsClose IsCloseFault }
    ensures faults { RefusesBytes close_at IsCloseFault }
{}

/// Reading data as that of a successful Forward_Close's reply gives the one record that has its
/// layout, or the first fault that fits.
pub fn close_reply_is_exact()
    ensures only { ReadsEach close_reply_at ReadsCloseReply }
    ensures verdict { Decides close_reply_at ReadsCloseReply IsCloseReplyFault }
    ensures faults { Refuses close_reply_at IsCloseReplyFault }
{}

/// The message that is written is read as a request to the Connection Manager, and its data as the
/// same record; as no other, whatever the path is.
pub fn written_close_is_read()
    ensures request { (o : Close) → IsSent 0x4E (close_data o) (close_bytes o) }
    ensures data_ { (o : Close) → IsReadable o.path → close_at (close_data o) ≡ Ok o }
    ensures alone { (c d : Close) → close_at (close_data c) ≡ Ok d → d ≡ c }
{}

/// The reply of a success that is written is read as a reply of status 00, and its data as the same
/// record; as no other, whatever the application reply is.
pub fn written_close_reply_is_read()
    ensures reply { (s : CloseSuccess) → IsDone 0xCE (close_reply_data s) (close_reply_bytes s) }
    ensures data_ { (s : CloseSuccess) → length s.reply % 2 ≡ 0
        → close_reply_at (close_reply_data s) ≡ Ok s }
    ensures alone { (s t : CloseSuccess) → close_reply_at (close_reply_data s) ≡ Ok t → t ≡ s }
{}

/// The reply of a failure that is written is read as a reply of that status; its data is read back
/// as the law of failures says.
pub fn written_close_failure_is_read()
    ensures { (status : Status) (f : Failed)
        → reply_at (close_failure_bytes status f) ≡ Ok (reply_with 0xCE status (failure_data f)) }
{}
