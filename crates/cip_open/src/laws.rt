//! What holds of every open, large or not: reading gives exactly what has the layout, and what is
//! written is read back.
ghost use Rattle.std.specs.Prelude.{◌≡◌, ◌<◌, ◌+◌, ◌*◌, ◌%◌, ℕ, Bool, true, false, length, Ok};
ghost use Rattle.cip_base.specs.declared.timing.Status.{Status};
ghost use Rattle.cip_segment.specs.Spelling.{IsReadable};
ghost use Rattle.cip_message.specs.Exact.{ReadsEach, Decides, Refuses, RefusesBytes};
ghost use Rattle.cip_message.specs.declared.failure.ConnectionFailure.{ConnectionFailure as Failed};
ghost use Rattle.cip_message.specs.Failure.{failure_data};
ghost use Rattle.cip_message.specs.Reply.{reply_with};
ghost use Rattle.cip_message.specs.ReplyAt.{reply_at, IsDone};
ghost use Rattle.cip_message.specs.RequestAt.{IsSent};
ghost use Rattle.cip_open.specs.Failed.{open_failure_bytes};
ghost use Rattle.cip_open.specs.Kinds.{open_service, open_reply_service, open_fixed_part};
ghost use Rattle.cip_open.specs.Params.{parts, params_of, large_params_of};
ghost use Rattle.cip_open.specs.Open.{Open, ReadsOpen, IsOpenFault, open_data, open_bytes};
ghost use Rattle.cip_open.specs.OpenAt.{open_at};
ghost use Rattle.cip_open.specs.Success.{OpenSuccess, ReadsOpenReply, IsOpenReplyFault};
ghost use Rattle.cip_open.specs.Success.{open_reply_data, open_reply_bytes};
ghost use Rattle.cip_open.specs.SuccessAt.{open_reply_at};

/// Reading data as that of an open, large or not, gives the one record that has its layout, or the
/// one fault that fits.
pub fn open_is_exact()
    ensures only { (large : Bool) → ReadsEach (open_at large) (ReadsOpen large) }
    ensures verdict { (large : Bool)
        → Decides (open_at large) (ReadsOpen large) (IsOpenFault large) }
    ensures faults { (large : Bool) → RefusesBytes (open_at large) (IsOpenFault large) }
{}

/// Reading data as that of a successful open's reply gives the one record that has its
/// layout, or the first fault that fits.
pub fn open_reply_is_exact()
    ensures only { ReadsEach open_reply_at ReadsOpenReply }
    ensures verdict { Decides open_reply_at ReadsOpenReply IsOpenReplyFault }
    ensures faults { Refuses open_reply_at IsOpenReplyFault }
{}

/// The message that is written is read as a request to the Connection Manager, and its data as the
/// same record; as no other, whatever the path is.
pub fn written_open_is_read()
    ensures request { (o : Open)
        → IsSent (open_service o.fields.large) (open_data o) (open_bytes o) }
    ensures data_ { (o : Open) → IsReadable o.path → open_at o.fields.large (open_data o) ≡ Ok o }
    ensures alone { (o p : Open) → open_at o.fields.large (open_data o) ≡ Ok p → p ≡ o }
{}

/// The reply of a success that is written is read as a reply of status 00, and its data as the same
/// record; as no other, whatever the application reply is.
pub fn written_open_reply_is_read()
    ensures reply { (large : Bool) (s : OpenSuccess)
        → IsDone (open_reply_service large) (open_reply_data s) (open_reply_bytes large s) }
    ensures data_ { (s : OpenSuccess) → length s.reply % 2 ≡ 0
        → open_reply_at (open_reply_data s) ≡ Ok s }
    ensures alone { (s t : OpenSuccess) → open_reply_at (open_reply_data s) ≡ Ok t → t ≡ s }
{}

/// The reply of a failure that is written is read as a reply of that status; its data is read back
/// as the law of failures says.
pub fn written_open_failure_is_read()
    ensures { (large : Bool) (status : Status) (f : Failed)
        → reply_at (open_failure_bytes large status f)
        ≡ Ok (reply_with (open_reply_service large) status (failure_data f)) }
{}

/// The services of opens and of their replies: 54 and D4, and of large ones 5B and DB; and the
/// bytes of their data before the path: 36, and of large ones 40.
pub fn services_of_opens()
    ensures small { (open_service false ≡ 0x54) × (open_reply_service false ≡ 0xD4) }
    ensures large { (open_service true ≡ 0x5B) × (open_reply_service true ≡ 0xDB) }
    ensures fixed { (open_fixed_part false ≡ 36) × (open_fixed_part true ≡ 40) }
{}

/// Where the network connection parameters have their parts: in a word the size in 9 bits and at
/// bit 9 whether it varies, at bits 10, 13 and 15 the priority, the type and the redundant owner;
/// in a double word the size in 16 bits, and the others 16 bits further up.
pub fn parameters_have_their_parts()
    ensures small { (s v p k r : ℕ) → s < 512 → v < 2 → p < 4 → k < 4 → r < 2
        → params_of (s + 512 * v + 1024 * p + 8192 * k + 32768 * r) ≡ parts s v p k r }
    ensures large { (s v p k r : ℕ) → s < 65536 → v < 2 → p < 4 → k < 4 → r < 2
        → large_params_of (s + 65536 * (512 * v + 1024 * p + 8192 * k + 32768 * r))
        ≡ parts s v p k r }
{}
