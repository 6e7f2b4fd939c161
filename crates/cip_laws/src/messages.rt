//! What holds of the messages that a module sends on, of its failures, and of data.
ghost use Rattle.std.specs.Prelude.{◌≡◌, ℕ, ◌+◌, ◌≤◌, ◌==◌, List, [], ◌∷◌, length, slice_index};
ghost use Rattle.std.specs.Prelude.{Option, Some, None, Ok, true, false, is_some, Bool, ◌<◌};
ghost use Rattle.cip_base.specs.declared.timing.Status.{Status};
ghost use Rattle.cip_base.specs.declared.triad.Triad.{Triad};
ghost use Rattle.cip_segment.specs.Reading.{segments_of};
ghost use Rattle.cip_message.specs.Request.{Request as Asked};
ghost use Rattle.cip_message.specs.RequestAt.{request_at};
ghost use Rattle.cip_message.specs.Reply.{reply_with};
ghost use Rattle.cip_message.specs.ReplyAt.{reply_at};
ghost use Rattle.cip_message.specs.Failure.{failure_at, failure_data};
ghost use Rattle.cip_unconnected.specs.declared.unconnected.TheConstants.{UNCONNECTED_SEND};
ghost use Rattle.cip_unconnected.specs.Unconnected.{Unconnected, unconnected_data};
ghost use Rattle.cip_unconnected.specs.Unconnected.{unconnected_bytes};
ghost use Rattle.cip_open.specs.Open.{Open, open_data, open_bytes};
ghost use Rattle.cip_close.specs.Close.{Close, close_data, close_bytes};
ghost use Rattle.cip_pending.specs.Pendings.{Pendings};
ghost use Rattle.cip_hops.specs.declared.hop.Hop.{Hop};
ghost use Rattle.cip_hops.specs.declared.hop.Side.TheVariants.{Up, Down};
ghost use Rattle.cip_hops.specs.Hops.{hop_by_up, hop_by_down, hop_by_op};
ghost use Rattle.cip_routing.specs.CommandRows.{Taken};
ghost use Rattle.cip_config.specs.declared.config.ModuleSettings.{ModuleSettings as Settings};
ghost use Rattle.cip_event.specs.declared.event.Body.TheVariants.{Data};
ghost use Rattle.cip_event.specs.declared.event.Command.TheVariants.{Enter};
ghost use Rattle.cip_event.specs.declared.event.Event.TheVariants.{Command, Frame};
ghost use Rattle.cip_routing.specs.declared.refusals.RequestRefusal.{RequestRefusal};
ghost use Rattle.cip_routing.specs.declared.refusals.UnconnectedRefusal.{UnconnectedRefusal};
ghost use Rattle.cip_routing.specs.declared.refusals.OpenRefusal.{OpenRefusal};
ghost use Rattle.cip_routing.specs.declared.refusals.CloseRefusal.{CloseRefusal};
ghost use Rattle.cip_routing.specs.Answers.{failure_bytes, route_words_data, unconnected_failed};
ghost use Rattle.cip_routing.specs.Answers.{failed_at, open_failed, close_failed};
ghost use Rattle.cip_routing.specs.CommandRows.{send_row};
ghost use Rattle.cip_config.specs.Config.{port_of};
ghost use Rattle.cip_routing.specs.Effects.{Effect, datum_by, outputs_of, timed_out_bytes};
ghost use Rattle.cip_routing.specs.Object.{begins_with_manager};
ghost use Rattle.cip_laws.specs.Outputs.{one_datum};
ghost use Rattle.cip_laws.specs.OwnTriads.{HasOwnTriads};
ghost use Rattle.cip_routing.specs.RequestRows.{UnconnectedSend, ForwardOpen, ForwardClose};
ghost use Rattle.cip_routing.specs.RequestRows.{unless_malformed, request_row};
ghost use Rattle.cip_routing.specs.State.{State};
ghost use Rattle.cip_routing.specs.Statuses.{request_status, unconnected_status, open_status};
ghost use Rattle.cip_routing.specs.Statuses.{close_status, link_status};
ghost use Rattle.cip_routing.specs.Table.{decide, message_on, unread_open_bytes};
ghost use Rattle.cip_routing.specs.UnconnectedRows.{AnsweredHere, Forwarded, unconnected_row};
ghost use Rattle.cip_laws.specs.Weights.{weight_in};
ghost use Rattle.cip_open.specs.Kinds.{open_reply_service, open_fixed_part};
ghost use Rattle.cip_open.specs.OpenAt.{open_triad_of, open_words_of};
ghost use Rattle.cip_message.specs.declared.fault.DataFault.{DataFault};
ghost use Rattle.cip_pending.specs.Kinds.{opening_kind};
ghost use Rattle.cip_routing.specs.declared.refusals.LinkRefusal.TheVariants.{TicksSpent};
ghost use Rattle.cip_routing.specs.OpenRows.{unread_row};

/// What a module replies to a request that fails is read back as its status and what it tells of
/// the request, whole: also to an open whose reply did not come in time, and to one that cannot be
/// read, cut in its fixed part or not.
pub fn failures_are_read_back()
    ensures requests { (service : ℕ) (status : Status)
        → reply_at (failure_bytes service status) ≡ Ok (reply_with (128 + service) status []) }
    ensures sends { (status : Status) (words : Option ℕ)
        → reply_at (unconnected_failed status words)
        ≡ Ok (reply_with 0xD2 status (route_words_data words)) }
    ensures opens { (large : Bool) (status : Status) (triad : Triad) (words : ℕ)
        → (reply_at (open_failed large status triad words)
        ≡ Ok (reply_with (open_reply_service large) status
        (failure_data (failed_at triad words))))
        × (failure_at (failure_data (failed_at triad words)) ≡ Ok (failed_at triad words)) }
    ensures late { (large : Bool) (triad : Triad) (words : ℕ)
        → timed_out_bytes (opening_kind large triad) words
        ≡ open_failed large (link_status TicksSpent) triad words }
    ensures cut { (large : Bool) (data_ : List ℕ) (fault : DataFault)
        → length data_ < open_fixed_part large → reply_at (unread_open_bytes large data_ fault)
        ≡ Ok (reply_with (open_reply_service large) (open_status (unread_row large data_ fault))
        []) }
    ensures unread { (large : Bool) (data_ : List ℕ) (fault : DataFault)
        → open_fixed_part large ≤ length data_ → reply_at (unread_open_bytes large data_ fault)
        ≡ Ok (reply_with (open_reply_service large) (open_status (unread_row large data_ fault))
        (failure_data (record {
          triad = open_triad_of data_;
          words = open_words_of large data_;
        }))) }
    ensures closes { (status : Status) (triad : Triad) (words : ℕ)
        → (reply_at (close_failed status triad words)
        ≡ Ok (reply_with 0xCE status (failure_data (failed_at triad words))))
        × (failure_at (failure_data (failed_at triad words)) ≡ Ok (failed_at triad words)) }
{}

/// What is sent on meets the group that it is meant for at any module that has the port, or is
/// dropped there as too long.
pub fn what_goes_on_meets_its_group()
    ensures opens { (config : Settings) (port : ℕ) (o : Open)
        → request_row config port (open_bytes o)
        ≡ unless_malformed config port (open_bytes o) (ForwardOpen o.fields.large (open_data o)) }
    ensures sends { (config : Settings) (port : ℕ) (u : Unconnected)
        → request_row config port (unconnected_bytes u)
        ≡ unless_malformed config port (unconnected_bytes u)
        (UnconnectedSend (unconnected_data u)) }
    ensures closes { (config : Settings) (port : ℕ) (c : Close)
        → request_row config port (close_bytes c)
        ≡ unless_malformed config port (close_bytes c) (ForwardClose (close_data c)) }
{}

/// What an Unconnected_Send or a Forward_Close sends on opens nothing: no module reads an
/// open, large or not, in it.
pub fn what_goes_on_is_no_open()
    ensures sends { (config there : Settings) (p : Pendings) (u : Unconnected) (r : Asked)
        (port q : ℕ) (address rest data_ : List ℕ) (large : Bool) → request_at u.request ≡ Ok r
        → unconnected_row config p u ≡ Forwarded port address rest
        → request_row there q (message_on u rest) ≡ ForwardOpen large data_ → ⊥ }
    ensures closes { (config : Settings) (port : ℕ) (c : Close) (data_ : List ℕ) (large : Bool)
        → request_row config port (close_bytes c) ≡ ForwardOpen large data_ → ⊥ }
{}

/// What travels embedded is not for the Connection Manager: the request in an Unconnected_Send that
/// goes on, or is answered here, has a path that does not begin with class 6; and that of a Send
/// that is taken has not the service of an Unconnected_Send.
pub fn no_manager_request_travels_embedded()
    ensures forwarded { (config : Settings) (p : Pendings) (u : Unconnected) (r : Asked)
        (port : ℕ) (address rest : List ℕ) → request_at u.request ≡ Ok r
        → unconnected_row config p u ≡ Forwarded port address rest
        → begins_with_manager (segments_of r.path) ≡ false }
    ensures answered { (config : Settings) (p : Pendings) (u : Unconnected) (r embedded : Asked)
        → request_at u.request ≡ Ok r → unconnected_row config p u ≡ AnsweredHere embedded
        → begins_with_manager (segments_of r.path) ≡ false }
    ensures sent { (s : State) (op : ℕ) (u : Unconnected) → send_row s op u ≡ Taken
        → (slice_index u.request 0 == UNCONNECTED_SEND) ≡ false }
{}

/// A datum that comes by the id of a connection, from its neighbour and of its size, gives one
/// output, that of the connection: it is passed on, consumed or given to the originator. So does
/// one that the op enters that opened. No datum that came or was entered gives more than one.
pub fn data_go_on()
    ensures down { (config : Settings) (s : State) → HasOwnTriads s
        → (port id : ℕ) (from bytes : List ℕ) → is_some (port_of config port) ≡ true
        → (hop : Hop) (es : List Effect) → hop_by_up s.hops id port from ≡ Some hop
        → length bytes ≡ hop.opening.ot_size
        → decide config s (Frame port from (Data id bytes)) ≡ Some es
        → outputs_of config s es ≡ datum_by Down hop bytes ∷ [] }
    ensures up { (config : Settings) (s : State) → HasOwnTriads s
        → (port id : ℕ) (from bytes : List ℕ) → is_some (port_of config port) ≡ true
        → (hop : Hop) (es : List Effect) → hop_by_up s.hops id port from ≡ None
        → hop_by_down s.hops id port from ≡ Some hop → length bytes ≡ hop.opening.to_size
        → decide config s (Frame port from (Data id bytes)) ≡ Some es
        → outputs_of config s es ≡ datum_by Up hop bytes ∷ [] }
    ensures entered { (config : Settings) (s : State) → HasOwnTriads s
        → (of : ℕ) (bytes : List ℕ) (hop : Hop) (es : List Effect)
        → hop_by_op s.hops of ≡ Some hop → length bytes ≡ hop.opening.ot_size
        → decide config s (Command (Enter of bytes)) ≡ Some es
        → outputs_of config s es ≡ datum_by Down hop bytes ∷ [] }
    ensures came_once { (config : Settings) (s : State) (port id : ℕ) (from bytes : List ℕ)
        (es : List Effect) → decide config s (Frame port from (Data id bytes)) ≡ Some es
        → weight_in one_datum (outputs_of config s es) ≤ 1 }
    ensures entered_once { (config : Settings) (s : State) (of : ℕ) (bytes : List ℕ)
        (es : List Effect) → decide config s (Command (Enter of bytes)) ≡ Some es
        → weight_in one_datum (outputs_of config s es) ≤ 1 }
{}

/// No failure has general status 0, that of a success.
pub fn failures_have_a_status()
    ensures requests { (refusal : RequestRefusal) → (request_status refusal).general ≡ 0 → ⊥ }
    ensures sends { (refusal : UnconnectedRefusal) → (unconnected_status refusal).general ≡ 0
        → ⊥ }
    ensures opens { (refusal : OpenRefusal) → (open_status refusal).general ≡ 0 → ⊥ }
    ensures closes { (refusal : CloseRefusal) → (close_status refusal).general ≡ 0 → ⊥ }
{}
