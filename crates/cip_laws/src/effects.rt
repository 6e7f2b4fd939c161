//! What the effects of an event tell, how they change the tables, and which outputs come from them.
ghost use Rattle.std.specs.Prelude.{◌≡◌, ◌⊎◌, ℕ, ◌+◌, ◌≤◌, List, [], ◌∷◌, ◌++◌, Some, true};
ghost use Rattle.std.specs.FinMap as map;
ghost use Rattle.cip_base.specs.declared.triad.Triad.{Triad};
ghost use Rattle.cip_pending.specs.declared.entry.Entry.{Entry};
ghost use Rattle.cip_pending.specs.declared.entry.UpSide.{UpSide};
ghost use Rattle.cip_hops.specs.declared.hop.Held.{Held};
ghost use Rattle.cip_hops.specs.declared.hop.Hop.{Hop};
ghost use Rattle.cip_hops.specs.declared.hop.Side.{Side};
ghost use Rattle.cip_config.specs.declared.config.ModuleSettings.{ModuleSettings as Settings};
ghost use Rattle.cip_event.specs.declared.event.Body.TheVariants.{Request, Data};
ghost use Rattle.cip_event.specs.declared.event.Command.TheVariants.{Enter, Produce};
ghost use Rattle.cip_event.specs.declared.event.Event.{Event as Input};
ghost use Rattle.cip_event.specs.declared.event.Event.TheVariants.{Command, Frame};
ghost use Rattle.cip_event.specs.declared.event.Output.{Output as Given};
ghost use Rattle.cip_event.specs.declared.event.Output.TheVariants.{Send};
ghost use Rattle.cip_laws.specs.Changes.{puts, numbers_drawn, drawn_ids, HeldCase};
ghost use Rattle.cip_laws.specs.EffectLists.{gain, takes_up, births, IsLight, IsBounded, AllStand};
ghost use Rattle.cip_laws.specs.EffectLists.{AreMade};
ghost use Rattle.cip_routing.specs.Effects.{Effect, Passes, apply, reply_up, datum_by, output_of};
ghost use Rattle.cip_routing.specs.Effects.{outputs_of};
ghost use Rattle.cip_laws.specs.Outputs.{GaveBy, RequestBy, RepliesBy, is_datum, PassedBy, DatumOf};
ghost use Rattle.cip_laws.specs.Outputs.{tells_end, EndedBy};
ghost use Rattle.cip_routing.specs.State.{State};
ghost use Rattle.cip_routing.specs.Table.{decide};
ghost use Rattle.cip_laws.specs.Tells.{asker, Tells, AllTell};
ghost use Rattle.cip_laws.specs.Weights.{is_asked_by};
ghost use Rattle.cip_laws.specs.Turns.{Has};

/// What the effects of an event tell: each of them of the event and of the state before it, and all
/// together that one thing is done for whom the event asks, that one connection at most is born,
/// and which tables still stand where an effect is applied.
pub fn effects_tell()
    ensures each { (config : Settings) (s : State) (event : Input) (es : List Effect)
        → decide config s event ≡ Some es → AllTell config s event es }
    ensures light { (d : Effect → ℕ) (b : UpSide → ℕ) → IsLight d b
        → (config : Settings) (s : State) (event : Input) (es : List Effect)
        → decide config s event ≡ Some es → IsBounded b (asker event) (gain d es) }
    ensures taken_up { (up : UpSide) (config : Settings) (s : State) (event : Input)
        (es : List Effect) → decide config s event ≡ Some es
        → gain (takes_up up) es ≤ is_asked_by up event }
    ensures born { (config : Settings) (s : State) (event : Input) (es : List Effect)
        → decide config s event ≡ Some es → gain births es ≤ 1 }
    ensures standing { (config : Settings) (s : State) (event : Input) (es : List Effect)
        → decide config s event ≡ Some es → AllStand config s es }
    ensures datum_first { (config : Settings) (s : State) (port id : ℕ) (from bytes : List ℕ)
        (es before after : List Effect) (triad : Triad) (side : Side) (datum : List ℕ)
        → decide config s (Frame port from (Data id bytes)) ≡ Some es
        → before ++ (Passes triad side datum ∷ after) ≡ es → before ≡ [] }
    ensures entered_first { (config : Settings) (s : State) (of : ℕ) (bytes : List ℕ)
        (es before after : List Effect) (triad : Triad) (side : Side) (datum : List ℕ)
        → decide config s (Command (Enter of bytes)) ≡ Some es
        → before ++ (Passes triad side datum ∷ after) ≡ es → before ≡ [] }
    ensures produced { (config : Settings) (s : State) (instance : ℕ) (es : List Effect)
        → decide config s (Command (Produce instance)) ≡ Some es → AreMade es }
{}

/// Where what waits and what is held after an effect comes from, and how many numbers and ids the
/// effect draws. What a connection was opened with, its own ids and the other's never change.
pub fn effects_change_the_tables()
    ensures pendings { (config : Settings) (s : State) (e : Effect) (n : ℕ) (p : Entry)
        → map.get (apply config s e).pendings.entries n ≡ Some p
        → (map.get s.pendings.entries n ≡ Some p)
        ⊎ ((n ≡ s.pendings.next) × (puts s e ≡ Some p)) }
    ensures connections { (config : Settings) (s : State) (e : Effect) (q : Triad) (x : Held)
        → map.get (apply config s e).hops.held q ≡ Some x → HeldCase s e q x }
    ensures numbers { (config : Settings) (s : State) (e : Effect)
        → (apply config s e).pendings.next ≡ s.pendings.next + numbers_drawn config s e }
    ensures ids { (config : Settings) (s : State) (e : Effect)
        → (apply config s e).hops.next ≡ s.hops.next + drawn_ids config s e }
{}

/// Which effect each output of an event comes from, and what that tells of the event and of the
/// state before it: a request, a reply or a Done, a datum that is sent, consumed or given to the
/// originator, the end of a silent connection, that of an op by a reset, a refusal with its row and
/// a drop with its row.
pub fn outputs_come_from_effects()
    ensures each { (config : Settings) (s : State) (event : Input) (es : List Effect) (x : Given)
        → decide config s event ≡ Some es → Has (outputs_of config s es) x
        → GaveBy config s event es x }
    ensures requests { (port n : ℕ) (to bytes : List ℕ) (config : Settings) (s : State)
        (event : Input) (mid : State) (e : Effect) → Tells config s event e
        → Has (output_of config mid e) (Send port to (Request n bytes))
        → RequestBy config s event e port to bytes }
    ensures numbers { (config : Settings) (mid : State) (e : Effect) (port n : ℕ)
        (to bytes : List ℕ) → Has (output_of config mid e) (Send port to (Request n bytes))
        → n ≡ mid.pendings.next }
    ensures replies { (up : UpSide) (bytes : List ℕ) (config : Settings) (s : State)
        (event : Input) (mid : State) (e : Effect) → Tells config s event e
        → Has (output_of config mid e) (reply_up up bytes)
        → RepliesBy config s event mid e up bytes }
    ensures data_ { (x : Given) → is_datum x ≡ true → (config : Settings) (mid : State)
        (e : Effect) → Has (output_of config mid e) x → PassedBy mid e x }
    ensures by_side { (hop : Hop) (side : Side) (bytes : List ℕ) (x : Given)
        → datum_by side hop bytes ≡ x → DatumOf hop side bytes x }
    ensures ends { (x : Given) → tells_end x ≡ 1 → (config : Settings) (s : State)
        (event : Input) (mid : State) (e : Effect) → Tells config s event e
        → Has (output_of config mid e) x → EndedBy config s event mid e x }
{}
