//! What holds of all that a module ever did.
ghost use Rattle.std.specs.Prelude.{◌≡◌, ℕ, ◌+◌, ◌≤◌, ◌<◌, List, [], ◌∷◌, ◌++◌, Some, None, true};
ghost use Rattle.std.specs.FinMap as map;
ghost use Rattle.cip_base.specs.Counts.{reborn};
ghost use Rattle.cip_base.specs.declared.triad.Triad.{Triad};
ghost use Rattle.cip_pending.specs.declared.entry.Entry.{Entry};
ghost use Rattle.cip_pending.specs.declared.entry.UpSide.{UpSide};
ghost use Rattle.cip_pending.specs.declared.entry.UpSide.TheVariants.{Local};
ghost use Rattle.cip_hops.specs.declared.opening.Opening.{Opening};
ghost use Rattle.cip_hops.specs.declared.opening.OwnIds.{OwnIds};
ghost use Rattle.cip_hops.specs.declared.hop.Held.{Held};
ghost use Rattle.cip_hops.specs.declared.hop.Held.TheVariants.{Open as IsOpen};
ghost use Rattle.cip_hops.specs.declared.hop.Hop.{Hop};
ghost use Rattle.cip_hops.specs.Sides.{down_is_link};
ghost use Rattle.cip_hops.specs.Hops.{opening_of, ids_of, hop_by_up, hop_by_down};
ghost use Rattle.cip_config.specs.declared.config.ModuleSettings.{ModuleSettings as Settings};
ghost use Rattle.cip_event.specs.declared.event.Body.TheVariants.{Request};
ghost use Rattle.cip_event.specs.declared.event.Output.TheVariants.{Send, Ended};
ghost use Rattle.cip_laws.specs.Births.{Past, IsBirth, HasId};
ghost use Rattle.cip_laws.specs.Histories.{Turn, state_after, IsHistory};
ghost use Rattle.cip_laws.specs.Openings.{SentIn, Joined, HopOpened};
ghost use Rattle.cip_laws.specs.Outputs.{BornBy};
ghost use Rattle.cip_laws.specs.OwnTriads.{HasOwnTriads};
ghost use Rattle.cip_laws.specs.Weights.{is_request, is_reply, is_ended, is_asked_by, same_up};
ghost use Rattle.cip_laws.specs.Weights.{weight, came};
ghost use Rattle.cip_laws.specs.Resets.{ResetIn, made_again};
ghost use Rattle.cip_laws.specs.Turns.{SomeTurn, AskedIn, Has};

/// A module sends one request at most under each number, which it draws in that turn: it is none
/// that was next to be drawn before, and none that is after.
pub fn numbers_are_born_once()
    ensures once { (config : Settings) (turns : List Turn) → IsHistory config turns
        → (n : ℕ) → weight (is_request n) turns ≤ 1 }
    ensures drawn { (config : Settings) (turn : Turn) (before : List Turn) (port n : ℕ)
        (to bytes : List ℕ) → IsHistory config (turn ∷ before)
        → Has turn.outputs (Send port to (Request n bytes))
        → ((state_after config before).pendings.next ≤ n)
        × (n < (state_after config (turn ∷ before)).pendings.next) }
{}

/// Each request that waits was asked for and sent in one turn of the module, under its number.
pub fn requests_stem_from_turns()
    ensures { (config : Settings) (turns : List Turn) → IsHistory config turns
        → (n : ℕ) (p : Entry) → map.get (state_after config turns).pendings.entries n ≡ Some p
        → SomeTurn (λ turn. AskedIn turn n p) turns }
{}

/// Whom a reply goes to gets one reply at most each time that it asked, and one fewer while
/// something waits for it.
pub fn requests_are_replied_once()
    ensures replied { (config : Settings) (turns : List Turn) → IsHistory config turns
        → (up : UpSide) → weight (is_reply up) turns ≤ came (is_asked_by up) turns }
    ensures waiting { (config : Settings) (turns : List Turn) → IsHistory config turns
        → (up : UpSide) (n : ℕ) (p : Entry)
        → map.get (state_after config turns).pendings.entries n ≡ Some p → same_up p.up up ≡ true
        → weight (is_reply up) turns + 1 ≤ came (is_asked_by up) turns }
{}

/// An op gets one Done at most, and none while something waits for it.
pub fn ops_are_done_once()
    ensures done { (config : Settings) (turns : List Turn) → IsHistory config turns
        → (op : ℕ) → weight (is_reply (Local op)) turns ≤ 1 }
    ensures waiting { (config : Settings) (turns : List Turn) → IsHistory config turns
        → (op n : ℕ) (p : Entry)
        → map.get (state_after config turns).pendings.entries n ≡ Some p → p.up ≡ Local op
        → weight (is_reply (Local op)) turns ≡ 0 }
{}

/// An op gets one Ended at most; and neither a Done nor another Ended in the turn of its Ended, or
/// after it.
pub fn ops_end_once()
    ensures ended { (config : Settings) (turns : List Turn) → IsHistory config turns
        → (op : ℕ) → weight (is_ended op) turns ≤ 1 }
    ensures last { (config : Settings) (later before : List Turn) (turn : Turn)
        → IsHistory config (later ++ (turn ∷ before)) → (op : ℕ) → Has turn.outputs (Ended op)
        → (weight (is_reply (Local op)) (later ++ (turn ∷ [])) ≡ 0)
        × (weight (is_ended op) later ≡ 0) }
{}

/// A connection that is opening or open was born in one turn of the module, with its ids, and no
/// two that were ever born have an id of their own in common. It is what the open of that turn asks
/// for, in a frame or a command.
pub fn ids_are_born_once()
    ensures born { (config : Settings) (turns : List Turn) → IsHistory config turns
        → (q : Triad) (x : Held) → map.get (state_after config turns).hops.held q ≡ Some x
        → Past (IsBirth config (opening_of x) (ids_of x)) turns }
    ensures once { (config : Settings) (turns : List Turn) → IsHistory config turns
        → (o p : Opening) (ids own : OwnIds) (id : ℕ) → Past (IsBirth config o ids) turns
        → Past (IsBirth config p own) turns → HasId ids id → HasId own id
        → (o ≡ p) × (ids ≡ own) }
    ensures drawn { (config : Settings) (o : Opening) (ids : OwnIds) (before : List Turn)
        (turn : Turn) (id : ℕ) → IsHistory config (turn ∷ before)
        → IsBirth config o ids before turn → HasId ids id
        → ((state_after config before).hops.next ≤ id)
        × (id < (state_after config (turn ∷ before)).hops.next) }
    ensures asked { (config : Settings) (o : Opening) (ids : OwnIds) (before : List Turn)
        (turn : Turn) → IsHistory config (turn ∷ before) → IsBirth config o ids before turn
        → BornBy config (state_after config before) turn.event o }
{}

/// After a turn in which a module is reset, by a frame or by its own command, it is as it was made,
/// in its next incarnation, but with its clock and its used ops. From then on, whatever happens,
/// each number and each id that it draws is of a later incarnation; no request waits under a number
/// from before, so no reply to one is taken; and no connection goes by an id from before, so no
/// datum under one is.
pub fn a_reset_begins_anew()
    ensures state { (config : Settings) (turn : Turn) (before : List Turn)
        → IsHistory config (turn ∷ before) → (r : ResetIn config before turn)
        → state_after config (turn ∷ before)
        ≡ made_again config r.up (state_after config before) }
    ensures numbers { (config : Settings) (later before : List Turn) (turn : Turn)
        → IsHistory config (later ++ (turn ∷ before)) → ResetIn config before turn
        → reborn (state_after config before).pendings.next
        ≤ (state_after config (later ++ (turn ∷ before))).pendings.next }
    ensures ids { (config : Settings) (later before : List Turn) (turn : Turn)
        → IsHistory config (later ++ (turn ∷ before)) → ResetIn config before turn
        → reborn (state_after config before).hops.next
        ≤ (state_after config (later ++ (turn ∷ before))).hops.next }
    ensures waiting { (config : Settings) (later before : List Turn) (turn : Turn)
        → IsHistory config (later ++ (turn ∷ before)) → ResetIn config before turn
        → (n : ℕ) → n < reborn (state_after config before).pendings.next
        → map.get (state_after config (later ++ (turn ∷ before))).pendings.entries n ≡ None }
    ensures connections { (config : Settings) (later before : List Turn) (turn : Turn)
        → IsHistory config (later ++ (turn ∷ before)) → ResetIn config before turn
        → (id port : ℕ) (from : List ℕ) → id < reborn (state_after config before).hops.next
        → (hop_by_up (state_after config (later ++ (turn ∷ before))).hops id port from ≡ None)
        × (hop_by_down (state_after config (later ++ (turn ∷ before))).hops id port from
        ≡ None) }
{}

/// A request that opens a connection waits beside that connection, which began in the turn that
/// sent the request, and no two that wait open one triad. A connection that is open and goes on by
/// a link was opened by the success that came to the request that was sent for it.
pub fn connections_are_opened_by_successes()
    ensures waiting { (config : Settings) (turns : List Turn) → IsHistory config turns
        → Joined (SentIn config turns) (state_after config turns) }
    ensures opened { (config : Settings) (turns : List Turn) → IsHistory config turns
        → (q : Triad) (hop : Hop)
        → map.get (state_after config turns).hops.held q ≡ Some (IsOpen hop)
        → down_is_link hop.opening.down ≡ true
        → Past (HopOpened config hop.opening hop.ids hop.their_id) turns }
{}

/// Each connection stands under its own triad, and numbers, ids and the clock never fall.
pub fn tables_stay_in_order()
    ensures triads { (config : Settings) (turns : List Turn) → IsHistory config turns
        → HasOwnTriads (state_after config turns) }
    ensures numbers { (config : Settings) (turn : Turn) (turns : List Turn)
        → IsHistory config (turn ∷ turns) → (state_after config turns).pendings.next
        ≤ (state_after config (turn ∷ turns)).pendings.next }
    ensures ids { (config : Settings) (turn : Turn) (turns : List Turn)
        → IsHistory config (turn ∷ turns) → (state_after config turns).hops.next
        ≤ (state_after config (turn ∷ turns)).hops.next }
    ensures clock { (config : Settings) (turn : Turn) (turns : List Turn)
        → IsHistory config (turn ∷ turns) → (state_after config turns).now
        ≤ (state_after config (turn ∷ turns)).now }
{}
