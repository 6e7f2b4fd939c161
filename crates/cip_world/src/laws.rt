//! What holds of every run.
ghost use Rattle.std.specs.Prelude.{◌≡◌, ℕ, ◌≤◌, true, List, [], ◌∷◌, length, Some, None};
ghost use Rattle.std.specs.FinMap as map;
ghost use Rattle.std.specs.List.{list_any};
ghost use Rattle.cip_base.specs.declared.numbers.ModuleId.{ModuleId as Id};
ghost use Rattle.cip_base.specs.declared.timing.Timing.{Timing};
ghost use Rattle.cip_base.specs.declared.triad.Triad.{Triad};
ghost use Rattle.cip_hops.specs.declared.hop.Held.TheVariants.{Open};
ghost use Rattle.cip_hops.specs.declared.hop.Hop.{Hop};
ghost use Rattle.cip_hops.specs.declared.opening.HopDown.TheVariants.{Link as DownLink};
ghost use Rattle.cip_hops.specs.Hops.{hop_by_up};
ghost use Rattle.cip_open.specs.Open.{Open as OpenRequest};
ghost use Rattle.cip_pending.specs.declared.entry.Entry.{Entry as Pending};
ghost use Rattle.cip_pending.specs.declared.entry.UpSide.TheVariants.{Link};
ghost use Rattle.cip_config.specs.declared.config.ModuleSettings.{ModuleSettings as Settings};
ghost use Rattle.cip_event.specs.declared.event.Body.TheVariants.{Reply};
ghost use Rattle.cip_event.specs.declared.event.Command.TheVariants.{Close};
ghost use Rattle.cip_event.specs.declared.event.Event.TheVariants as events;
ghost use Rattle.cip_event.specs.declared.event.Output.{Output as Sent};
ghost use Rattle.cip_event.specs.declared.event.Output.TheVariants.{Arrived, Consumed};
ghost use Rattle.cip_laws.specs.Histories.{IsHistory};
ghost use Rattle.cip_laws.specs.Weights.{same_up, is_reply, is_asked_by, weight, came};
ghost use Rattle.cip_chassis.specs.Plan.{Plan, IsTopology};
ghost use Rattle.cip_chassis.specs.Nodes.{Way, across};
ghost use Rattle.cip_event.specs.declared.frame.FrameName.{FrameName as Name};
ghost use Rattle.cip_world.specs.declared.journal.Entry.{Entry as Happened};
ghost use Rattle.cip_world.specs.declared.journal.Entry.TheVariants.{Step, Lost};
ghost use Rattle.cip_world.specs.declared.journal.Input.TheVariants as inputs;
ghost use Rattle.cip_world.specs.Journals.{Journal, entry_at, same_name, part};
ghost use Rattle.cip_world.specs.Names.{AreRising};
ghost use Rattle.cip_world.specs.Runs.{IsArrival, IsModule, IsRun, IsWaiting, state_in};
ghost use Rattle.cip_world.specs.Waiting.{waiting};
ghost use Rattle.cip_world.specs.Answers.{Answered};
ghost use Rattle.cip_world.specs.Mirrors.{IsOlder, IsMirrored};
ghost use Rattle.cip_world.specs.ResetSteps.{IsResetBy};
ghost use Rattle.cip_world.specs.Chains.{Member, IsChain, last_of, AreDeliveries, AreKept};
ghost use Rattle.cip_world.specs.Chains.{IsTakenBy};
ghost use Rattle.cip_world.specs.Entering.{HasOutput, before_entry, IsTaken, IsEntered, IsOpened};
ghost use Rattle.cip_world.specs.Entering.{ConsumedOf, ArrivedOf};
ghost use Rattle.cip_world.specs.Roots.{root_of};
ghost use Rattle.cip_world.specs.Trails.{trail_of};

/// A frame is in the list of those that wait exactly where it waits, and the list rises.
pub fn what_waits_is_listed()
    ensures waits { (t : Plan) (j : Journal) (f : Name) → IsWaiting t j f
        → list_any (λ g. same_name g f) (waiting t j) ≡ true }
    ensures listed { (t : Plan) (j : Journal) (f : Name)
        → list_any (λ g. same_name g f) (waiting t j) ≡ true → IsWaiting t j f }
    ensures rising { (t : Plan) (j : Journal) → AreRising (waiting t j) }
{}

/// What a module did in a run is a history of it: what holds of every history holds there.
pub fn runs_are_histories()
    ensures { (t : Plan) (j : Journal) (m : ℕ) (config : Settings) → IsRun t j
        → IsModule t m config → IsHistory config (part m j) }
{}

/// A request number comes to a module by a port from an address once at most.
pub fn requests_come_once()
    ensures { (t : Plan) → IsTopology t → (j : Journal) (m port n : ℕ) (from : List ℕ) → IsRun t j
        → came (is_asked_by (Link port from n)) (part m j) ≤ 1 }
{}

/// A request that came gets one reply at most, none before it came, and none while something waits
/// for that reply.
pub fn a_request_gets_one_reply()
    ensures once { (t : Plan) → IsTopology t → (j : Journal) (m : ℕ) (config : Settings)
        → IsRun t j → IsModule t m config → (port n : ℕ) (from : List ℕ)
        → weight (is_reply (Link port from n)) (part m j) ≤ 1 }
    ensures after { (t : Plan) → IsTopology t → (j : Journal) (m : ℕ) (config : Settings)
        → IsRun t j → IsModule t m config → (port n : ℕ) (from : List ℕ)
        → 1 ≤ weight (is_reply (Link port from n)) (part m j)
        → 1 ≤ came (is_asked_by (Link port from n)) (part m j) }
    ensures unreplied { (t : Plan) → IsTopology t → (j : Journal) (m : ℕ) (config : Settings)
        → IsRun t j → IsModule t m config → (port n : ℕ) (from : List ℕ) (k : ℕ) (p : Pending)
        → map.get (state_in config m j).pendings.entries k ≡ Some p
        → same_up p.up (Link port from n) ≡ true
        → weight (is_reply (Link port from n)) (part m j) ≡ 0 }
{}

/// A reply that comes answers the one request of its number that the module sent there.
pub fn replies_answer_their_requests()
    ensures { (t : Plan) → IsTopology t → (j : Journal) (f : Name) (m port n : ℕ)
        (from bytes : List ℕ) → IsRun t j
        → IsArrival t j f m port from (events.Frame port from (Reply n bytes))
        → Answered t j f m port n from }
{}

/// Each connection that goes on by a link, at whatever moment it stands, is mirrored below: at no
/// moment of the run, earlier or later, does the neighbour have a connection under the id that is
/// named that does not mirror it.
pub fn hops_are_mirrored()
    ensures { (t : Plan) → IsTopology t → (j k : Journal) (m : ℕ) (config : Settings) → IsRun t j
        → IsOlder k j → IsModule t m config → (q : Triad) (h : Hop) (port : ℕ) (address : List ℕ)
        → map.get (state_in config m k).hops.held q ≡ Some (Open h)
        → h.opening.down ≡ DownLink port address
        → IsMirrored t j (record { at = m; port = port; address = address }) h }
{}

/// A connection whose neighbour was reset since is mirrored by none there any more: at no later
/// moment does the neighbour have a connection under the id that is named.
pub fn a_reset_leaves_no_mirror()
    ensures { (t : Plan) → IsTopology t → (j before k : Journal) (e : Happened) → IsRun t j
        → IsOlder (e ∷ before) j → IsOlder k before → (m : ℕ) (config : Settings)
        → IsModule t m config → (q : Triad) (h : Hop) (port : ℕ) (address : List ℕ)
        → map.get (state_in config m k).hops.held q ≡ Some (Open h)
        → h.opening.down ≡ DownLink port address
        → (there : Way) → across t (record { at = m; port = port; address = address }) ≡ Some there
        → (neighbour : Settings) → IsModule t there.at neighbour
        → IsResetBy neighbour there.at e before
        → (id up_port : ℕ) (from : List ℕ) → h.their_id ≡ Some id
        → hop_by_up (state_in neighbour there.at j).hops id up_port from ≡ None }
{}

/// Each datum that an end takes is one that was entered, unchanged and at most once: its root is an
/// Enter of the same bytes, on an op whose open has the triad of the end's connection and a path
/// that leads to this end and this assembly.
pub fn what_is_consumed_was_entered()
    ensures { (t : Plan) → IsTopology t → (j : Journal) (k e : ℕ) (triad : Triad) (instance : ℕ)
        (bytes : List ℕ) → IsRun t j → HasOutput j k e (Consumed triad instance bytes)
        → ConsumedOf t j k e triad instance bytes }
{}

/// Each datum that arrives at an op is one that was produced, unchanged and at most once: its root
/// is a Produce, at the module to which the op's open leads and of the assembly there, in which the
/// frame for the open's triad has the same bytes.
pub fn what_arrives_was_produced()
    ensures { (t : Plan) → IsTopology t → (j : Journal) (k m op : ℕ) (bytes : List ℕ) → IsRun t j
        → HasOutput j k m (Arrived op bytes) → ArrivedOf t j k m op bytes }
{}

/// A frame that was lost never arrives, never waits again, and is not lost once more.
pub fn what_is_lost_is_gone()
    ensures arrives { (t : Plan) (j : Journal) (k i : ℕ) (f : Name) (at : Id) (port : ℕ)
        (from : List ℕ) (outs : List Sent) → IsRun t j → entry_at j k ≡ Some (Lost f)
        → entry_at j i ≡ Some (Step at (inputs.Frame port from f) outs) → ⊥ }
    ensures waits { (t : Plan) (j : Journal) (k : ℕ) (f : Name) → IsRun t j
        → entry_at j k ≡ Some (Lost f) → IsWaiting t j f → ⊥ }
    ensures once { (t : Plan) (j : Journal) (k i : ℕ) (f : Name) → IsRun t j
        → entry_at j k ≡ Some (Lost f) → entry_at j i ≡ Some (Lost f) → k ≡ i }
{}

/// A loss has no root.
pub fn a_loss_has_no_root()
    ensures { (j : Journal) (k : ℕ) (f : Name) → entry_at j k ≡ Some (Lost f)
        → root_of j k ≡ None }
{}

/// A Close that is taken has no trail: its op is used up, and no Open and no Send has it.
pub fn a_close_has_no_trail()
    ensures { (t : Plan) (j : Journal) (k op of : ℕ) (at : Id) (timing : Timing)
        (outs : List Sent) → IsRun t j
        → entry_at j k ≡ Some (Step at (inputs.Command (Close op of timing)) outs) → IsTaken outs
        → trail_of j at.0 op ≡ [] }
{}

/// Of the Opens of one op at one module one at most is taken: what an op opens is one open.
pub fn an_op_opens_once()
    ensures { (t : Plan) (j : Journal) (m op : ℕ) (one other : OpenRequest) → IsRun t j
        → (a : IsOpened t j m op one) → (b : IsOpened t j m op other)
        → (a.entry ≡ b.entry) × (one ≡ other) }
{}

/// A datum that is entered on a chain, and followed through as many deliveries as the chain has
/// links, is consumed at its end with the same bytes, where no connection of the chain is removed
/// meanwhile.
pub fn chains_carry_data()
    ensures { (t : Plan) → IsTopology t → (j : Journal) (entry m op : ℕ) (bytes : List ℕ)
        → IsRun t j → IsEntered j entry m op bytes
        → (first : Member) (rest : List Member) → first.at ≡ m
        → IsChain t (before_entry j entry) op first rest
        → (ks : List ℕ) → AreDeliveries j entry ks → length ks ≡ length rest
        → AreKept t j entry (last_of entry ks) (first ∷ rest)
        → IsTakenBy j (last_of entry ks) (last_of first rest) bytes }
{}

/// At any moment an op of a module has one chain at most.
pub fn an_op_has_one_chain()
    ensures { (t : Plan) (j : Journal) (op : ℕ) (first other : Member) (rest others : List Member)
        → first.at ≡ other.at → IsChain t j op first rest → IsChain t j op other others
        → (first ≡ other) × (rest ≡ others) }
{}
