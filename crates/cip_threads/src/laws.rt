//! What holds of the journal of modules on threads: all that holds of every run.
ghost use Rattle.std.specs.Prelude.{◌≡◌, ◌<◌, ◌+◌, ℕ, List, [], ◌∷◌, length, Some};
ghost use Rattle.std.specs.FinMap as map;
ghost use Rattle.cip_base.specs.declared.numbers.ModuleId.{ModuleId as Id};
ghost use Rattle.cip_base.specs.declared.triad.Triad.{Triad};
ghost use Rattle.cip_hops.specs.declared.hop.Held.TheVariants.{Open};
ghost use Rattle.cip_hops.specs.declared.hop.Hop.{Hop};
ghost use Rattle.cip_hops.specs.declared.opening.HopDown.TheVariants.{Link as DownLink};
ghost use Rattle.cip_config.specs.declared.config.ModuleSettings.{ModuleSettings as Settings};
ghost use Rattle.cip_event.specs.declared.event.Output.TheVariants.{Arrived, Consumed};
ghost use Rattle.cip_routing.specs.declared.tables.Tables.{Tables};
ghost use Rattle.cip_chassis.specs.Plan.{Plan, IsTopology};
ghost use Rattle.cip_world.specs.Chains.{Member, IsChain, last_of, AreDeliveries, AreKept};
ghost use Rattle.cip_world.specs.Chains.{IsTakenBy};
ghost use Rattle.cip_world.specs.Entering.{HasOutput, before_entry, IsEntered, ConsumedOf};
ghost use Rattle.cip_world.specs.Entering.{ArrivedOf};
ghost use Rattle.cip_world.specs.Journals.{Journal};
ghost use Rattle.cip_world.specs.Mirrors.{IsOlder, IsMirrored};
ghost use Rattle.cip_world.specs.RepliesTell.{RepliesTell};
ghost use Rattle.cip_world.specs.Runs.{IsModule, IsRun, state_in};
ghost use Rattle.cip_world.specs.TrailTells.{TrailTells};
ghost use Rattle.cip_world.specs.Trails.{trail_of};
ghost use Rattle.cip_world.specs.Waiting.{waiting};
ghost use Rattle.cip_event.specs.declared.frame.FrameName.{FrameName};
ghost use Rattle.cip_world.specs.declared.world.End.TheVariants.{Quiet, Limit};
ghost use Rattle.cip_threads.specs.declared.feed.Feed.{Feed};
ghost use Rattle.cip_threads.specs.Feeds.{feeds_of, fed};
ghost use Rattle.cip_threads.specs.Reports.{IsReport, IsReported};

/// The journal that `run_threads` reports is a run of its topology. So of what an end took, of what
/// arrived at an op, of the Dones of an op and of all replies, of mirrored connections and of
/// chains it tells what the journal of a world tells.
pub fn a_report_tells_what_a_run_tells()
    ensures run { (t : Plan) (j : Journal) → IsReported t j → IsRun t j }
    ensures consumed { (t : Plan) (j : Journal) → IsReported t j → IsTopology t → (k e : ℕ)
        (triad : Triad) (instance : ℕ) (bytes : List ℕ)
        → HasOutput j k e (Consumed triad instance bytes)
        → ConsumedOf t j k e triad instance bytes }
    ensures arrived { (t : Plan) (j : Journal) → IsReported t j → IsTopology t → (k m op : ℕ)
        (bytes : List ℕ) → HasOutput j k m (Arrived op bytes) → ArrivedOf t j k m op bytes }
    ensures trails { (t : Plan) (j : Journal) → IsReported t j → IsTopology t → (m op : ℕ)
        → TrailTells t j m op (trail_of j m op) }
    ensures replies { (t : Plan) (j : Journal) → IsReported t j → IsTopology t → RepliesTell t j }
    ensures mirrored { (t : Plan) (j : Journal) → IsReported t j → IsTopology t → (k : Journal)
        → IsOlder k j → (m : ℕ) (config : Settings) → IsModule t m config → (q : Triad) (h : Hop)
        (port : ℕ) (address : List ℕ)
        → map.get (state_in config m k).hops.held q ≡ Some (Open h)
        → h.opening.down ≡ DownLink port address
        → IsMirrored t j (record { at = m; port = port; address = address }) h }
    ensures carries { (t : Plan) (j : Journal) → IsReported t j → IsTopology t
        → (entry m op : ℕ) (bytes : List ℕ) → IsEntered j entry m op bytes
        → (first : Member) (rest : List Member) → first.at ≡ m
        → IsChain t (before_entry j entry) op first rest
        → (ks : List ℕ) → AreDeliveries j entry ks → length ks ≡ length rest
        → AreKept t j entry (last_of entry ks) (first ∷ rest)
        → IsTakenBy j (last_of entry ks) (last_of first rest) bytes }
{}

/// After a run that ends quiet no frame waits, and each feed of a module stands in the journal, in
/// its order. One that ends at its limit has an entry for each turn, and a feed or a frame is left.
pub fn the_end_of_a_report_is_true()
    ensures frames { (t : Plan) (given : List (Id × Feed)) (turns : ℕ) (j : Journal)
        (tables : List Tables) (feeds : List (Id × Feed)) (frames : List FrameName)
        → IsReport t given turns j tables feeds frames Quiet → waiting t j ≡ [] }
    ensures feeds { (t : Plan) (given : List (Id × Feed)) (turns : ℕ) (j : Journal)
        (tables : List Tables) (feeds : List (Id × Feed)) (frames : List FrameName)
        → IsReport t given turns j tables feeds frames Quiet
        → (m : ℕ) → feeds_of m given ≡ fed m j }
    ensures turns { (t : Plan) (given : List (Id × Feed)) (turns : ℕ) (j : Journal)
        (tables : List Tables) (feeds : List (Id × Feed)) (frames : List FrameName)
        → IsReport t given turns j tables feeds frames Limit → length j ≡ turns }
    ensures left { (t : Plan) (given : List (Id × Feed)) (turns : ℕ) (j : Journal)
        (tables : List Tables) (feeds : List (Id × Feed)) (frames : List FrameName)
        → IsReport t given turns j tables feeds frames Limit
        → 0 < length feeds + length (waiting t j) }
{}
