//! Which plans are topologies, which journals are runs over them, and what holds of a run.
ghost use Rattle.std.specs.Prelude.{◌≡◌, ◌≤◌, ◌<◌, true, false, [], ◌∷◌, ◌++◌, Some, None, codes};
ghost use Rattle.std.specs.FinMap as map;
ghost use Rattle.cip_base.specs.Counts.{reborn};
ghost use Rattle.cip_base.specs.Words.{Octets};
ghost use Rattle.cip_pending.specs.declared.entry.UpSide.TheVariants.{Link, Local};
ghost use Rattle.cip_hops.specs.Hops.{hop_by_up, hop_by_down};
ghost use Rattle.cip_hops.specs.declared.hop.Held.TheVariants.{Open};
ghost use Rattle.cip_target.specs.Identity.{is_product_name};
ghost use Rattle.cip_config.specs.declared.config.LegalAddresses.{LegalAddresses};
ghost use Rattle.cip_config.specs.declared.config.LegalAddresses.TheVariants.{Byte, Text};
ghost use Rattle.cip_config.specs.Config.{is_name, is_range, is_legal};
ghost use Rattle.cip_event.specs.declared.event.Body.TheVariants.{Request};
ghost use Rattle.cip_event.specs.declared.event.Command.TheVariants.{Close};
ghost use Rattle.cip_event.specs.declared.event.Output.TheVariants.{Arrived, Consumed, Done, Send};
ghost use Rattle.cip_routing.specs.State.{initial_state};
ghost use Rattle.cip_laws.specs.Births.{IsBirth};
ghost use Rattle.cip_laws.specs.Resets.{ResetIn, made_again};
ghost use Rattle.cip_laws.specs.Turns.{Gave, Has};
ghost use Rattle.cip_laws.specs.Weights.{is_ended, is_reply, weight};
ghost use Rattle.cip_chassis.specs.Plan.{IsTopology};
ghost use Rattle.cip_world.specs.declared.journal.Entry.TheVariants.{Step, Lost};
ghost use Rattle.cip_world.specs.declared.journal.Input.TheVariants.{Command};
ghost use Rattle.cip_world.specs.Answers.{Answered};
ghost use Rattle.cip_world.specs.Chains.{HasHop, IsChain, AreDeliveries, AreKept, IsTakenBy};
ghost use Rattle.cip_world.specs.Entering.{HasOutput, before_entry, IsTaken, IsEntered};
ghost use Rattle.cip_world.specs.Journals.{entry_at, part};
ghost use Rattle.cip_world.specs.Mirrors.{IsOlder, Mirrors, IsMirrored};
ghost use Rattle.cip_world.specs.ResetSteps.{IsResetBy};
ghost use Rattle.cip_world.specs.Roots.{root_of};
ghost use Rattle.cip_world.specs.Runs.{IsRun, IsWaiting, state_in};
ghost use Rattle.cip_world.specs.Trails.{trail_of};
ghost use Rattle.cip_world.specs.TrailTells.{OpenedIn, SentIn};
ghost use Rattle.witnesses.specs.Bounds.{IsNameOfSixteen, IsRangeOfSixteen, IsAddressFrom21};
ghost use Rattle.witnesses.specs.Bounds.{IsProductNameOf32};
ghost use Rattle.witnesses.specs.Plans.{plant, cell, row, scanner, first_bridge, triad, frame};
ghost use Rattle.witnesses.specs.StoredRun as stored;
ghost use Rattle.witnesses.specs.ConnectedRun as connected;
ghost use Rattle.witnesses.specs.FailedOpen as failed;
ghost use Rattle.witnesses.specs.TimedOutOpen as timed_out;
ghost use Rattle.witnesses.specs.LateReply as late;
ghost use Rattle.witnesses.specs.ChainedRun as chained;
ghost use Rattle.witnesses.specs.LargeRun as large;
ghost use Rattle.witnesses.specs.LateClose as closing;
ghost use Rattle.witnesses.specs.OneAfterTheOther as twice;
ghost use Rattle.witnesses.specs.LapsedRun as lapsed;
ghost use Rattle.witnesses.specs.ResetRun as resets;
ghost use Rattle.witnesses.specs.ResetBridge as reset_bridge;
ghost use Rattle.witnesses.specs.OpenedAgain as again;
ghost use Rattle.witnesses.specs.ResetTold as told;
ghost use Rattle.witnesses.specs.Told.{ConsumedFrom, ArrivedFrom, FailsAt, SucceedsAt, AnsweredAt};
ghost use Rattle.witnesses.specs.Told.{ComesLate};

/// The plans are topologies.
pub fn plans_are_topologies()
    ensures plant { IsTopology plant }
    ensures cell { IsTopology cell }
    ensures row { IsTopology row }
{}

/// The scanner asks the second bridge for its identity through the first one, and gets it.
pub fn stored_run()
    ensures { IsRun plant stored.ends }
{}

/// An open, a datum that is lost, one that is taken, and a tick.
pub fn connected_run()
    ensures { IsRun cell connected.taken }
{}

/// An open that fails at the second bridge: its path goes on by a port that the bridge lacks.
pub fn failed_open()
    ensures { IsRun plant failed.ends }
{}

/// An open that times out at the second bridge: nobody has the address to which it is sent on.
pub fn timed_out_open()
    ensures { IsRun plant timed_out.ends }
{}

/// A reply that comes when nothing waits for it any more.
pub fn late_reply()
    ensures { IsRun plant late.comes_late }
{}

/// A connection through two bridges, with a datum down and one up. Its chain stands in the end.
pub fn chained_run()
    ensures run { IsRun row chained.arrived }
    ensures chain { IsChain row chained.arrived 1
        (record { at = 0; hop = chained.of_scanner })
        (record { at = 1; hop = chained.of_first } ∷ record { at = 2; hop = chained.of_second }
        ∷ record { at = 3; hop = chained.of_adapter } ∷ []) }
{}

/// A module that resets itself while an open of its own is under way: the open ends, and its reply
/// is late, though another request waits under the first number of the next incarnation.
pub fn a_module_resets_itself()
    ensures { IsRun plant resets.comes_late }
{}

/// A bridge that is reset under an open connection: a datum of it is unknown there, and what is
/// asked through the bridge again goes on under the first number of the next incarnation.
pub fn a_bridge_is_reset()
    ensures { IsRun row reset_bridge.is_answered }
{}

/// A connection that is opened through a bridge that was reset, with a datum down and one up. In
/// the end the scanner resets itself, and the op that opened ends.
pub fn opened_again()
    ensures { IsRun row again.ends }
{}

/// What a reset does, at the bridge of that run: it is as it was made, in its next incarnation;
/// what it draws later is of that one; no request waits under the number of the first request, and
/// no connection goes by the ids that were next before.
pub fn a_reset_is_told_of()
    ensures reset { ResetIn first_bridge [] told.is_reset }
    ensures turns { part 1 again.up_at_first ≡ told.after_it ++ (told.is_reset ∷ []) }
    ensures state { state_in first_bridge 1 again.resets
        ≡ made_again first_bridge (Link 2 (1 ∷ []) 1) (initial_state first_bridge) }
    ensures numbers { reborn first_bridge.first_number
        ≤ (state_in first_bridge 1 again.up_at_first).pendings.next }
    ensures ids { reborn first_bridge.first_id
        ≤ (state_in first_bridge 1 again.up_at_first).hops.next }
    ensures waiting { map.get (state_in first_bridge 1 again.up_at_first).pendings.entries 1
        ≡ None }
    ensures connections { (hop_by_up (state_in first_bridge 1 again.up_at_first).hops 34 2 (1 ∷ [])
        ≡ None) × (hop_by_down (state_in first_bridge 1 again.up_at_first).hops 33 1 (3 ∷ [])
        ≡ None) }
{}

/// A bridge that is reset under a connection has none any more under the id by which a datum of it
/// comes.
pub fn a_connection_is_forgotten()
    ensures reset { ResetIn first_bridge (part 1 reset_bridge.sends) told.resets_under_it }
    ensures stood { hop_by_up (state_in first_bridge 1 reset_bridge.sends).hops 34 2 (1 ∷ [])
        ≡ Some chained.of_first }
    ensures drawn { ((state_in first_bridge 1 reset_bridge.sends).pendings.next ≡ 2)
        × ((state_in first_bridge 1 reset_bridge.sends).hops.next ≡ 35) }
    ensures state { state_in first_bridge 1 reset_bridge.resets
        ≡ made_again first_bridge (Link 2 (1 ∷ []) 2) (state_in first_bridge 1 reset_bridge.sends) }
    ensures waiting { map.get (state_in first_bridge 1 reset_bridge.is_unknown).pendings.entries 1
        ≡ None }
    ensures gone { hop_by_up (state_in first_bridge 1 reset_bridge.is_unknown).hops 34 2 (1 ∷ [])
        ≡ None }
    ensures none_down { hop_by_down (state_in first_bridge 1 reset_bridge.is_unknown).hops 33 1
        (3 ∷ []) ≡ None }
{}

/// So the scanner's connection, which was open before that reset, is mirrored by none there any
/// more: the bridge has no connection under the id that it names.
pub fn a_connection_is_mirrored_no_more()
    ensures stood { map.get (state_in scanner 0 reset_bridge.sends).hops.held triad
        ≡ Some (Open chained.of_scanner) }
    ensures names { chained.of_scanner.their_id ≡ Some 34 }
    ensures reset { IsResetBy first_bridge 1 reset_bridge.resetting reset_bridge.sends }
    ensures gone { hop_by_up (state_in first_bridge 1 reset_bridge.is_unknown).hops 34 2 (1 ∷ [])
        ≡ None }
{}

/// A module that resets itself by its own command is as it was made, in its next incarnation, with
/// its used ops and that of the command.
pub fn a_command_resets()
    ensures reset { ResetIn scanner (part 0 resets.opens) told.resets_itself }
    ensures state { state_in scanner 0 resets.resets
        ≡ made_again scanner (Local 2) (state_in scanner 0 resets.opens) }
{}

/// The open through that bridge draws its number and its ids in its turn.
pub fn an_open_draws_its_numbers()
    ensures sent { Has told.goes_on.outputs
        (Send 1 (3 ∷ []) (Request 65537 again.second_request)) }
    ensures number { ((state_in first_bridge 1 again.opens).pendings.next ≤ 65537)
        × (65537 < (state_in first_bridge 1 again.at_first).pendings.next) }
    ensures born { IsBirth first_bridge told.begins told.own (told.is_reset ∷ []) told.goes_on }
    ensures ids { ((state_in first_bridge 1 again.opens).hops.next ≤ 65538)
        × (65538 < (state_in first_bridge 1 again.at_first).hops.next) }
{}

/// The module that resets itself gives one Ended of its open, and neither a Done nor an Ended of it
/// behind that.
pub fn an_end_is_told_of()
    ensures turns { part 0 resets.comes_late
        ≡ told.behind_it ++ (told.resets_itself ∷ part 0 resets.opens) }
    ensures ended { weight (is_ended 1) (part 0 resets.comes_late) ≡ 1 }
    ensures most { weight (is_ended 1) (part 0 resets.comes_late) ≤ 1 }
    ensures last { (weight (is_reply (Local 1)) (told.behind_it ++ (told.resets_itself ∷ [])) ≡ 0)
        × (weight (is_ended 1) told.behind_it ≡ 0) }
{}

/// The scanner that resets itself with its connection open gave one Done of the op that opened it,
/// gives one Ended of it, and nothing of it behind that.
pub fn an_open_connection_ends()
    ensures turns { part 0 again.ends ≡ [] ++ (told.ends_itself ∷ part 0 again.arrived) }
    ensures done { (weight (is_reply (Local 2)) (part 0 again.ends) ≡ 1)
        × (weight (is_reply (Local 2)) (part 0 again.ends) ≤ 1) }
    ensures ended { (weight (is_ended 2) (part 0 again.ends) ≡ 1)
        × (weight (is_ended 2) (part 0 again.ends) ≤ 1) }
    ensures last { (weight (is_reply (Local 2)) ([] ++ (told.ends_itself ∷ [])) ≡ 0)
        × (weight (is_ended 2) [] ≡ 0) }
{}

/// Names, addresses and product names are just those that their bounds in numbers let through: a
/// name has 1 to 16 letters, digits, `_` or `-`; a text link has addresses of at most 1 to 16
/// characters from 21 to 7E, a byte link those from a first to a last byte; and a product name has
/// at most 32 characters from 20 to 7E.
pub fn bounds_in_numbers()
    ensures name { (s : Octets) → is_name s ≡ true → IsNameOfSixteen s }
    ensures named { (s : Octets) → IsNameOfSixteen s → is_name s ≡ true }
    ensures range { (l : LegalAddresses) → is_range l ≡ true → IsRangeOfSixteen l }
    ensures ranged { (l : LegalAddresses) → IsRangeOfSixteen l → is_range l ≡ true }
    ensures address { (l : LegalAddresses) (a : Octets) → is_legal l a ≡ true
        → IsAddressFrom21 l a }
    ensures addressed { (l : LegalAddresses) (a : Octets) → IsAddressFrom21 l a
        → is_legal l a ≡ true }
    ensures product_name { (s : Octets) → is_product_name s ≡ true → IsProductNameOf32 s }
    ensures product_named { (s : Octets) → IsProductNameOf32 s → is_product_name s ≡ true }
{}

/// Each bound is met, and none can be passed.
pub fn bounds_are_met()
    ensures names { (is_name (codes "0") ≡ true) × (is_name (codes "azAZ09_-azAZ09_-") ≡ true) }
    ensures no_names { (is_name [] ≡ false) × (is_name (codes "azAZ09_-azAZ09_-a") ≡ false)
        × (is_name (codes "a b") ≡ false) × (is_name (codes "a.b") ≡ false) }
    ensures ranges { (is_range (Text 1) ≡ true) × (is_range (Text 16) ≡ true)
        × (is_range (Byte 0 255) ≡ true) × (is_range (Byte 7 7) ≡ true) }
    ensures no_ranges { (is_range (Text 0) ≡ false) × (is_range (Text 17) ≡ false)
        × (is_range (Byte 8 7) ≡ false) }
    ensures addresses { (is_legal (Byte 3 5) (3 ∷ []) ≡ true)
        × (is_legal (Byte 3 5) (5 ∷ []) ≡ true)
        × (is_legal (Text 2) (0x21 ∷ 0x7E ∷ []) ≡ true) × (is_legal (Text 2) (0x21 ∷ []) ≡ true) }
    ensures no_addresses { (is_legal (Byte 3 5) (2 ∷ []) ≡ false)
        × (is_legal (Byte 3 5) (6 ∷ []) ≡ false) × (is_legal (Byte 3 5) (3 ∷ 3 ∷ []) ≡ false)
        × (is_legal (Byte 3 5) [] ≡ false) × (is_legal (Text 2) (0x20 ∷ []) ≡ false)
        × (is_legal (Text 2) (0x7F ∷ []) ≡ false)
        × (is_legal (Text 2) (0x21 ∷ 0x21 ∷ 0x21 ∷ []) ≡ false) }
    ensures product_names { (is_product_name [] ≡ true)
        × (is_product_name (codes " ~ ~ ~ ~ ~ ~ ~ ~ ~ ~ ~ ~ ~ ~ ~ ~") ≡ true) }
    ensures no_product_names { (is_product_name (codes " ~ ~ ~ ~ ~ ~ ~ ~ ~ ~ ~ ~ ~ ~ ~ ~ ") ≡ false)
        × (is_product_name (0x1F ∷ []) ≡ false) × (is_product_name (0x7F ∷ []) ≡ false) }
{}

/// A large open through the two bridges. The chain of its connection stands in the end.
pub fn large_run()
    ensures run { IsRun row large.stands }
    ensures chain { IsChain row large.stands 1 large.first_member large.members }
{}

/// A close that comes late, and takes the later connection of its triad.
pub fn late_close()
    ensures { IsRun cell closing.answered }
{}

/// Two connections of one triad, one after the other: the datum of the first, which comes late, is
/// no datum of the second.
pub fn one_after_the_other()
    ensures { IsRun cell twice.taken }
{}

/// In the chained run a datum is entered on a chain of three links, followed through three
/// deliveries while no connection of the chain is removed, and taken at the end.
pub fn a_datum_is_carried()
    ensures entered { IsEntered chained.arrived 7 0 1 chained.datum }
    ensures chain { IsChain row (before_entry chained.arrived 7) 1 chained.first_member
        chained.members }
    ensures deliveries { AreDeliveries chained.arrived 7 (8 ∷ 9 ∷ 10 ∷ []) }
    ensures kept { AreKept row chained.arrived 7 10 (chained.first_member ∷ chained.members) }
    ensures taken { IsTakenBy chained.arrived 10 chained.end_member chained.datum }
{}

/// What is taken in the chained run was entered in entry 7, by the scanner on op 1.
pub fn a_datum_is_told_of()
    ensures taken { HasOutput chained.arrived 10 3 (Consumed triad 101 chained.datum) }
    ensures entered { ConsumedFrom row chained.arrived 10 3 triad 101 chained.datum 7 0 1 }
{}

/// What arrives in the chained run was produced in entry 12, by the adapter.
pub fn a_produced_datum_is_told_of()
    ensures arrives { HasOutput chained.arrived 15 0 (Arrived 1 (1 ∷ 0 ∷ 17 ∷ 34 ∷ [])) }
    ensures produced { ArrivedFrom row chained.arrived 15 0 1 (1 ∷ 0 ∷ 17 ∷ 34 ∷ []) 12 3 }
{}

/// In the chained run a connection is mirrored, and a reply answers its request.
pub fn the_run_is_told_of()
    ensures mirrored { IsMirrored row chained.arrived
        (record { at = 0; port = 2; address = 5 ∷ [] }) chained.of_scanner }
    ensures answered { Answered row chained.ends_there (frame 3) 2 2 1 (7 ∷ []) }
{}

/// The scanner's connection lapses, since it hears nothing. The adapter still has one under the id
/// that it named, and that one mirrors it: a law of connections speaks also of those that are gone.
pub fn a_lapsed_connection_is_mirrored()
    ensures run { IsRun cell lapsed.lapses }
    ensures older { IsOlder twice.stands lapsed.lapses }
    ensures stood { HasHop cell twice.stands lapsed.upper }
    ensures gone { map.get (state_in scanner 0 lapsed.lapses).hops.held triad ≡ None }
    ensures stands { HasHop cell lapsed.lapses lapsed.lower }
    ensures mirrored { IsMirrored cell lapsed.lapses lapsed.out lapsed.of_scanner }
    ensures mirrors { Mirrors lapsed.there lapsed.of_scanner lapsed.of_adapter }
{}

/// The Done of the open that fails tells three words, which its path had at the second bridge, in
/// entry 2 of the trail 0, 1, 2.
pub fn a_failure_tells_where()
    ensures opened { OpenedIn plant failed.ends 0 1 0 failed.path }
    ensures done { Gave (part 0 failed.ends) (Done 1 failed.failure) }
    ensures trail { trail_of failed.ends 0 1 ≡ 0 ∷ 1 ∷ 2 ∷ [] }
    ensures tells { FailsAt plant failed.ends (0 ∷ 1 ∷ 2 ∷ []) 0 failed.path false
        failed.failure 2 3 }
{}

/// So does the Done of the open that times out there.
pub fn a_time_out_tells_where()
    ensures opened { OpenedIn plant timed_out.ends 0 1 0 timed_out.path }
    ensures done { Gave (part 0 timed_out.ends) (Done 1 timed_out.failure) }
    ensures trail { trail_of timed_out.ends 0 1 ≡ 0 ∷ 1 ∷ 2 ∷ [] }
    ensures tells { FailsAt plant timed_out.ends (0 ∷ 1 ∷ 2 ∷ []) 0 timed_out.path false
        timed_out.failure 2 3 }
{}

/// The open of the chained run succeeds: it was accepted in entry 3, the last of its trail, at the
/// adapter.
pub fn a_success_tells_where()
    ensures opened { OpenedIn row chained.arrived 0 1 0 chained.path }
    ensures done { Gave (part 0 chained.arrived) (Done 1 chained.third_success) }
    ensures trail { trail_of chained.arrived 0 1 ≡ 0 ∷ 1 ∷ 2 ∷ 3 ∷ [] }
    ensures tells { SucceedsAt row chained.arrived (0 ∷ 1 ∷ 2 ∷ 3 ∷ []) 0 chained.path false
        chained.third_success 3 3 }
{}

/// So does the large open, and its reply has the service of a large one.
pub fn a_large_success_tells_where()
    ensures opened { OpenedIn row large.stands 0 1 0 chained.path }
    ensures done { Gave (part 0 large.stands) (Done 1 large.third_success) }
    ensures trail { trail_of large.stands 0 1 ≡ 0 ∷ 1 ∷ 2 ∷ 3 ∷ [] }
    ensures tells { SucceedsAt row large.stands (0 ∷ 1 ∷ 2 ∷ 3 ∷ []) 0 chained.path true
        large.third_success 3 3 }
{}

/// The Done of the Send is what the second bridge answers, in entry 2, the last of its trail.
pub fn an_answer_is_the_targets()
    ensures sent { SentIn plant stored.ends 0 1 0 stored.path stored.asked }
    ensures done { Gave (part 0 stored.ends) (Done 1 stored.answer) }
    ensures trail { trail_of stored.ends 0 1 ≡ 0 ∷ 1 ∷ 2 ∷ [] }
    ensures tells { AnsweredAt plant stored.ends (0 ∷ 1 ∷ 2 ∷ []) 0 stored.path stored.asked
        stored.answer 2 2 }
{}

/// The reply that comes late changes no state and answers nothing: whoever asked for it was
/// answered once, before it came, and is answered no second time.
pub fn a_late_reply_changes_nothing()
    ensures late { ComesLate plant late.comes_late 4 1 (3 ∷ []) 1 late.answer }
    ensures answered { Answered plant late.times_out (frame 2) 1 1 1 (3 ∷ []) }
    ensures before { weight (is_reply (Link 2 (1 ∷ []) 1)) (part 1 late.times_out) ≡ 1 }
    ensures after { weight (is_reply (Link 2 (1 ∷ []) 1)) (part 1 late.comes_late) ≡ 1 }
{}

/// The datum that is lost does not wait, and its loss has no root.
pub fn a_loss_is_told_of()
    ensures lost { entry_at connected.taken 5 ≡ Some (Lost (frame 4)) }
    ensures waits { IsWaiting cell connected.taken (frame 4) → ⊥ }
    ensures root { root_of connected.taken 5 ≡ None }
{}

/// The Close that is taken has no trail.
pub fn a_close_is_told_of()
    ensures closes { entry_at twice.taken 4 ≡ Some (Step (record { 0 = 0 })
        (Command (Close 2 1 (record { tick = 7; ticks = 250 })))
        (Send 2 (7 ∷ []) (Request 2 twice.close_request) ∷ [])) }
    ensures taken { IsTaken (Send 2 (7 ∷ []) (Request 2 twice.close_request) ∷ []) }
    ensures trail { trail_of twice.taken 0 2 ≡ [] }
{}
