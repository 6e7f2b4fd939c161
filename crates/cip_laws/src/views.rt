//! What the tables that a module shows tell of its state.
ghost use Rattle.std.specs.Prelude.{◌≡◌};
ghost use Rattle.cip_config.specs.declared.config.ModuleSettings.{ModuleSettings as Settings};
ghost use Rattle.cip_routing.specs.declared.tables.Tables.{Tables as Shown};
ghost use Rattle.cip_laws.specs.OwnTriads.{HasOwnTriads};
ghost use Rattle.cip_routing.specs.Paired.{IsPaired};
ghost use Rattle.cip_routing.specs.Rooms.{HasRooms};
ghost use Rattle.cip_routing.specs.State.{State, initial_state};
ghost use Rattle.cip_routing.specs.Views.{ShowsState, LooksAlike, ShowsNone};

/// Tables that look as at the beginning are those of the first state of the config alone, where the
/// rooms are the config's and each connection that is opening waits for a reply.
pub fn fresh_tables_are_of_the_first_state()
    ensures { (config : Settings) (s : State) (tables : Shown) → HasRooms config s
        → IsPaired s.pendings s.hops → ShowsState s tables
        → ShowsState (initial_state config) tables → s ≡ initial_state config }
{}

/// Two states that show the same tables are equal but for their connections. These stand under the
/// same triads in both, opening in both, or open in both and with the same row. Where no connection
/// is shown and no request that waits opens one, the states are equal.
pub fn views_tell_states()
    ensures alike { (config : Settings) (s t : State) (tables : Shown) → HasRooms config s
        → HasRooms config t → IsPaired s.pendings s.hops → IsPaired t.pendings t.hops
        → HasOwnTriads s → HasOwnTriads t → ShowsState s tables → ShowsState t tables
        → LooksAlike s t }
    ensures equal { (config : Settings) (s t : State) (tables : Shown) → HasRooms config s
        → HasRooms config t → IsPaired s.pendings s.hops → IsPaired t.pendings t.hops
        → ShowsState s tables → ShowsState t tables → ShowsNone s tables → s ≡ t }
{}
