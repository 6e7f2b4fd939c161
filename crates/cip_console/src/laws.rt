//! What holds of the text of every run.
ghost use Rattle.std.specs.Prelude.{◌≡◌, ℕ, ◌++◌, ◌∷◌, [], List, reverse};
ghost use Rattle.cip_world.specs.declared.journal.Entry.{Entry};
ghost use Rattle.cip_event.specs.declared.frame.FrameName.{FrameName};
ghost use Rattle.cip_world.specs.declared.world.End.TheVariants.{Quiet, Limit};
ghost use Rattle.cip_console.specs.Live.{entries_text, last_text};
ghost use Rattle.cip_console.specs.Transcript.{end_text, newest};

/// A run is printed alike in turn and on threads: each entry behind those before it, under the same
/// number, and the same last line.
pub fn runs_are_printed_alike()
    ensures entries { (names : List (List ℕ)) (entries : List Entry) (entry : Entry)
        → entries_text names 0 (entries ++ entry ∷ [])
        ≡ entries_text names 0 entries ++ newest names (entry ∷ reverse entries) }
    ensures quiet { end_text [] ≡ last_text Quiet }
    ensures limit { (first : FrameName) (others : List FrameName)
        → end_text (first ∷ others) ≡ last_text Limit }
{}
